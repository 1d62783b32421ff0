// Kinds of cell. A kind says how many corners a cell has, what its facets are, when it is sound and which points it covers; a law
// ties the last to the facets. Everything above is written once, for any kind. The two kinds are the triangle and the segment.
//
// A cell is the list of its corners, each the number of a vertex. The vertex table holds x, y and z of each vertex in turn.
#![tactic(auto)]

mod examples;
mod kind;
mod numbers;
mod places;
mod segment;
mod triangle;

pub use examples::kind_examples;
pub use kind::{Kind, Signed};
pub use numbers::{CellId, ReplacementId, VertexId};
pub use places::{Plane, PlanePoint, Spot, spot_of};
pub use segment::Segment;
pub use triangle::{Edge, Triangle};
