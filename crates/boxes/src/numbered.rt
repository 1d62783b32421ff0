// Vertices by the numbers that a list of corners holds.
ghost use Rattle.kinds.specs.Places.{spot};
ghost use Rattle.std.specs.Prelude.{◌≡◌};

use kinds::{Spot, VertexId, spot_of};

// Where the vertex with this number stands; None where the number is no vertex of the table.
pub(crate) fn numbered(vertices: &[i32], number: i32) -> Option<Spot>
    ensures { result ≡ spot vertices.now number }
{
    spot_of(vertices, VertexId(number))
}
