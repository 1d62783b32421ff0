// Boxes along the axes, the smallest box around vertices, and what is known of a replacement: its number, error and box.
#![tactic(auto)]

mod around;
mod extent;
mod facts;
mod interval;
mod numbered;

pub use around::box_around;
pub use extent::Extent;
pub use facts::Facts;
pub use interval::Interval;
