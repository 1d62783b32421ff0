// Who makes and who takes each cell: worked out from raw tables whose counts and ranges are known to be right, into memory that was got
// before. That no cell is taken twice is judged on the way.
#![tactic(auto)]

mod blank;
mod makers;
mod owners;
mod part;
mod parts;
mod ranged;
mod takers;

pub use blank::Blank;
pub use makers::list_makers;
pub use owners::Owners;
pub use part::Part;
pub use parts::Parts;
pub use ranged::Ranged;
pub use takers::list_owners;
