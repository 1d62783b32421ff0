// Arrays of entries, each of which is read and kept: numbers, and rows of numbers, into lent lists. One reader serves to judge a
// line and to read it: a sink over an empty list keeps nothing, and a sink over a lent list fills its places. No call allocates.
#![tactic(auto)]

mod entries;
mod numbers;
mod rows;
mod sink;

pub use entries::{Entry, keep_list};
pub use numbers::Number;
pub use rows::Row;
pub use sink::Sink;
