// One pass over a hierarchy line: it is read to its last byte, its numbers go into four sinks, and the answer says how many entries
// the tables have. With sinks over empty lists it judges the line; with sinks over lent lists it reads it. No call allocates.
#![tactic(auto)]

mod replacement;
mod whole;

pub use whole::pass_hierarchy;
