// Hierarchies: the check that accepts exactly the Multi-Triangulations, and an accepted hierarchy with what is worked out from its tables.
#![tactic(auto)]

mod hierarchy;
mod replacement;
mod replacements;
mod rim_rule;
mod surroundings;
mod workspace;

pub use hierarchy::Hierarchy;
pub use hierarchy::accept::{accept, tables_are_checked_once};
pub(crate) use replacement::Replacement;
pub use workspace::Workspace;
