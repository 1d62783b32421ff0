// The raw tables that a hierarchy is made of, and the rule of their counts: how many vertices, cells, replacements and taken
// numbers there may be. The rule is stated on the raw tables; a reader, which knows how many entries there are, judges by the counts.
// Any rule that says what has to hold at each place is judged by one function, which tells the lowest place where it is broken.
#![tactic(auto)]

mod contents;
mod kind;
mod rule;

pub use contents::{Contents, MOST_CELLS, MOST_REPLACEMENTS, MOST_TAKEN, MOST_VERTICES, Places};
pub use kind::CellKind;
pub use rule::{Rule, judge};
