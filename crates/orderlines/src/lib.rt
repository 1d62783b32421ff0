// Order lines, checked and read whole. A line is first judged to its last byte and only then written into the lent list, so that a
// refusal leaves it as it was. No call allocates.
#![tactic(auto)]

mod order;

pub use order::{check_order, order_is_checked_once, order_is_read_once, read_order};
