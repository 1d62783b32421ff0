// Who makes a cell, and who takes it.
use kinds::ReplacementId;

#[derive(Clone, Copy, Debug, PartialEq, Eq)]
pub struct Owners {
    pub maker: Option<ReplacementId>,
    pub taker: Option<ReplacementId>,
}
