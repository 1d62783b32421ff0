// What is known of a replacement where it is asked for: its number, its error and its box.
use crate::Extent;
use kinds::ReplacementId;

#[derive(Clone, Copy, Debug, PartialEq, Eq)]
pub struct Facts {
    pub number: ReplacementId,
    pub error: u32,
    pub around: Extent,
}
