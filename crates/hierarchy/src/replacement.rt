// What is worked out of a replacement: its ranges, and the box around the cells that it makes.
use boxes::Extent;
use owners::Part;

#[derive(Clone, Copy, Debug, PartialEq, Eq)]
pub struct Replacement {
    pub(crate) ranges: Part,
    pub(crate) around: Extent,
}
