// Memory for the keys of facets, by the sign with which these are counted: room for so many keys of each. What it holds between calls is spare.
ghost use Rattle.std.specs.Prelude.{◌≤◌, vec_capacity};

#[derive(Drop)]
pub struct RimMemory {
    pub(crate) plus: Vec<u64>,
    pub(crate) minus: Vec<u64>,
    // stays: what was asked for, which both lists have at least; callers' clauses go by this one number.
    pub(crate) room: usize,
    ghost ample: { (room ≤ vec_capacity plus) × (room ≤ vec_capacity minus) },
}
