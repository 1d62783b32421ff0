// Memory for a list that is still empty, with room for N entries.
ghost use Rattle.std.specs.Prelude.{◌≡◌, ◌≤◌, vec_len, vec_capacity};

use std::alloc::{AllocError, Global};

#[derive(Drop)]
pub struct Blank<T, const N: usize> {
    pub items: Vec<T>,
    ghost empty: { vec_len items ≡ 0 },
    ghost room: { N ≤ vec_capacity items },
}

impl<T: Drop, const N: usize> Blank<T, N> {
    // Gets the memory, or finds none.
    pub fn new(heap: Global) -> Result<Self, AllocError> {
        let items = Vec::with_capacity(heap, N)?;
        Ok(Blank { items })
    }
}
