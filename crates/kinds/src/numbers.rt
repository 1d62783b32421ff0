// The numbers by which vertices, cells and replacements go, each a type of its own.
ghost use Rattle.std.specs.Prelude.{◌≡◌};
ghost use Rattle.kinds.specs.Numbers.{rank};

use whole::gap;

// stays: three types around a number, since none is to be taken for another; a number and a tag would say in two words what each says in one.
// The number of a vertex, from 0. Any other number of an `i32` is the number of no vertex.
#[derive(Clone, Copy, Debug, PartialEq, Eq)]
pub struct VertexId(pub i32);

// The number of a cell, from 0.
#[derive(Clone, Copy, Debug, PartialEq, Eq)]
pub struct CellId(pub u32);

// The number of a replacement, from 1.
#[derive(Clone, Copy, Debug, PartialEq, Eq)]
pub struct ReplacementId(pub u32);

impl VertexId {
    // How many numbers of an `i32` are lower.
    pub fn rank(self) -> u64
        ensures { result ≡ rank self.0 }
    {
        gap(i32::MIN, self.0) as u64
    }
}
