// The memory that a check needs, got before it.
ghost use Rattle.std.specs.Prelude.{◌*◌, ◌≤◌};

use crate::Replacement;
use owners::{Blank, Owners};
use rims::RimMemory;

mod make;

// Memory to check hierarchies of at most `corners` corners in all; everything else has its full limits.
#[derive(Drop)]
pub struct Workspace {
    pub(crate) corners: usize,
    pub(crate) owners: Blank<Owners, 16_384>,
    pub(crate) replacements: Blank<Replacement, 4096>,
    pub(crate) rims: RimMemory,
    ghost ample: { 2 * corners ≤ rims.room },
}
