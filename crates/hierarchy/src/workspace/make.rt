// Getting the memory of a check.
ghost use Rattle.std.specs.Prelude.{◌≡◌, IfOk};

use crate::Workspace;
use owners::Blank;
use rims::RimMemory;
use std::alloc::{AllocError, Global};

impl Workspace {
    // Gets memory to check hierarchies of at most `corners` corners in all, or finds none.
    pub fn new(heap: Global, corners: u32) -> Result<Workspace, AllocError>
        ensures { IfOk result (λ w. w.corners ≡ corners) }
    {
        let corners = corners as usize;
        let owners = Blank::new(heap)?;
        let replacements = Blank::new(heap)?;
        let rims = RimMemory::new(heap, 2 * corners)?;
        Ok(Workspace {
            corners,
            owners,
            replacements,
            rims,
        })
    }

    // How many corners there are places for.
    pub fn corners(&self) -> usize
        ensures { result ≡ self.now.corners }
    {
        self.corners
    }
}
