// What can be asked of an accepted hierarchy.
ghost use Rattle.std.specs.Prelude.{◌≡◌, ◌-◌, true, false, MatchOption};
ghost use Rattle.std.specs.List.{slice_get};
ghost use Rattle.hierarchy.specs.Asked.{MakerOf, TakerOf, FactsOf, RangesOf};
ghost use Rattle.rules.specs.Cells.{replacement};
ghost use Rattle.rules.specs.Rows.{cells_in, replacements_in, vertices_in};
ghost use Rattle.rules.specs.Raw.{lists_of};

use crate::{Hierarchy, Replacement};
use boxes::Facts;
use kinds::{CellId, Kind, ReplacementId};
use owners::{Owners, Part};

impl<'a, K: Kind> Hierarchy<'a, K> {
    // How many vertices there are.
    pub fn vertices(&self) -> usize
        ensures { result ≡ vertices_in (lists_of self.now.tables) }
    {
        self.tables.coordinates.len() / 3
    }

    // How many cells there are.
    pub fn cells(&self) -> usize
        ensures { result ≡ cells_in K.Kind.shape.arity (lists_of self.now.tables) }
    {
        self.owners.len()
    }

    // How many replacements there are.
    pub fn replacements(&self) -> usize
        ensures { result ≡ replacements_in (lists_of self.now.tables) }
    {
        self.replacements.len()
    }

    // The maker and the taker of a cell; None for a number that is no cell.
    fn owners_of(&self, c: CellId) -> Option<Owners>
        ensures { result ≡ slice_get self.now.owners.items c.0 }
    {
        self.owners.get(c.0 as usize).copied()
    }

    // The replacement that makes a cell; None for a base cell, and for a number that is no cell.
    // stays: it differs from the next in one name, which is all that it says.
    pub fn maker(&self, c: CellId) -> Option<ReplacementId>
        ensures { MakerOf (lists_of self.now.tables) c.0 result }
    {
        self.owners_of(c)?.maker
    }

    // The replacement that takes a cell; None where there is none, and for a number that is no cell.
    pub fn taker(&self, c: CellId) -> Option<ReplacementId>
        ensures { TakerOf (lists_of self.now.tables) c.0 result }
    {
        self.owners_of(c)?.taker
    }

    // What is worked out of a replacement; None for a number that is none.
    fn entry(&self, n: ReplacementId) -> Option<&Replacement>
        ensures { MatchOption result (replacement (lists_of self.now.tables) n.0 ≡ false) (λ r. (replacement (lists_of self.now.tables) n.0 ≡ true) × (slice_get self.now.replacements.items (n.0 - 1) ≡ Some r.now)) }
    {
        self.replacements.get((n.0 as usize).checked_sub(1)?)
    }

    // The ranges of a replacement; None for a number that is none.
    pub fn ranges(&self, n: ReplacementId) -> Option<Part>
        ensures { RangesOf (lists_of self.now.tables) n.0 result }
    {
        Some(self.entry(n)?.ranges)
    }

    // Number, error and box of a replacement; None for a number that is none.
    pub fn facts(&self, n: ReplacementId) -> Option<Facts>
        ensures { FactsOf K.Kind.shape.arity (lists_of self.now.tables) n.0 result }
    {
        let known = self.entry(n)?;
        Some(Facts {
            number: n,
            error: known.ranges.error,
            around: known.around,
        })
    }
}
