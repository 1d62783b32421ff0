// The replacement that takes each cell, and the rule that no cell is taken twice.
ghost use Rattle.std.specs.Prelude.{◌≡◌, ℕ, ◌+◌, true, length, slice_index_or, vec_len, None, MatchResult};
ghost use Rattle.owners.specs.Owners.{cells_made, Makers, makers_in, part_of, Takers, takers_in};
ghost use Rattle.owners.specs.Claims.{Noted, TakenTwice};
ghost use Rattle.rules.specs.Cells.{replacement};
ghost use Rattle.rules.specs.Rows.{replacements_in};
ghost use Rattle.rules.specs.Links.{FreshKept};
ghost use Rattle.rules.specs.Raw.{lists_of};
ghost use Rattle.tables.specs.Judging.{Clear};

use crate::makers::list_makers;
use crate::{Blank, Owners, Part, Ranged};
use faults::{Fault, Refusal};
use kinds::ReplacementId;

// Writes replacement n as the taker of each cell of its list, unless one is taken already.
fn note_takers(
    ranged: &Ranged<'_>,
    n: ReplacementId,
    part: Part,
    owners: &mut [Owners],
) -> Result<(), Fault>
    requires is { replacement (lists_of ranged.now.tables) n.0 ≡ true }
    requires ranges { part ≡ part_of (lists_of ranged.now.tables) n.0 }
    requires sized { length owners.old ≡ cells_made (lists_of ranged.now.tables) }
    requires noted { Noted (lists_of ranged.now.tables) part.list (takers_in owners.old) }
    ensures makers { makers_in owners.new ≡ makers_in owners.old }
    ensures takers { MatchResult result (λ _. Noted (lists_of ranged.now.tables) (part.list + part.takes) (takers_in owners.new)) (TakenTwice (lists_of ranged.now.tables)) }
{
    for z in part.taken(ranged.tables) {
        let owner = &mut owners[z.unsigned_abs() as usize];
        match owner.taker {
            Some(_) => return Err(Refusal::TakesTwice.at(n.0 as usize)),
            None => owner.taker = Some(n),
        }
    }
    Ok(())
}

// Writes the taker of each cell, unless a cell is taken twice.
fn fill_takers(ranged: &Ranged<'_>, owners: &mut [Owners]) -> Result<(), Fault>
    requires sized { length owners.old ≡ cells_made (lists_of ranged.now.tables) }
    requires free { (c : ℕ) → slice_index_or (takers_in owners.old) c None ≡ None }
    ensures makers { makers_in owners.new ≡ makers_in owners.old }
    ensures takers { MatchResult result (λ _. Clear 1 (replacements_in (lists_of ranged.now.tables) + 1) (FreshKept (lists_of ranged.now.tables)) × Takers (lists_of ranged.now.tables) (takers_in owners.new)) (TakenTwice (lists_of ranged.now.tables)) }
{
    for (n, part) in ranged.parts() {
        note_takers(ranged, n, part, owners)?;
    }
    Ok(())
}

// Lists the maker and the taker of each cell, unless a cell is taken twice: then the lowest replacement that takes a taken cell is told.
pub fn list_owners(ranged: &Ranged<'_>, blank: Blank<Owners, 16_384>) -> Result<Vec<Owners>, Fault>
    ensures { MatchResult result (λ v. (vec_len v ≡ cells_made (lists_of ranged.now.tables)) × Clear 1 (replacements_in (lists_of ranged.now.tables) + 1) (FreshKept (lists_of ranged.now.tables)) × Makers (lists_of ranged.now.tables) (makers_in v.items) × Takers (lists_of ranged.now.tables) (takers_in v.items)) (TakenTwice (lists_of ranged.now.tables)) }
{
    let mut owners = list_makers(ranged, blank);
    fill_takers(ranged, owners.as_mut_slice())?;
    Ok(owners)
}
