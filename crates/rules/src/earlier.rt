// That a replacement takes only cells that come before those it makes.
ghost use Rattle.std.specs.Prelude.{◌≡◌, ℕ, ◌+◌, take, drop, unsigned_abs};
ghost use Rattle.faults.specs.declared.Refusal.TheVariants.{TakesNoEarlierCell};
ghost use Rattle.rules.specs.Raw.{lists_of};
ghost use Rattle.rules.specs.Ranges.{EarlierKept};
ghost use Rattle.rules.specs.Rows.{replacements_in};
ghost use Rattle.tables.specs.Judging.{RuleJudged};

use crate::lists::stretch;
use crate::values::all_numbered;
use crate::{RawTables, Record};
use faults::{Fault, Refusal};

// The numbers that a replacement takes, where so many are taken before.
fn taken_by(taken: &[i32], before: u128, replacement: Record) -> &[i32]
    ensures { result.now ≡ take (unsigned_abs replacement.takes) (drop before taken.now) }
{
    stretch(taken, before, replacement.takes.unsigned_abs() as usize)
}

// Judges each replacement.
pub(crate) fn judge_earlier(tables: RawTables<'_>) -> Result<(), Fault>
    ensures { RuleJudged TakesNoEarlierCell 1 (replacements_in (lists_of tables.entry) + 1) (EarlierKept (lists_of tables.entry)) result }
{
    let past = tables.replacements.len() / 3 + 1;
    let mut list: u128 = 0;
    let mut first = tables.base.unsigned_abs() as u128;
    for (n, record) in (1..past).zip(tables.records()) {
        if !all_numbered(first, taken_by(tables.taken, list, record)) {
            return Err(Refusal::TakesNoEarlierCell.at(n));
        }
        list += record.takes.unsigned_abs() as u128;
        first += record.makes.unsigned_abs() as u128;
    }
    Ok(())
}
