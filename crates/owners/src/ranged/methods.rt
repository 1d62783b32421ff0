// The replacements of tables whose ranges are right.
ghost use Rattle.std.specs.Prelude.{◌≡◌, unsigned_abs};
ghost use Rattle.owners.specs.Owners.{numbered_parts};
ghost use Rattle.owners.specs.Parts.{parts_from};
ghost use Rattle.rules.specs.Raw.{lists_of};
ghost use Rattle.rules.specs.Records.{records_of};

use crate::{Parts, Ranged};

impl<'a> Ranged<'a> {
    // How many base cells there are.
    pub(crate) fn base(&self) -> u32
        ensures { result ≡ unsigned_abs self.now.tables.base }
    {
        self.tables.base.unsigned_abs()
    }

    // The replacements, from the first to the last.
    pub fn parts(&self) -> Parts<'a>
        ensures { parts_from result.number result.list result.first (records_of result.records.left.now) ≡ numbered_parts (lists_of self.now.tables) }
    {
        Parts {
            records: self.tables.records(),
            number: 0,
            list: 0,
            first: self.base(),
        }
    }
}
