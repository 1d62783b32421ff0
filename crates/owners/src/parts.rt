// Going through the replacements from the first to the last, each with its number and its ranges.
ghost use Rattle.std.specs.Prelude.{◌≡◌, ◌+◌, ◌≤◌, length, sum_by, unsigned_abs};
ghost use Rattle.std.specs.Iterator.{YieldsFirst, item_count};
ghost use Rattle.owners.specs.Parts.{parts_from};
ghost use Rattle.rules.specs.Records.{records_of};

use crate::Part;
use kinds::ReplacementId;
use rules::Records;

// The replacements that are left: their records, and how many replacements, taken numbers and cells come before them.
#[derive(Debug, Drop)]
pub struct Parts<'a> {
    pub(crate) records: Records<'a>,
    pub(crate) number: u32,
    pub(crate) list: u32,
    pub(crate) first: u32,
    ghost few: { number + length (records_of records.left.now) ≤ 4096 },
    ghost listed: { list + sum_by (λ r. unsigned_abs r.takes) (records_of records.left.now) ≤ 16384 },
    ghost made: { first + sum_by (λ r. unsigned_abs r.makes) (records_of records.left.now) ≤ 16384 },
}

impl<'a> Iterator for Parts<'a> {
    type Item = (ReplacementId, Part);

    ghost next_gives = { YieldsFirst (λ p. parts_from p.number p.list p.first (records_of p.records.left.now)) };

    ghost remaining = { item_count (λ p. parts_from p.number p.list p.first (records_of p.records.left.now)) };

    fn next(&mut self) -> Option<(ReplacementId, Part)> {
        let record = self.records.next()?;
        let part = Part {
            error: record.error.unsigned_abs(),
            list: self.list,
            takes: record.takes.unsigned_abs(),
            first: self.first,
            makes: record.makes.unsigned_abs(),
        };
        self.number += 1;
        self.list += part.takes;
        self.first += part.makes;
        Some((ReplacementId(self.number), part))
    }
}
