// The records of a replacement table, one for each replacement, and going through the whole ones in order.
ghost use Rattle.std.specs.Prelude.{◌≡◌, ◌-◌};
ghost use Rattle.std.specs.Iterator.{YieldsFirst, item_count};
ghost use Rattle.rules.specs.Records.{record_at, records_of};

use crate::RawTables;
use crate::lists::row_at;

// The error of a replacement, and how many cells it takes and makes.
#[derive(Clone, Copy, Debug, PartialEq, Eq)]
pub struct Record {
    pub error: i32,
    pub takes: i32,
    pub makes: i32,
}

// The whole records of three numbers that are left of a table.
#[derive(Clone, Debug, Drop)]
pub struct Records<'a> {
    left: &'a [i32],
}

impl<'a> Iterator for Records<'a> {
    type Item = Record;

    ghost next_gives = { YieldsFirst (λ r. records_of r.left.now) };

    ghost remaining = { item_count (λ r. records_of r.left.now) };

    fn next(&mut self) -> Option<Record> {
        let [error, takes, makes, rest @ ..] = self.left else {
            return None;
        };
        self.left = rest;
        Some(Record {
            error: *error,
            takes: *takes,
            makes: *makes,
        })
    }
}

impl<'a> RawTables<'a> {
    // The records of the replacements, from the first to the last.
    pub fn records(&self) -> Records<'a>
        ensures { result.left.now ≡ self.now.replacements.now }
    {
        Records {
            left: self.replacements,
        }
    }

    // The record of replacement n, where replacements are counted from 1; zeros past the last.
    pub fn record(&self, n: usize) -> Record
        ensures { result ≡ record_at self.now.replacements.now (n - 1) }
    {
        let [error, takes, makes] = row_at(self.replacements, n.saturating_sub(1));
        Record {
            error,
            takes,
            makes,
        }
    }
}
