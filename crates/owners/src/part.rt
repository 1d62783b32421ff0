// The ranges of a replacement: its error, where its list begins among the taken numbers and how many it takes, the first cell that it makes
// and how many it makes.
ghost use Rattle.std.specs.Prelude.{◌≡◌, take, drop};

use rules::{RawTables, stretch};

#[derive(Clone, Copy, Debug, PartialEq, Eq)]
pub struct Part {
    pub error: u32,
    pub list: u32,
    pub takes: u32,
    pub first: u32,
    pub makes: u32,
}

impl Part {
    // The numbers that it takes, of these tables.
    pub fn taken(self, tables: RawTables<'_>) -> &[i32]
        ensures { result.now ≡ take self.takes (drop self.list tables.entry.taken.now) }
    {
        stretch(tables.taken, self.list as u128, self.takes as usize)
    }
}
