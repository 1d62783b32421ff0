// Raw tables whose ranges are known to be right: the counts are within limits and add up, every replacement takes and makes at least one
// cell, and every taken number is the number of a cell.
ghost use Rattle.std.specs.Prelude.{◌≡◌, ℕ, ◌<◌, ◌≤◌, length};
ghost use Rattle.owners.specs.Owners.{count_of, cells_made};
ghost use Rattle.rules.specs.Rows.{replacements_in};
ghost use Rattle.rules.specs.Ranges.{before};
ghost use Rattle.rules.specs.Raw.{at, lists_of};
ghost use Rattle.rules.specs.Values.{Numbered};

use rules::RawTables;

mod methods;

#[derive(Clone, Copy, Debug, PartialEq, Eq)]
pub struct Ranged<'a> {
    pub tables: RawTables<'a>,
    ghost few: { replacements_in (lists_of tables) ≤ 4096 },
    ghost made: { cells_made (lists_of tables) ≤ 16384 },
    ghost short: { length tables.taken.now ≤ 16384 },
    ghost listed: { before 1 tables.replacements.now (replacements_in (lists_of tables)) ≡ length tables.taken.now },
    ghost takes: { (i : ℕ) → i < replacements_in (lists_of tables) → 0 < count_of 1 tables.replacements.now i },
    ghost known: { (j : ℕ) → j < length tables.taken.now → Numbered (cells_made (lists_of tables)) (at tables.taken.now j) },
}
