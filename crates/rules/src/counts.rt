// The rule of the counts on raw tables: whole vertices, cells and records, within limits, whose counts add up, and places for them.
ghost use Rattle.std.specs.Prelude.{◌≡◌, ℕ, ◌*◌, ◌%◌, ℤ, map, MatchBool, MatchOption, ◌≢◌};
ghost use Rattle.rules.specs.Counts.{AddsUp};
ghost use Rattle.rules.specs.Raw.{lists_of};
ghost use Rattle.rules.specs.Records.{records_of};
ghost use Rattle.rules.specs.declared.record.Record.{Record};
ghost use Rattle.tables.specs.Tables.{counts_made, counts_taken, VerticesCounted, CellsCounted, ReplacementsCounted, TakenCounted, Counted};

use crate::{RawTables, Record, Records};
use kinds::Kind;
use std::marker::PhantomData;
use tables::{MOST_CELLS, MOST_REPLACEMENTS, MOST_VERTICES, Places, Rule};

// What the counts that records have add up to, from a start on, unless one is below 0 or the sum is above the limit of cells and of
// taken numbers.
fn add_up<F: Fn(Record) -> i32>(records: Records<'_>, count_of: F, start: usize) -> Option<usize>
    requires { F.IsAlwaysCallable count_of }
    ensures { (counts : Record → ℤ) → ((r : Record) (z : ℤ) → F.post count_of r z → z ≡ counts r) → MatchOption result ((n : ℕ) → AddsUp (map counts (records_of records.entry.left.now)) start n → ⊥) (AddsUp (map counts (records_of records.entry.left.now)) start) }
{
    if start > MOST_CELLS {
        return None;
    }
    let mut sum = start;
    for record in records {
        sum += usize::try_from(count_of(record)).ok()?;
        if sum > MOST_CELLS {
            return None;
        }
    }
    Some(sum)
}

impl<'a> RawTables<'a> {
    // How many cells the counts come to, of which so many are base cells.
    fn cells_by_counts(&self, base: usize) -> Option<usize>
        ensures { MatchOption result ((n : ℕ) → AddsUp (counts_made (lists_of self.now).replacements) base n → ⊥) (AddsUp (counts_made (lists_of self.now).replacements) base) }
    {
        add_up(self.records(), |record| record.makes, base)
    }

    // How many taken numbers the counts come to.
    fn taken_by_counts(&self) -> Option<usize>
        ensures { MatchOption result ((n : ℕ) → AddsUp (counts_taken (lists_of self.now).replacements) 0 n → ⊥) (AddsUp (counts_taken (lists_of self.now).replacements) 0) }
    {
        add_up(self.records(), |record| record.takes, 0)
    }
}

// How many records of three numbers there are, if they are whole.
fn whole_threes(length: usize) -> Option<usize>
    ensures { MatchOption result (length % 3 ≢ 0) (λ n. length ≡ 3 * n) }
{
    (length % 3 == 0).then_some(length / 3)
}

// Whether so many cells of `width` corners make up a table of corners.
fn make_up(width: usize, cells: usize, corners: usize) -> bool
    ensures { MatchBool result (corners ≡ width * cells) (corners ≢ width * cells) }
{
    width.checked_mul(cells) == Some(corners)
}

// Raw tables of a kind of cell, and the places that their entries are to have.
// stays: derived equality would ask that the kind itself can be compared.
#[derive(Clone, Copy)]
pub(crate) struct Counts<'a, K: Kind> {
    pub(crate) kind: PhantomData<K>,
    pub(crate) tables: RawTables<'a>,
    pub(crate) places: Places,
}

impl<'a, K: Kind> Counts<'a, K> {
    // Whether there are 1 to 4,096 whole vertices, and places for them.
    fn vertices_counted(&self) -> bool
        ensures { MatchBool result (VerticesCounted (lists_of self.now.tables) self.now.places) (VerticesCounted (lists_of self.now.tables) self.now.places → ⊥) }
    {
        let coordinates = self.tables.coordinates.len();
        whole_threes(coordinates).is_some_and(|count| (1..=MOST_VERTICES).contains(&count))
            && coordinates <= self.places.coordinates
    }

    // Whether there are at most 16,384 whole cells, at least one of them a base cell, which the base and the replacements make, and
    // places for their corners.
    fn cells_counted(&self) -> bool
        ensures { MatchBool result (CellsCounted K.Kind.shape.arity (lists_of self.now.tables) self.now.places) (CellsCounted K.Kind.shape.arity (lists_of self.now.tables) self.now.places → ⊥) }
    {
        if self.tables.base < 1 {
            return false;
        }
        let corners = self.tables.corners.len();
        match self.tables.cells_by_counts(self.tables.base as usize) {
            Some(cells) => make_up(K::CORNERS, cells, corners) && corners <= self.places.corners,
            None => false,
        }
    }

    // Whether there are at most 4,096 whole records of replacements, and places for them.
    fn replacements_counted(&self) -> bool
        ensures { MatchBool result (ReplacementsCounted (lists_of self.now.tables) self.now.places) (ReplacementsCounted (lists_of self.now.tables) self.now.places → ⊥) }
    {
        let replacements = self.tables.replacements.len();
        whole_threes(replacements).is_some_and(|count| count <= MOST_REPLACEMENTS)
            && replacements <= self.places.replacements
    }

    // Whether there are at most 16,384 taken numbers, which the replacements take, and places for them.
    fn taken_counted(&self) -> bool
        ensures { MatchBool result (TakenCounted (lists_of self.now.tables) self.now.places) (TakenCounted (lists_of self.now.tables) self.now.places → ⊥) }
    {
        let taken = self.tables.taken.len();
        match self.tables.taken_by_counts() {
            Some(count) => count == taken && taken <= self.places.taken,
            None => false,
        }
    }
}

impl<'a, K: Kind> Rule for Counts<'a, K> {
    ghost kept = { λ s q. Counted K.Kind.shape.arity (lists_of s.tables) s.places q };

    fn holds(&self, place: usize) -> bool {
        // stays: the four counts are told by these places, so a `match` on them is what the rule says; closures in a table would need the same places.
        match place {
            0 => self.vertices_counted(),
            1 => self.cells_counted(),
            2 => self.replacements_counted(),
            3 => self.taken_counted(),
            _ => true,
        }
    }
}
