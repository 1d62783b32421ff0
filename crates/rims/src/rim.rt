// Judging rims.
ghost use Rattle.std.specs.Prelude.{◌≡◌, ◌+◌, ◌*◌, ◌/◌, ◌≤◌, map, length, IfOk, MatchBool, MatchOption, unsigned_abs};
ghost use Rattle.rims.specs.Keys.{held, Noted};
ghost use Rattle.rims.specs.Rims.{SameRim, Fitting};
ghost use Rattle.rules.specs.Cells.{rims};
ghost use Rattle.rules.specs.Values.{Numbered};
ghost use Rattle.std.specs.List.{range_with_len, AllByRecursion};

use crate::RimMemory;
use kinds::Kind;
use rules::{all_numbered, cell_at};
use std::alloc::{AllocError, Global};

// Whether the cells are whole cells of the table, and there is room for their facets.
// stays: which cells are meant is said by four things in three calls; a struct of them would be made by one caller and taken apart at once.
fn fits(
    width: usize,
    corners: &[i32],
    first: usize,
    count: usize,
    taken: &[i32],
    room: usize,
) -> bool
    requires { 1 ≤ width }
    ensures { MatchBool result (Fitting width corners.now first count taken.now room) (Fitting width corners.now first count taken.now room → ⊥) }
{
    let cells = corners.len() / width;
    first.checked_add(count).is_some_and(|past| past <= cells)
        && count
            .checked_add(taken.len())
            .is_some_and(|noted| noted <= room / width)
        && all_numbered(cells as u128, taken)
}

impl RimMemory {
    // Gets memory for so many keys of each sign, or finds none.
    pub fn new(heap: Global, room: usize) -> Result<RimMemory, AllocError>
        ensures { IfOk result (λ m. m.room ≡ room) }
    {
        let plus = Vec::with_capacity(heap, room)?;
        let minus = Vec::with_capacity(heap, room)?;
        Ok(RimMemory { plus, minus, room })
    }

    // How many keys of each sign there is room for.
    pub fn room(&self) -> usize
        ensures { result ≡ self.now.room }
    {
        self.room
    }

    // Notes the facets of a cell.
    fn note_cell<K: Kind>(&mut self, cell: &[i32])
        requires sided { length cell.now ≡ K.Kind.shape.arity }
        requires room { held self.old + K.Kind.shape.arity ≤ self.old.room }
        ensures noted { Noted K.Kind.key K.Kind.real self.old self.new (K.Kind.shape.rim cell.now) }
        ensures count { held self.new ≡ held self.old + K.Kind.shape.arity }
    {
        // stays: a kind gives the facets of a cell one at a time, by their places.
        for i in 0..cell.len() {
            let Some(facet) = K::facet(cell, i) else {
                return;
            };
            self.note::<K>(facet);
        }
    }

    // Notes the facets of so many cells, from one on.
    // stays: one loop for a run and a list would ask of its iterator, in clauses, what this loop and the next know of theirs.
    fn note_run<K: Kind>(&mut self, corners: &[i32], first: usize, count: usize)
        requires inside { first + count ≤ length corners.now / K.Kind.shape.arity }
        requires room { held self.old + K.Kind.shape.arity * count ≤ self.old.room }
        ensures noted { Noted K.Kind.key K.Kind.real self.old self.new (rims K.Kind.shape corners.now (range_with_len first count)) }
        ensures count { held self.new ≡ held self.old + K.Kind.shape.arity * count }
    {
        for c in first..first + count {
            self.note_cell::<K>(cell_at(corners, K::CORNERS, c));
        }
    }

    // Notes the facets of the cells that a list numbers.
    fn note_list<K: Kind>(&mut self, corners: &[i32], list: &[i32])
        requires inside { AllByRecursion (Numbered (length corners.now / K.Kind.shape.arity)) list.now }
        requires room { held self.old + K.Kind.shape.arity * length list.now ≤ self.old.room }
        ensures noted { Noted K.Kind.key K.Kind.real self.old self.new (rims K.Kind.shape corners.now (map unsigned_abs list.now)) }
        ensures count { held self.new ≡ held self.old + K.Kind.shape.arity * length list.now }
    {
        for number in list {
            self.note_cell::<K>(cell_at(corners, K::CORNERS, number.unsigned_abs() as usize));
        }
    }

    // Whether each facet has the same signed count over the made cells as over the taken ones: the facets of taken cells are noted with the
    // other sign.
    fn compare<K: Kind>(
        &mut self,
        corners: &[i32],
        first: usize,
        count: usize,
        taken: &[i32],
    ) -> bool
        requires inside { first + count ≤ length corners.now / K.Kind.shape.arity }
        requires known { AllByRecursion (Numbered (length corners.now / K.Kind.shape.arity)) taken.now }
        requires room { K.Kind.shape.arity * (count + length taken.now) ≤ self.old.room }
        ensures same { MatchBool result (SameRim K.Kind.shape corners.now (range_with_len first count) (map unsigned_abs taken.now)) (SameRim K.Kind.shape corners.now (range_with_len first count) (map unsigned_abs taken.now) → ⊥) }
        ensures room { self.new.room ≡ self.old.room }
    {
        self.clear();
        self.note_run::<K>(corners, first, count);
        self.turn();
        self.note_list::<K>(corners, taken);
        self.is_balanced()
    }

    // Whether each facet has the same signed count over `count` cells of a table of corners, from the cell `first` on, as over the cells of a
    // list; None where these are not all cells of the table, or there is no room for their facets.
    pub fn rim_stays<K: Kind>(
        &mut self,
        corners: &[i32],
        first: usize,
        count: usize,
        taken: &[i32],
    ) -> Option<bool>
        ensures answer { MatchOption result (Fitting K.Kind.shape.arity corners.now first count taken.now self.old.room → ⊥) (λ b. Fitting K.Kind.shape.arity corners.now first count taken.now self.old.room × MatchBool b (SameRim K.Kind.shape corners.now (range_with_len first count) (map unsigned_abs taken.now)) (SameRim K.Kind.shape corners.now (range_with_len first count) (map unsigned_abs taken.now) → ⊥)) }
        ensures room { self.new.room ≡ self.old.room }
    {
        if !fits(K::CORNERS, corners, first, count, taken, self.room) {
            return None;
        }
        Some(self.compare::<K>(corners, first, count, taken))
    }
}
