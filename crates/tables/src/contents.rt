// How many entries the tables of a hierarchy have, how many places there are for them, and whether that is within limits.
ghost use Rattle.std.specs.Prelude.{◌≡◌, MatchBool, MatchResult};
ghost use Rattle.faults.specs.declared.Refusal.TheVariants.{CountOffLimits};
ghost use Rattle.tables.specs.Contents.{VerticesFit, CellsFit, ReplacementsFit, TakenFit, Fit, OffLimits};
ghost use Rattle.tables.specs.Judging.{Clear};

use crate::{CellKind, Rule, judge};
use faults::{Fault, Refusal};

// The limits.
pub const MOST_VERTICES: usize = 4_096;

pub const MOST_CELLS: usize = 16_384;

pub const MOST_REPLACEMENTS: usize = 4_096;

pub const MOST_TAKEN: usize = 16_384;

// What a hierarchy has: `cells` counts base cells and made cells, `taken` all taken numbers.
#[derive(Clone, Copy, Debug, PartialEq, Eq)]
pub struct Contents {
    pub kind: CellKind,
    pub vertices: usize,
    pub base: usize,
    pub cells: usize,
    pub replacements: usize,
    pub taken: usize,
}

// How many numbers each of the four tables has places for.
#[derive(Clone, Copy, Debug, PartialEq, Eq)]
pub struct Places {
    pub coordinates: usize,
    pub corners: usize,
    pub replacements: usize,
    pub taken: usize,
}

impl Contents {
    fn vertices_fit(&self, places: &Places) -> bool
        ensures { MatchBool result (VerticesFit self.now places.now) (VerticesFit self.now places.now → ⊥) }
    {
        (1..=MOST_VERTICES).contains(&self.vertices) && 3 * self.vertices <= places.coordinates
    }

    fn cells_fit(&self, places: &Places) -> bool
        ensures { MatchBool result (CellsFit self.now places.now) (CellsFit self.now places.now → ⊥) }
    {
        let corners = self.kind.corners();
        (1..=self.cells).contains(&self.base)
            && self.cells <= MOST_CELLS
            && corners * self.cells <= places.corners
    }

    fn replacements_fit(&self, places: &Places) -> bool
        ensures { MatchBool result (ReplacementsFit self.now places.now) (ReplacementsFit self.now places.now → ⊥) }
    {
        self.replacements <= MOST_REPLACEMENTS && 3 * self.replacements <= places.replacements
    }

    fn taken_fits(&self, places: &Places) -> bool
        ensures { MatchBool result (TakenFit self.now places.now) (TakenFit self.now places.now → ⊥) }
    {
        self.taken <= MOST_TAKEN && self.taken <= places.taken
    }

    // Says that every count is within limits and has places, or which is the first that is not.
    pub fn judge(&self, places: &Places) -> Result<(), Fault>
        ensures { MatchResult result (λ _. Clear 0 4 (Fit self.now places.now)) (OffLimits self.now places.now) }
    {
        let counts = Counts {
            contents: self,
            places,
        };
        judge(&counts, Refusal::CountOffLimits, 0, 4)
    }
}

// The rule of the counts, of what a hierarchy has and the places that there are for it.
#[derive(Clone, Copy)]
struct Counts<'a> {
    contents: &'a Contents,
    places: &'a Places,
}

impl<'a> Rule for Counts<'a> {
    ghost kept = { λ s q. Fit s.contents.now s.places.now q };

    fn holds(&self, place: usize) -> bool {
        // stays: the four counts are told by these places, so a `match` on them is what the rule says; closures in a table would need the same places.
        match place {
            0 => self.contents.vertices_fit(self.places),
            1 => self.contents.cells_fit(self.places),
            2 => self.contents.replacements_fit(self.places),
            3 => self.contents.taken_fits(self.places),
            _ => true,
        }
    }
}
