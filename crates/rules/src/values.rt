// The rules on the numbers in the tables: coordinates, errors, corners, and that replacements refine.
ghost use Rattle.std.specs.Prelude.{◌≡◌, ℕ, ◌-◌, ◌*◌, ◌/◌, length, MatchBool};
ghost use Rattle.rules.specs.Raw.{cell, lists_of};
ghost use Rattle.rules.specs.Values.{Coordinate, CoordinatesKept, ErrorKept, Numbered, CornersKept, GrowthKept};
ghost use Rattle.std.specs.List.{AllByRecursion};

use crate::lists::{cell_at, row_at};
use crate::{RawTables, Record};
use kinds::Kind;
use std::marker::PhantomData;
use tables::Rule;

// The limits: coordinates lie as far on either side of 0, errors from 0 on.
const MOST_COORDINATE: i32 = 500_000;

const MOST_ERROR: i32 = 100_000;

// Whether a coordinate is in range.
fn in_range(coordinate: i32) -> bool
    ensures { MatchBool result (Coordinate coordinate) (Coordinate coordinate → ⊥) }
{
    (-MOST_COORDINATE..=MOST_COORDINATE).contains(&coordinate)
}

// Whether z is one of the numbers below `count`.
fn is_numbered(count: u128, z: i32) -> bool
    ensures { MatchBool result (Numbered count z) (Numbered count z → ⊥) }
{
    u128::try_from(z).is_ok_and(|n| n < count)
}

// Whether every corner is a vertex.
pub fn all_numbered(count: u128, corners: &[i32]) -> bool
    ensures { MatchBool result (AllByRecursion (Numbered count) corners.now) (AllByRecursion (Numbered count) corners.now → ⊥) }
{
    corners.iter().all(|corner| is_numbered(count, *corner))
}

// The coordinates of each vertex.
#[derive(Clone, Copy, Debug, PartialEq, Eq)]
pub(crate) struct Coordinates<'a>(pub(crate) RawTables<'a>);

impl<'a> Rule for Coordinates<'a> {
    ghost kept = { λ s v. CoordinatesKept (lists_of s.0) v };

    fn holds(&self, place: usize) -> bool {
        let [x, y, z] = row_at(self.0.coordinates, place);
        in_range(x) && in_range(y) && in_range(z)
    }
}

// The error of each replacement.
#[derive(Clone, Copy, Debug, PartialEq, Eq)]
pub(crate) struct Errors<'a>(pub(crate) RawTables<'a>);

impl<'a> Rule for Errors<'a> {
    ghost kept = { λ s n. ErrorKept (lists_of s.0) n };

    fn holds(&self, place: usize) -> bool {
        (0..=MOST_ERROR).contains(&self.0.record(place).error)
    }
}

// The corners of each cell of a kind.
// stays: derived equality would ask that the kind itself can be compared.
#[derive(Clone, Copy)]
pub(crate) struct Corners<'a, K: Kind> {
    pub(crate) kind: PhantomData<K>,
    pub(crate) tables: RawTables<'a>,
}

impl<'a, K: Kind> Rule for Corners<'a, K> {
    ghost kept = { λ s c. CornersKept K.Kind.shape.arity (lists_of s.tables) c };

    fn holds(&self, place: usize) -> bool {
        all_numbered(
            (self.tables.coordinates.len() / 3) as u128,
            cell_at(self.tables.corners, K::CORNERS, place),
        )
    }
}

// How many cells each replacement takes and makes.
#[derive(Clone, Copy, Debug, PartialEq, Eq)]
pub(crate) struct Growth<'a>(pub(crate) RawTables<'a>);

impl<'a> Rule for Growth<'a> {
    ghost kept = { λ s n. GrowthKept (lists_of s.0) n };

    fn holds(&self, place: usize) -> bool {
        let Record { takes, makes, .. } = self.0.record(place);
        0 < takes && takes < makes
    }
}
