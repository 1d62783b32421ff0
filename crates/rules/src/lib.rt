// The rules of raw tables that need no memory to judge: the counts, and then those of vertices, of cells and of replacements, up to that
// a replacement takes earlier cells only. They are judged in rising order, each over its whole table, and the first that is broken is told, at the lowest place.
// No call allocates.
#![tactic(auto)]

ghost use Rattle.rules.specs.Hierarchies.{PlainJudged};
ghost use Rattle.rules.specs.Raw.{lists_of};
ghost use Rattle.rules.specs.Rows.{value_rows, Judged, JudgedOnce, PlacedJudgedOnce};
ghost use Rattle.tables.specs.Judging.{Outcome};

use counts::Counts;
use earlier::judge_earlier;
use faults::{Fault, Refusal};
use kinds::Kind;
use soundness::Soundness;
use std::marker::PhantomData;
use tables::{Places, judge};
use values::{Coordinates, Corners, Errors, Growth};

mod counts;
mod earlier;
mod lists;
mod raw;
mod record;
mod soundness;
mod values;

pub use lists::{cell_at, stretch};
pub use raw::RawTables;
pub use record::{Record, Records};
pub use values::all_numbered;

// Judges all but the counts of raw tables.
fn judge_values<K: Kind>(tables: RawTables<'_>) -> Result<(), Fault>
    ensures { Outcome (value_rows K.Kind.shape.arity K.Kind.shape.sound (lists_of tables.entry)) result }
{
    let vertices = tables.coordinates.len() / 3;
    let cells = tables.corners.len() / K::CORNERS;
    let past = tables.replacements.len() / 3 + 1;
    let kind = PhantomData::<K>;
    judge(
        &Coordinates(tables),
        Refusal::CoordinateOffRange,
        0,
        vertices,
    )?;
    judge(&Errors(tables), Refusal::ErrorOffRange, 1, past)?;
    judge(&Corners { kind, tables }, Refusal::NoSuchVertex, 0, cells)?;
    judge(&Soundness { kind, tables }, Refusal::CellNotSound, 0, cells)?;
    judge(&Growth(tables), Refusal::NoRefinement, 1, past)?;
    judge_earlier(tables)
}

// Judges the counts, coordinates, errors, corners, soundness and growth of raw tables of a kind of cell, and that replacements take
// earlier cells only.
pub fn judge_tables<K: Kind>(tables: RawTables<'_>) -> Result<(), Fault>
    ensures { Judged K.Kind.shape.arity K.Kind.shape.sound (lists_of tables.entry) result }
{
    judge_placed_tables::<K>(tables, tables.own_places())
}

// Judges raw tables in the same way, and that there are places for their entries, so many for each table.
pub fn judge_placed_tables<K: Kind>(tables: RawTables<'_>, places: Places) -> Result<(), Fault>
    ensures { PlainJudged K.Kind.shape (lists_of tables.entry) places result }
{
    let counts = Counts::<K> {
        kind: PhantomData,
        tables,
        places,
    };
    judge(&counts, Refusal::CountOffLimits, 0, 4)?;
    judge_values::<K>(tables)
}

// Judging comes to one thing only, for any number of corners and any soundness, with places of the tables' own and with given ones.
pub fn tables_are_judged_once()
    ensures own { JudgedOnce }
    ensures placed { PlacedJudgedOnce }
{}
