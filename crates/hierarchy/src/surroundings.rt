// The box of a replacement.
ghost use Rattle.std.specs.Prelude.{◌≡◌, ◌+◌, ◌*◌, ◌≤◌, length, take, drop};
ghost use Rattle.boxes.specs.Spots.{Smallest, Spotted};

use boxes::{Extent, box_around};
use kinds::Kind;
use owners::Part;
use rules::{RawTables, stretch};

// The corners of the cells that a replacement makes.
fn made_corners<K: Kind>(corners: &[i32], part: Part) -> &[i32]
    requires { K.Kind.shape.arity * (part.first + part.makes) ≤ length corners.now }
    ensures { result.now ≡ take (K.Kind.shape.arity * part.makes) (drop (K.Kind.shape.arity * part.first) corners.now) }
{
    let first = K::CORNERS as u128 * part.first as u128;
    stretch(corners, first, K::CORNERS * part.makes as usize)
}

// The smallest box around the corners of the cells that a replacement makes.
pub(crate) fn box_of<K: Kind>(tables: RawTables<'_>, part: Part) -> Extent
    requires whole { K.Kind.shape.arity * (part.first + part.makes) ≤ length tables.corners.now }
    requires spotted { Spotted tables.coordinates.now (take (K.Kind.shape.arity * part.makes) (drop (K.Kind.shape.arity * part.first) tables.corners.now)) }
    ensures { Smallest tables.entry.coordinates.now (take (K.Kind.shape.arity * part.makes) (drop (K.Kind.shape.arity * part.first) tables.entry.corners.now)) result }
{
    box_around(tables.coordinates, made_corners::<K>(tables.corners, part)).unwrap()
}
