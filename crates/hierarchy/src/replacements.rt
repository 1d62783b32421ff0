// What is worked out of each replacement.
ghost use Rattle.std.specs.Prelude.{◌≡◌};
ghost use Rattle.hierarchy.specs.Derived.{Boxes, boxes_in, BoxesReady, ranges_in};
ghost use Rattle.owners.specs.Owners.{parts_of};
ghost use Rattle.rules.specs.Raw.{lists_of};

use crate::Replacement;
use crate::surroundings::box_of;
use kinds::Kind;
use owners::{Blank, Ranged};

// Lists the ranges and the box of each replacement, from the first to the last.
pub(crate) fn list_replacements<K: Kind>(
    ranged: &Ranged<'_>,
    blank: Blank<Replacement, 4096>,
) -> Vec<Replacement>
    requires { BoxesReady K.Kind.shape.arity (lists_of ranged.now.tables) }
    ensures ranges { ranges_in result.items ≡ parts_of (lists_of ranged.now.tables) }
    ensures boxes { Boxes K.Kind.shape.arity (lists_of ranged.now.tables) (boxes_in result.items) }
{
    let Blank {
        items: mut replacements,
    } = blank;
    for (_, ranges) in ranged.parts() {
        let around = box_of::<K>(ranged.tables, ranges);
        replacements.push_reserved(Replacement { ranges, around });
    }
    replacements
}
