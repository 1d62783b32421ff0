// That every cell is sound, as its kind defines it.
ghost use Rattle.std.specs.Prelude.{ℕ};
ghost use Rattle.rules.specs.Raw.{lists_of};
ghost use Rattle.rules.specs.Values.{SoundnessKept};

use crate::RawTables;
use crate::lists::cell_at;
use kinds::Kind;
use std::marker::PhantomData;
use tables::Rule;

// stays: it holds what `Corners` holds, but it is another rule, and a rule is a type; derived equality would ask that the kind can be compared.
#[derive(Clone, Copy)]
pub(crate) struct Soundness<'a, K: Kind> {
    pub(crate) kind: PhantomData<K>,
    pub(crate) tables: RawTables<'a>,
}

impl<'a, K: Kind> Rule for Soundness<'a, K> {
    ghost kept = { λ s c. SoundnessKept K.Kind.shape.sound K.Kind.shape.arity (lists_of s.tables) c };

    fn holds(&self, place: usize) -> bool {
        K::is_sound(
            self.tables.coordinates,
            cell_at(self.tables.corners, K::CORNERS, place),
        )
    }
}
