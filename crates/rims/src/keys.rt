// Noting facets by their keys, and comparing the keys of the two signs.
ghost use Rattle.std.specs.Prelude.{◌≡◌, ◌+◌, ◌<◌, [], ◌∷◌, vec_items, MatchBool};
ghost use Rattle.rims.specs.Keys.{held, Noted, SameNumbers};

use crate::RimMemory;
use kinds::{Kind, Signed};
use std::mem::swap;

impl RimMemory {
    // Forgets all keys.
    pub(crate) fn clear(&mut self)
        ensures { (vec_items self.new.plus ≡ []) × (vec_items self.new.minus ≡ []) × (held self.new ≡ 0) × (self.new.room ≡ self.old.room) }
    {
        self.plus.clear();
        self.minus.clear();
    }

    // Counts plus what it counted minus, and the other way round.
    pub(crate) fn turn(&mut self)
        ensures { (self.new.plus ≡ self.old.minus) × (self.new.minus ≡ self.old.plus) × (self.new.room ≡ self.old.room) }
    {
        swap(&mut self.plus, &mut self.minus);
    }

    // Notes a facet.
    pub(crate) fn note<K: Kind>(&mut self, facet: Signed<K::Facet>)
        requires { held self.old < self.old.room }
        ensures noted { Noted K.Kind.key K.Kind.real self.old self.new (facet ∷ []) }
        ensures count { held self.new ≡ held self.old + 1 }
    {
        match facet {
            Signed::Plus(facet) => self.plus.push_reserved(K::sort_key(facet)),
            Signed::Minus(facet) => self.minus.push_reserved(K::sort_key(facet)),
        }
    }

    // Whether the keys of both signs are the same, each as often. It sorts them.
    pub(crate) fn is_balanced(&mut self) -> bool
        ensures same { MatchBool result (SameNumbers (vec_items self.old.plus) (vec_items self.old.minus)) (SameNumbers (vec_items self.old.plus) (vec_items self.old.minus) → ⊥) }
        ensures room { self.new.room ≡ self.old.room }
    {
        self.plus.sort_unstable();
        self.minus.sort_unstable();
        self.plus.as_slice() == self.minus.as_slice()
    }
}
