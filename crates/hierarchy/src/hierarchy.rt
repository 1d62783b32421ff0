// An accepted hierarchy: the lent tables and what is worked out from them. Only the check makes one.
ghost use Rattle.std.specs.Prelude.{◌≡◌, ◌≤◌, vec_items, vec_len};
ghost use Rattle.hierarchy.specs.Derived.{Boxes, boxes_in, Ordered, ranges_in};
ghost use Rattle.owners.specs.Owners.{Makers, makers_in, Takers, takers_in, parts_of};
ghost use Rattle.rules.specs.Rows.{cells_in, replacements_in};
ghost use Rattle.rules.specs.Raw.{lists_of};

use crate::Replacement;
use kinds::Kind;
use owners::Owners;
use rules::RawTables;
use std::marker::PhantomData;

pub(crate) mod accept;
mod reads;

#[derive(Drop)]
pub struct Hierarchy<'a, K: Kind> {
    kind: PhantomData<K>,
    tables: RawTables<'a>,
    // the maker and the taker of each cell, the ranges and the box of each replacement
    owners: Vec<Owners>,
    replacements: Vec<Replacement>,
    ghost few: { (vec_len owners ≤ 16384) × (vec_len replacements ≤ 4096) },
    ghost counted: { (vec_len owners ≡ cells_in K.Kind.shape.arity (lists_of tables)) × (vec_len replacements ≡ replacements_in (lists_of tables)) },
    ghost made: { ∥ Makers (lists_of tables) (makers_in (vec_items owners)) ∥₁ },
    ghost taken: { ∥ Takers (lists_of tables) (takers_in (vec_items owners)) ∥₁ },
    ghost ranged: { ∥ ranges_in (vec_items replacements) ≡ parts_of (lists_of tables) ∥₁ },
    ghost boxed: { ∥ Boxes K.Kind.shape.arity (lists_of tables) (boxes_in (vec_items replacements)) ∥₁ },
    ghost ordered: { ∥ Ordered K.Kind.shape.arity (lists_of tables) ∥₁ },
}
