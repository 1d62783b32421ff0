// Numbers, and what it is to keep one.
ghost use Rattle.std.specs.Prelude.{ℤ, refl};
ghost use Rattle.std.proofs.Common.{rules};
ghost use Rattle.std.specs.Borrow.{GName};
ghost use Rattle.arrays.specs.Listing.{Any};
ghost use Rattle.arrays.specs.Sink.{Filling, filling, put};
ghost use Rattle.forms.specs.Array.{whole, single};

use crate::{Entry, Sink};
use faults::Fault;
use scanner::Scanner;

// A number, kept in the next place.
#[derive(Clone, Copy, Debug, PartialEq, Eq)]
pub struct Number;

impl<'a> Entry<Sink<'a>> for Number {
    ghost Value = { ℤ };

    ghost is = { λ _. Any };

    ghost form = { λ _. whole };

    ghost print = { single };

    ghost Held = { Filling };

    ghost held = { filling };

    ghost with_one = { put };

    ghost Lenders = { GName };

    ghost lenders = { λ l. l.places.ghost_name };

    ghost fits = { λ _ _. Unit {0} };

    ghost some = { λ _. Prim.search rules };

    ghost element = { λ _. record { clear = λ K. refl; ends = λ K. refl } };

    ghost fits_on = { λ _ _ _ _ _ x. x };

    fn keep(&self, scanner: &mut Scanner<'_>, lists: &mut Sink<'a>) -> Result<(), Fault> {
        let value = scanner.next_number()?;
        lists.keep(value);
        Ok(())
    }
}
