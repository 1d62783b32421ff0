// Rows of so many numbers each: vertices, and the corners of cells. After a refusal the same holds as for arrays.
ghost use Rattle.std.specs.Prelude.{List, ℤ, refl};
ghost use Rattle.std.proofs.Common.{rules};
ghost use Rattle.std.specs.Borrow.{GName};
ghost use Rattle.arrays.specs.Listing.{Long};
ghost use Rattle.arrays.specs.Sink.{Filling, filling, put_all};
ghost use Rattle.forms.specs.Array.{row, row_tokens};

use crate::entries::separate;
use crate::{Entry, Number, Sink};
use faults::Fault;
use scanner::Scanner;

// An array of `width` numbers, kept in as many places.
#[derive(Clone, Copy, Debug, PartialEq, Eq)]
pub struct Row {
    pub width: usize,
}

impl<'a> Entry<Sink<'a>> for Row {
    ghost Value = { List ℤ };

    ghost is = { λ e. Long e.width };

    ghost form = { λ e. row e.width };

    ghost print = { row_tokens };

    ghost Held = { Filling };

    ghost held = { filling };

    ghost with_one = { put_all };

    ghost Lenders = { GName };

    ghost lenders = { λ l. l.places.ghost_name };

    ghost fits = { λ _ _. Unit {0} };

    ghost some = { λ _. Prim.search rules };

    ghost element = { λ e. record { clear = λ K. refl; ends = λ K. refl } };

    ghost fits_on = { λ _ _ _ _ _ x. x };

    fn keep(&self, scanner: &mut Scanner<'_>, lists: &mut Sink<'a>) -> Result<(), Fault> {
        scanner.pass(b'[')?;
        // stays: the index says whether a comma comes first.
        for i in 0..self.width {
            separate(scanner, i)?;
            Number.keep(scanner, lists)?;
        }
        scanner.pass(b']')
    }
}
