// The replacements of a hierarchy line.
ghost use Rattle.std.specs.Prelude.{◌≡◌, ◌+◌, ◌≤◌, length, pos, refl};
ghost use Rattle.arrays.specs.Sink.{filling, put};
ghost use Rattle.hierarchypass.specs.Line.{Replacement as Said, replacement, replacement_tokens, Made};
ghost use Rattle.hierarchypass.specs.Passing.{Growth, growth, with_replacement};
ghost use Rattle.hierarchypass.specs.Growing.{Names, grown, growth_lenders};
ghost use Rattle.hierarchypass.specs.Fitting.{some_tokens, Fits, fits_later};
ghost use Rattle.scanner.specs.Scanner.{text};

use arrays::{Entry, Number, Row, Sink, keep_list};
use faults::Fault;
use scanner::Scanner;

// How many cells the replacements take and make.
#[derive(Clone, Copy, Debug, PartialEq, Eq)]
pub(crate) struct Totals {
    pub(crate) takes: usize,
    pub(crate) makes: usize,
}

// The lists that grow with each replacement, and the totals of those that were read. Each reference has lifetimes of its own: only
// so a proof knows, when the struct is gone, what the caller's list holds.
#[derive(Drop)]
pub(crate) struct Growing<'c, 'r, 't, 'x, 'y, 'z> {
    pub(crate) corners: &'c mut Sink<'x>,
    pub(crate) replacements: &'r mut Sink<'y>,
    pub(crate) taken: &'t mut Sink<'z>,
    pub(crate) totals: Totals,
}

impl Growing<'_, '_, '_, '_, '_, '_> {
    // Keeps the counts of a replacement's record, which follow its error, and adds them to the totals.
    fn count(&mut self, takes: usize, makes: usize)
        requires few_taken { takes ≤ 65536 }
        requires few_made { makes ≤ 65536 }
        requires few { self.old.totals.takes + self.old.totals.makes ≤ 65536 }
        ensures lender { growth_lenders self.new ≡ growth_lenders self.old }
        ensures kept { grown self.new ≡ growth (filling self.old.corners.now) (put (pos makes) (put (pos takes) (filling self.old.replacements.now))) (filling self.old.taken.now) (self.old.totals.takes + takes) (self.old.totals.makes + makes) }
    {
        self.replacements.keep(takes as i32);
        self.replacements.keep(makes as i32);
        self.totals.takes += takes;
        self.totals.makes += makes;
    }
}

// A replacement with cells of `width` corners: its made cells, its record and its taken numbers are kept.
#[derive(Clone, Copy, Debug, PartialEq, Eq)]
pub(crate) struct Replacement {
    pub(crate) width: usize,
}

impl<'c, 'r, 't, 'x, 'y, 'z> Entry<Growing<'c, 'r, 't, 'x, 'y, 'z>> for Replacement {
    ghost Value = { Said };

    ghost is = { λ e. Made e.width };

    ghost form = { λ e. replacement e.width };

    ghost print = { replacement_tokens };

    ghost Held = { Growth };

    ghost held = { grown };

    ghost with_one = { with_replacement };

    ghost Lenders = { Names };

    ghost lenders = { growth_lenders };

    ghost fits = { Fits };

    ghost some = { some_tokens };

    ghost element = { λ e. record { clear = λ K. refl; ends = λ K. refl } };

    ghost fits_on = { fits_later };

    fn keep(
        &self,
        scanner: &mut Scanner<'_>,
        lists: &mut Growing<'c, 'r, 't, 'x, 'y, 'z>,
    ) -> Result<(), Fault> {
        scanner.pass(b'[')?;
        Number.keep(scanner, lists.replacements)?;
        scanner.pass(b',')?;
        let takes = keep_list(scanner, &Number, lists.taken)?;
        scanner.pass(b',')?;
        let cell = Row { width: self.width };
        let makes = keep_list(scanner, &cell, lists.corners)?;
        scanner.pass(b']')?;
        lists.count(takes, makes);
        Ok(())
    }
}
