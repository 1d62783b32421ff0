// Arrays of none or more entries, whatever an entry is. After a refusal nothing is promised of the scanner, which is not to be used
// again, nor of what the lists hold: they are still the same lent lists.
ghost use Rattle.std.specs.Prelude.{◌≡◌, ◌<◌, ◌≤◌, List, length, IfOk, MatchBool, MatchResult};
ghost use Rattle.arrays.specs.Listing.{Comes, Ended, Separated, NotSeparated, Kept, Several};
ghost use Rattle.arrays.specs.Sink.{puts};
ghost use Rattle.forms.specs.Array.{array, listed};
ghost use Rattle.forms.specs.Form.{Form, Token};
ghost use Rattle.forms.specs.Progress.{Element};
ghost use Rattle.scanner.specs.Scanner.{Lost, text};
ghost use Rattle.scanner.specs.declared.Scanner.{Scanner as Reading};

use faults::Fault;
use scanner::Scanner;

// What stands in an array and is kept in lists of the type L.
pub trait Entry<L> {
    // What an entry says, the form that says it, and what is printed for it.
    ghost Value: { Type 0 };

    ghost is: { Self → Value → Type 0 };

    ghost form: { Self → Form };

    ghost print: { Value → List Token };

    // What the lists hold, and what they hold with one entry more.
    ghost Held: { Type 0 };

    ghost held: { L → Held };

    ghost with_one: { Value → Held → Held };

    // Which lent lists they are.
    ghost Lenders: { Type 0 };

    ghost lenders: { L → Lenders };

    // That one more entry can be kept where the scanner is.
    ghost fits: { Reading → L → Type 0 };

    // Reads an entry, and keeps it.
    fn keep(&self, scanner: &mut Scanner<'_>, lists: &mut L) -> Result<(), Fault>
        requires { fits scanner.old lists.old }
        ensures lender { lenders lists.new ≡ lenders lists.old }
        ensures room { IfOk result (λ _. fits scanner.new lists.new) }
        ensures reads { MatchResult result (λ _. Kept (is self.now) print with_one (form self.now) scanner.old scanner.new (held lists.old) (held lists.new)) (λ f. Lost scanner.old (form self.now) f) };

    // An entry is not empty, its form can be that of an entry, and what fits still fits when the scanner has read on.
    ghost some: { (v : Value) → 0 < length (print v) };

    ghost element: { (x : Self) → Element (form x) };

    ghost fits_on: { (r s : Reading) (l : L) → text s ≡ text r → r.at ≤ s.at → fits r l → fits s l };
}

// Whether another entry of an array comes, after so many.
#[tactic(auto, using(crate::proofs::Lists::first_comes, crate::proofs::Lists::first_ended, crate::proofs::Lists::next_comes, crate::proofs::Lists::next_ended))]
fn another(scanner: &Scanner<'_>, count: usize) -> bool
    ensures { MatchBool result (Comes scanner.now count) (Ended scanner.now count) }
{
    // stays: the first entry has no comma before it, here and in the next call.
    if count == 0 {
        return !scanner.sees(b']');
    }
    scanner.sees(b',')
}

// Reads the comma before an entry, unless none came before.
#[tactic(auto, using(crate::proofs::Lists::no_comma, crate::proofs::Lists::comma_or_not))]
pub(crate) fn separate(scanner: &mut Scanner<'_>, before: usize) -> Result<(), Fault>
    ensures { MatchResult result (λ _. Separated scanner.old scanner.new before) (NotSeparated scanner.old before) }
{
    if before == 0 {
        return Ok(());
    }
    scanner.pass(b',')
}

// Reads an array of entries, keeps them, and answers how many they are.
pub fn keep_list<L, E: Entry<L>>(
    scanner: &mut Scanner<'_>,
    entry: &E,
    lists: &mut L,
) -> Result<usize, Fault>
    requires { E.fits scanner.old lists.old }
    ensures lender { E.lenders lists.new ≡ E.lenders lists.old }
    ensures reads { MatchResult result (λ n. Kept (Several (E.is entry.now) n) (array E.print) (puts E.with_one) (listed (E.form entry.now)) scanner.old scanner.new (E.held lists.old) (E.held lists.new)) (λ f. Lost scanner.old (listed (E.form entry.now)) f) }
{
    scanner.pass(b'[')?;
    // stays: how many entries came is what is answered, and it says whether a comma comes before the next.
    let mut count = 0;
    while another(scanner, count) {
        separate(scanner, count)?;
        entry.keep(scanner, lists)?;
        count += 1;
    }
    scanner.pass(b']')?;
    Ok(count)
}
