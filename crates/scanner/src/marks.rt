// Marks and white space: what comes next, and reading past it.
ghost use Rattle.std.specs.Prelude.{◌≡◌, ℕ, ◌<◌, ◌≤◌, length, drop, Some, MatchBool, MatchOption, MatchResult, ◌≢◌};
ghost use Rattle.faults.specs.declared.Refusal.TheVariants.{NotOfForm};
ghost use Rattle.forms.specs.Array.{sign};
ghost use Rattle.forms.specs.Progress.{BlankNext};
ghost use Rattle.scanner.specs.Scanner.{text, next_byte, Skipped, Passed, Missed};

use crate::Scanner;
use faults::{Fault, Refusal};

impl Scanner<'_> {
    // The byte that comes next.
    pub(crate) fn peek(&self) -> Option<u8>
        ensures value { result ≡ next_byte self.now }
        ensures within { MatchOption result (length (text self.now) ≤ self.now.at) (λ _. self.now.at < length (text self.now)) }
    {
        self.bytes.get(self.at).copied()
    }

    // The fault of a line that does not go on so.
    pub(crate) fn wrong(&self) -> Fault
        ensures { (result.refusal ≡ NotOfForm) × (result.place ≡ self.now.at) }
    {
        Refusal::NotOfForm.at(self.at)
    }

    // Whether this byte comes next.
    pub fn sees(&self, mark: u8) -> bool
        ensures { MatchBool result ((self.now.at < length (text self.now)) × (next_byte self.now ≡ Some mark)) (next_byte self.now ≢ Some mark) }
    {
        self.peek() == Some(mark)
    }

    // Whether white space comes next.
    fn blank(&self) -> bool
        ensures { MatchBool result (self.now.at < length (text self.now) × BlankNext (drop self.now.at (text self.now))) (BlankNext (drop self.now.at (text self.now)) → ⊥) }
    {
        matches!(self.peek(), Some(b' ' | b'\t' | b'\r'))
    }

    // Reads past white space.
    pub(crate) fn skip_blanks(&mut self)
        ensures { Skipped self.old self.new }
    {
        // stays: how far the line is read is the place that refusals tell.
        while self.blank() {
            self.at += 1;
        }
    }

    // Reads a mark, and the white space after it.
    pub fn pass(&mut self, mark: u8) -> Result<(), Fault>
        ensures { MatchResult result (λ _. Passed self.old self.new mark) (λ f. Missed self.old (sign mark) f) }
    {
        if !self.sees(mark) {
            return Err(self.wrong());
        }
        self.at += 1;
        self.skip_blanks();
        Ok(())
    }
}
