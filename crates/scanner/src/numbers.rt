// Integers, read to their last byte. A magnitude of a milliard and more is cut to a milliard, so that it fits and is still beyond
// the range.
ghost use Rattle.std.specs.Prelude.{◌≡◌, ℕ, ◌+◌, ◌*◌, ◌<◌, ◌≤◌, min, [], ◌∷◌, length, ℤ, Some, MatchBool, MatchOption, MatchResult, OnOk, ◌≢◌};
ghost use Rattle.faults.specs.declared.Refusal.TheVariants.{NotOfForm};
ghost use Rattle.forms.specs.Array.{whole, single};
ghost use Rattle.forms.specs.Form.{number, nothing};
ghost use Rattle.forms.specs.Progress.{NoDigit, DigitsRead};
ghost use Rattle.forms.specs.Range.{beyond, far as far_place, earlier};
ghost use Rattle.scanner.specs.Scanner.{text, next_byte, Numbered, Step, Missed, Lost};

use crate::Scanner;
use faults::Fault;

// The greatest magnitude of a number.
const GREATEST: i32 = 999_999_999;

// One more, to which a greater one is cut.
const BEYOND: u64 = 1_000_000_000;

// Whether a number lies beyond the range.
fn is_beyond(value: i32) -> bool
    ensures { result ≡ beyond value }
{
    !(-GREATEST..=GREATEST).contains(&value)
}

// Whether more digits may follow a first digit: after a zero none may.
fn leads(first: u8) -> bool
    ensures { MatchBool result (first ≢ 0) (first ≡ 0) }
{
    first != 0
}

// A magnitude with one digit more, cut to `BEYOND` where it is greater.
fn with_digit(amount: u64, digit: u8) -> u64
    requires few { amount ≤ 1000000000 }
    requires one { digit < 10 }
    ensures { result ≡ min (amount * 10 + digit) 1000000000 }
{
    (amount * 10 + digit as u64).min(BEYOND)
}

impl Scanner<'_> {
    // The digit that comes next, as a number.
    fn digit(&self) -> Option<u8>
        ensures { MatchOption result (NoDigit (next_byte self.now)) (λ d. (d < 10) × (self.now.at < length (text self.now)) × (next_byte self.now ≡ Some (48 + d))) }
    {
        match self.peek() {
            Some(b @ b'0'..=b'9') => Some(b - b'0'),
            _ => None,
        }
    }

    // The magnitude of an integer, cut to `BEYOND` where it is greater: a zero alone, or all digits that come.
    fn digits(&mut self) -> Result<u64, Fault>
        ensures same { (text self.new ≡ text self.old) × (self.new.far ≡ self.old.far) }
        ensures on { OnOk result ((self.old.at < self.new.at) × (self.new.at ≤ length (text self.old))) }
        ensures reads { MatchResult result (λ m. DigitsRead (text self.old) self.old.at self.new.at m 1000000000) (λ f. (f.refusal ≡ NotOfForm) × (f.place ≡ self.old.at) × NoDigit (next_byte self.old)) }
    {
        let Some(first) = self.digit() else {
            return Err(self.wrong());
        };
        self.at += 1;
        if !leads(first) {
            return Ok(0);
        }
        let mut amount = first as u64;
        // stays: how far the line is read is the place that refusals tell.
        while let Some(d) = self.digit() {
            amount = with_digit(amount, d);
            self.at += 1;
        }
        Ok(amount)
    }

    // An integer, cut where it is beyond the range.
    fn integer(&mut self) -> Result<i32, Fault>
        ensures { MatchResult result (λ v. Numbered self.old self.new v) (λ f. Missed self.old number f) }
    {
        if self.sees(b'-') {
            self.at += 1;
            let amount = self.digits()?;
            Ok(-(amount as i32))
        } else {
            let amount = self.digits()?;
            Ok(amount as i32)
        }
    }

    // Keeps in mind where the first number beyond the range stands.
    fn note(&mut self, place: usize, value: i32)
        ensures same { (text self.new ≡ text self.old) × (self.new.at ≡ self.old.at) }
        ensures far { self.new.far ≡ earlier self.old.far (far_place place value) }
    {
        if self.far.is_none() && is_beyond(value) {
            self.far = Some(place);
        }
    }

    // Reads a number, and the white space after it.
    pub fn next_number(&mut self) -> Result<i32, Fault>
        ensures { MatchResult result (λ v. Step self.old self.new whole nothing (single v)) (λ f. Lost self.old whole f) }
    {
        let place = self.at;
        let value = self.integer()?;
        self.note(place, value);
        self.skip_blanks();
        Ok(value)
    }
}
