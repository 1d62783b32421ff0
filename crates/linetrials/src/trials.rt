// The trials as they stand in the input: a header of words and numbers, and then the bytes of the line in three parts. Every byte that is
// left begins a trial, which ends with the input at the latest: a number that is missing is 0, and a part that is cut off ends there.
ghost use Rattle.std.specs.Prelude.{◌<◌, ◌≤◌, length, MatchOption};
ghost use Rattle.std.specs.Iterator.{at_most};

use std::alloc::AllocError;
use tables::Places;

// What a line is read as, and how many places there are for what it says.
#[derive(Clone, Copy, Debug, PartialEq, Eq)]
pub enum Reading {
    Order { places: usize },
    Hierarchy { places: Places },
}

// A line in parts, of which the middle comes so many times, and how it is read.
#[derive(Clone, Copy, Debug, PartialEq, Eq)]
pub struct Trial<'a> {
    pub reading: Reading,
    head: &'a [u8],
    times: usize,
    middle: &'a [u8],
    tail: &'a [u8],
}

impl Trial<'_> {
    // Puts the line together.
    pub fn write_line(&self, line: &mut Vec<u8>) -> Result<(), AllocError> {
        line.clear();
        line.extend_from_slice(self.head)?;
        for _ in 0..self.times {
            line.extend_from_slice(self.middle)?;
        }
        line.extend_from_slice(self.tail)
    }
}

// The input that is left.
#[derive(Drop)]
pub struct Trials<'a>(pub &'a [u8]);

impl<'a> Trials<'a> {
    // The next byte, which is then read; None at the end of the input.
    fn byte(&mut self) -> Option<u8>
        ensures { MatchOption result (length self.new.0.now ≤ length self.old.0.now) (λ _. length self.new.0.now < length self.old.0.now) }
    {
        let [first, rest @ ..] = self.0 else {
            return None;
        };
        self.0 = rest;
        Some(*first)
    }

    // The bytes up to the first that ends them, which is read as well, or so many where none of these does.
    fn until<F: Fn(&u8) -> bool>(&mut self, most: usize, ends: F) -> &'a [u8]
        requires { F.IsAlwaysCallable ends }
        ensures { length self.new.0.now ≤ length self.old.0.now }
    {
        let most = most.min(self.0.len());
        let (part, rest) = self.0.split_at(most);
        match part.iter().position(ends) {
            Some(end) => {
                self.0 = &self.0[end + 1..];
                &part[..end]
            }
            None => {
                self.0 = rest;
                part
            }
        }
    }

    // A number of at most twenty digits, and the byte after it, where it has fewer.
    fn number(&mut self) -> usize
        ensures { length self.new.0.now ≤ length self.old.0.now }
    {
        let digits = self.until(20, |b| !b.is_ascii_digit());
        digits.iter().fold(0, |value: usize, digit| {
            value
                .saturating_mul(10)
                .saturating_add(digit.saturating_sub(b'0') as usize)
        })
    }

    // So many bytes, as far as there are.
    fn bytes(&mut self, count: usize) -> &'a [u8]
        ensures { length self.new.0.now ≤ length self.old.0.now }
    {
        let (part, rest) = self.0.split_at(count.min(self.0.len()));
        self.0 = rest;
        part
    }

    // How many places there are for a hierarchy.
    fn places(&mut self) -> Places
        ensures { length self.new.0.now ≤ length self.old.0.now }
    {
        Places {
            coordinates: self.number(),
            corners: self.number(),
            replacements: self.number(),
            taken: self.number(),
        }
    }

    // The words at the head of a trial: one that begins with an o is that of an order.
    fn reading(&mut self) -> Option<Reading>
        ensures { MatchOption result (length self.new.0.now ≤ length self.old.0.now) (λ _. length self.new.0.now < length self.old.0.now) }
    {
        let first = self.byte()?;
        // the rest of the word, of which no more than sixteen bytes are read
        self.until(16, |b| *b == b' ');
        if first == b'o' {
            return Some(Reading::Order {
                places: self.number(),
            });
        }
        Some(Reading::Hierarchy {
            places: self.places(),
        })
    }
}

impl<'a> Iterator for Trials<'a> {
    type Item = Trial<'a>;

    ghost remaining = { λ s. at_most (length s.0.now) };

    fn next(&mut self) -> Option<Trial<'a>> {
        let reading = self.reading()?;
        let head = self.number();
        let times = self.number();
        let middle = self.number();
        let tail = self.number();
        let trial = Trial {
            reading,
            head: self.bytes(head),
            times,
            middle: self.bytes(middle),
            tail: self.bytes(tail),
        };
        self.bytes(1);
        Some(trial)
    }
}
