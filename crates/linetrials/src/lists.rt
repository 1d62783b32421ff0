// The lists that the trials are read into. Before each trial every place is set to a number that no line can say.
use std::alloc::{AllocError, Global};
use std::fmt;

const LONGEST: usize = 65_536;

const LONGEST_SHOWN: usize = 24;

const UNSAID: i32 = 1_500_000_000;

// A list of many places.
#[derive(Drop)]
pub struct Numbers {
    places: Vec<i32>,
}

// A list for each table of a hierarchy; the values of an order are read into the first.
#[derive(Drop)]
pub struct Lists {
    pub coordinates: Numbers,
    pub corners: Numbers,
    pub replacements: Numbers,
    pub taken: Numbers,
}

// A hash of numbers that a line can say.
fn hash(values: &[i32]) -> u64 {
    values.iter().fold(0, |h: u64, v| {
        let shifted = (*v as i64).saturating_add(1_000_000_000).max(0) as u64;
        h.wrapping_mul(31).wrapping_add(shifted) % 4_294_967_296
    })
}

// The first values of a list, and the places after them, which had to stay; None where there are no such places.
#[derive(Clone, Copy, Debug, PartialEq, Eq)]
pub struct Shown<'a> {
    values: Option<&'a [i32]>,
    rest: Option<&'a [i32]>,
}

impl fmt::Display for Shown<'_> {
    fn fmt<W: fmt::Write>(&self, f: &mut fmt::Formatter<W>) -> fmt::Result {
        match self.values {
            Some(values) => if values.len() > LONGEST_SHOWN {
                let h = hash(values);
                write!(f, " #{h}")?;
            } else {
                f.write_str(" :")?;
                for value in values {
                    write!(f, " {value}")?;
                }
            },
            None => f.write_str(" NO PLACES")?,
        }
        let rest = Untouched(self.rest);
        write!(f, "{rest}")
    }
}

// Places that had to stay as they were: nothing is said where they did.
#[derive(Clone, Copy, Debug, PartialEq, Eq)]
pub struct Untouched<'a>(Option<&'a [i32]>);

impl fmt::Display for Untouched<'_> {
    fn fmt<W: fmt::Write>(&self, f: &mut fmt::Formatter<W>) -> fmt::Result {
        match self.0 {
            Some(values) => if values.iter().all(|v| *v == UNSAID) {
                Ok(())
            } else {
                f.write_str(" DISTURBED")
            },
            None => f.write_str(" NO PLACES"),
        }
    }
}

impl Numbers {
    fn new(heap: Global) -> Result<Numbers, AllocError> {
        let places = vec![in heap; UNSAID; LONGEST]?;
        Ok(Numbers { places })
    }

    // The first places, to be read into, each as no line leaves it.
    pub fn lend(&mut self, places: usize) -> &mut [i32] {
        let end = places.min(self.places.len());
        let lent = &mut self.places[0..end];
        lent.fill(UNSAID);
        lent
    }

    // The first values, and that the places after them stayed.
    pub fn show(&self, count: usize, places: usize) -> Shown<'_> {
        Shown {
            values: self.places.get(0..count),
            rest: self.places.get(count..places),
        }
    }

    // That all places stayed.
    pub fn untouched(&self, places: usize) -> Untouched<'_> {
        Untouched(self.places.get(0..places))
    }
}

impl Lists {
    pub fn new(heap: Global) -> Result<Lists, AllocError> {
        Ok(Lists {
            coordinates: Numbers::new(heap)?,
            corners: Numbers::new(heap)?,
            replacements: Numbers::new(heap)?,
            taken: Numbers::new(heap)?,
        })
    }
}
