// From the least to the greatest number along one axis. Both ends belong to it, so it is never empty.
ghost use Rattle.std.specs.Int.{int_max, int_min};
ghost use Rattle.std.specs.Prelude.{◌≡◌, ◌≤ℤ◌};

#[derive(Clone, Copy, Debug, PartialEq, Eq)]
pub struct Interval {
    pub low: i32,
    pub high: i32,
    ghost ordered: { low ≤ℤ high },
}

impl Interval {
    // The interval that has one number in it and nothing else.
    pub(crate) fn at(number: i32) -> Interval
        ensures { (result.low ≡ number) × (result.high ≡ number) }
    {
        Interval {
            low: number,
            high: number,
        }
    }

    // Stretched as far as needed to have a number in it.
    pub(crate) fn with(self, number: i32) -> Interval
        ensures { (result.low ≡ int_min self.low number) × (result.high ≡ int_max self.high number) }
    {
        Interval {
            low: self.low.min(number),
            high: self.high.max(number),
        }
    }
}
