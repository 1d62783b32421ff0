// A lent list that is filled from its first place on: its places, and how many of them are used. What comes when every place is
// used is not kept.
ghost use Rattle.std.specs.Prelude.{◌≡◌};
ghost use Rattle.arrays.specs.Sink.{filling, lent, put};

// stays: the places that are left, as an iterator or as a slice that shrinks, were tried, and no proof closed: only the list's length is known afterwards.
#[derive(Drop)]
pub struct Sink<'a> {
    pub places: &'a mut [i32],
    pub used: usize,
}

impl<'a> Sink<'a> {
    // A lent list of which no place is used.
    pub fn over(places: &'a mut [i32]) -> Sink<'a>
        ensures lender { result.places.ghost_name ≡ places.entry.ghost_name }
        ensures unused { filling result ≡ lent places.old 0 }
    {
        Sink { places, used: 0 }
    }

    // The next place holds the value, where there is one. It is still the same lent list.
    pub fn keep(&mut self, value: i32)
        ensures lender { self.new.places.ghost_name ≡ self.old.places.ghost_name }
        ensures kept { filling self.new ≡ put value (filling self.old) }
    {
        if self.used < self.places.len() {
            self.places[self.used] = value;
            self.used += 1;
        }
    }
}
