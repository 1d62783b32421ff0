// What a kind of cell is: definitions that each kind gives, laws that these keep, and calls that answer as the definitions say.
ghost use Rattle.std.specs.Prelude.{◌≡◌, ℕ, ◌<◌, Bool, true, List, length, ℤ, pos, if◌then◌else◌};
ghost use Rattle.kinds.specs.Facets.{total, Off, AllReal};
ghost use Rattle.kinds.specs.Numbers.{AllFit};
ghost use Rattle.kinds.specs.Shapes.{Shape};
ghost use Rattle.std.specs.List.{slice_get};

// A facet of a cell, which the cell counts plus or minus.
#[derive(Clone, Copy, Debug, PartialEq, Eq)]
pub enum Signed<F> {
    Plus(F),
    Minus(F),
}

pub trait Kind {
    // how many corners a cell has
    const CORNERS: usize;

    ghost CORNERS: { ℕ };

    // a facet of a cell, and what a cell may cover
    type Facet: Copy;

    type Point;

    // how many corners a cell has, what its facets are, when it is sound and what it covers, and which facets are the same
    ghost shape: { Shape Self.Facet Self.Point };

    // what a facet counts at a point, whichever cell has it
    ghost weight: { List ℤ → Self.Point → Self.Facet → ℤ };

    // the facets that have a key, and the key, a number by which they are sorted
    ghost real: { Self.Facet → Bool };

    ghost key: { Self.Facet → ℕ };

    // Whether the cell is sound.
    fn is_sound(vertices: &[i32], cell: &[i32]) -> bool
        ensures { result ≡ shape.sound vertices.now cell.now };

    // The facet at a place of the cell's rim; None past its end.
    // stays: a type of facets to loop over would take an associated type, a word and two functions of each kind in place of this one.
    fn facet(cell: &[i32], i: usize) -> Option<Signed<Self::Facet>>
        ensures { result ≡ slice_get (shape.rim cell.now) i };

    // The number by which the facet is sorted. Any facet that is held has a key.
    // stays: facets that are sorted by `Ord` would make the memory of a check a type for each kind, and its caller name the kind.
    fn sort_key(f: Self::Facet) -> u64
        ensures value { result ≡ key f }
        ensures known { real f ≡ true };

    // Whether the facets are the same.
    // stays: each kind gives it, by the equality of its facets, since the word that it answers is the kind's.
    fn same(a: Self::Facet, b: Self::Facet) -> bool
        ensures { result ≡ shape.alike a b };

    // the constant is the number of corners
    ghost sized: { CORNERS ≡ shape.arity };

    // a cell has corners
    ghost some: { 0 < shape.arity };

    // a sound cell has the kind's number of corners
    ghost cornered: { (vs cell : List ℤ) → shape.sound vs cell ≡ true → length cell ≡ shape.arity };

    // a cell that has the kind's number of corners has as many facets
    ghost sided: { (cell : List ℤ) → length cell ≡ shape.arity → length (shape.rim cell) ≡ shape.arity };

    // for a sound cell and a point off its facets, the facets' weights add up to 1 if the cell covers the point, else to 0
    ghost tells: { (vs cell : List ℤ) (p : Self.Point) → shape.sound vs cell ≡ true → Off (λ f. shape.meets vs f p) (shape.rim cell) → total (weight vs p) (shape.rim cell) ≡ (if shape.covers vs cell p then pos 1 else pos 0) };

    // a facet is the same as itself, and as no other
    ghost likes: { (f : Self.Facet) → shape.alike f f ≡ true };

    ghost likens: { (f g : Self.Facet) → shape.alike f g ≡ true → f ≡ g };

    // facets with equal keys are equal
    ghost keyed: { (f g : Self.Facet) → real f ≡ true → real g ≡ true → key f ≡ key g → f ≡ g };

    // each facet of a cell has a key, if the cell's corners are numbers of an `i32`
    ghost rimmed: { (cell : List ℤ) → AllFit cell → AllReal real (shape.rim cell) };
}
