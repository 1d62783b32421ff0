// The refusals: what can be wrong with what a call is handed, each known outside by a number from 1 to 18, and a fault, which is
// a refusal and its place. Every call that refuses answers a `Fault`, and `?` carries it up unchanged. What a place counts
// depends on the refusal; docs/RULES.md has the table.
//
// Want of memory is no refusal: memory is got by constructors that do nothing else.
#![tactic(auto)]

ghost use Rattle.std.specs.Prelude.{◌≡◌};
ghost use Rattle.faults.specs.Number.{number_of};

#[derive(Clone, Copy, Debug, PartialEq, Eq)]
pub enum Refusal {
    // A line is not of its form.
    NotOfForm = 1,
    // A number of a line lies beyond plus or minus 999,999,999.
    NumberTooFar = 2,
    // A list has more entries than places, a count is outside its limits, or the parts of a table do not make it up.
    CountOffLimits = 3,
    // A coordinate of a vertex is out of range.
    CoordinateOffRange = 4,
    // The error of a replacement is out of range.
    ErrorOffRange = 5,
    // A corner of a cell is no vertex.
    NoSuchVertex = 6,
    // A cell is not sound, as its kind defines it.
    CellNotSound = 7,
    // A replacement takes no cell, or does not make more cells than it takes.
    NoRefinement = 8,
    // A replacement takes a number that is no earlier cell.
    TakesNoEarlierCell = 9,
    // A replacement takes a cell that is taken already.
    TakesTwice = 10,
    // What a replacement makes has another rim than what it takes.
    RimBroken = 11,
    // A value of an order, or of a criterion, is out of range.
    ValueOffRange = 12,
    // The new mesh has more cells than the ceiling allows.
    MeshAboveCeiling = 13,
    // The step list has fewer places than there are steps.
    StepListTooShort = 14,
    // The stage has fewer places than are needed.
    StageTooSmall = 15,
    // A step is not legal where it comes.
    StepNotLegal = 16,
    // The listing does not fit its buffer.
    BufferTooSmall = 17,
    // The input has more than 65,536 bytes.
    InputTooLong = 18,
}

// A refusal, and the place where it was met.
#[derive(Clone, Copy, Debug, PartialEq, Eq)]
pub struct Fault {
    pub refusal: Refusal,
    pub place: usize,
}

impl Refusal {
    // The fault of this refusal at a place.
    pub fn at(self, place: usize) -> Fault
        ensures refusal { result.refusal ≡ self }
        ensures place { result.place ≡ place }
    {
        Fault {
            refusal: self,
            place,
        }
    }
}

// The number by which the refusal is known outside.
impl From<Refusal> for u32 {
    ghost from_gives = { λ r n. n ≡ number_of r };

    fn from(refusal: Refusal) -> u32 {
        refusal as u32
    }
}
