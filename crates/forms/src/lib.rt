// The grammar of lines: forms as data with a meaning, the integers of JSON, arrays, and what a whole line says or how it is
// refused. Lemmas on reading a line from left to right by the byte that comes next stand in proofs/. The crate has no code of its
// own but the calls that carry its theorems.
#![tactic(auto)]

ghost use Rattle.forms.specs.Number.{OneValue};

// A text denotes one number at most.
pub fn number_has_one_value()
    ensures { OneValue }
{}
