// A line that is read from left to right, by the byte that comes next: marks, white space and the integers of JSON. A call either
// reads on, or says at which byte the line stops making sense. It keeps in mind where the first number beyond the range stands,
// since that is told only of a line that is of its form to the last byte. After a refusal nothing is promised of the scanner, which is
// not to be used again. No call allocates.
#![tactic(auto)]

ghost use Rattle.std.specs.Prelude.{◌≤◌, length};

mod ends;
mod marks;
mod numbers;

pub use ends::begin;

// A line of at most 65,536 bytes, how far it is read, and where its first number beyond the range stands.
// stays: the place of a refusal is how far the line is read, so the index stays; a slice that shrinks would need it beside it as well.
#[derive(Drop)]
pub struct Scanner<'a> {
    bytes: &'a [u8],
    at: usize,
    far: Option<usize>,
    ghost short: { length bytes.now ≤ 65536 },
}
