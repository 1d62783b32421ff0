// The two ends of a line: where reading begins, and that nothing is left.
ghost use Rattle.std.specs.Prelude.{MatchResult};
ghost use Rattle.forms.specs.Line.{Overlong};
ghost use Rattle.scanner.specs.Scanner.{Begun, Finished, Unfinished};

use crate::Scanner;
use faults::{Fault, Refusal};

// The greatest length of a line.
const LONGEST: usize = 65_536;

impl Scanner<'_> {
    // Says that nothing more comes, and that every number was in range.
    pub fn finish(&self) -> Result<(), Fault>
        ensures { MatchResult result (λ _. Finished self.now) (λ f. Unfinished self.now f) }
    {
        if self.at < self.bytes.len() {
            return Err(self.wrong());
        }
        match self.far {
            Some(place) => Err(Refusal::NumberTooFar.at(place)),
            None => Ok(()),
        }
    }
}

// A scanner of the line, at its first byte that is no white space.
pub fn begin<'a>(bytes: &'a [u8]) -> Result<Scanner<'a>, Fault>
    ensures { MatchResult result (λ s. Begun bytes.now s) (λ f. Overlong bytes.now f) }
{
    if bytes.len() > LONGEST {
        return Err(Refusal::InputTooLong.at(LONGEST));
    }
    let mut scanner = Scanner {
        bytes,
        at: 0,
        far: None,
    };
    scanner.skip_blanks();
    Ok(scanner)
}
