// A rule that is judged place by place, and judging it.
ghost use Rattle.std.specs.Prelude.{◌≡◌, ℕ, ◌<◌, ◌≤◌, MatchBool};
ghost use Rattle.tables.specs.Judging.{RuleJudged};

use faults::{Fault, Refusal};

// What has to hold at each place, and a test of it.
pub trait Rule {
    ghost kept: { Self → ℕ → Type 0 };

    fn holds(&self, place: usize) -> bool
        ensures { MatchBool result (kept self.now place) (kept self.now place → ⊥) };
}

// Judges a rule at each place from `from` on, below `upto`.
pub fn judge<R: Rule>(rule: &R, refusal: Refusal, from: usize, upto: usize) -> Result<(), Fault>
    ensures { RuleJudged refusal from upto (R.kept rule.now) result }
{
    // stays: a `find` over the places, and a match on what it found, says no more plainly what the loop says.
    for place in from..upto {
        if !rule.holds(place) {
            return Err(refusal.at(place));
        }
    }
    Ok(())
}
