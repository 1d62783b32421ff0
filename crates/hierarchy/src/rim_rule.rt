// Judging that the rim stays at each replacement.
ghost use Rattle.std.specs.Prelude.{◌≡◌, ◌+◌, map, take, drop, MatchBool, unsigned_abs};
ghost use Rattle.faults.specs.declared.Refusal.TheVariants.{RimBroken};
ghost use Rattle.hierarchy.specs.Derived.{RimsFit};
ghost use Rattle.rims.specs.Rims.{Fitting, SameRim};
ghost use Rattle.rules.specs.Links.{RimKept};
ghost use Rattle.rules.specs.Raw.{lists_of};
ghost use Rattle.rules.specs.Rows.{replacements_in};
ghost use Rattle.std.specs.List.{range_with_len};
ghost use Rattle.tables.specs.Judging.{RuleJudged};

use faults::{Fault, Refusal};
use kinds::Kind;
use owners::{Part, Ranged};
use rims::RimMemory;
use rules::RawTables;

// Whether the rim stays at the replacement with these ranges.
fn rim_kept<K: Kind>(tables: RawTables<'_>, part: Part, rims: &mut RimMemory) -> bool
    requires { Fitting K.Kind.shape.arity tables.corners.now part.first part.makes (take part.takes (drop part.list tables.taken.now)) rims.old.room }
    ensures kept { MatchBool result (SameRim K.Kind.shape tables.entry.corners.now (range_with_len part.first part.makes) (map unsigned_abs (take part.takes (drop part.list tables.entry.taken.now)))) (SameRim K.Kind.shape tables.entry.corners.now (range_with_len part.first part.makes) (map unsigned_abs (take part.takes (drop part.list tables.entry.taken.now))) → ⊥) }
    ensures room { rims.new.room ≡ rims.old.room }
{
    rims.rim_stays::<K>(
        tables.corners,
        part.first as usize,
        part.makes as usize,
        part.taken(tables),
    )
    .unwrap()
}

// Judges that the rim stays, at each replacement.
pub(crate) fn judge_rims<K: Kind>(ranged: &Ranged<'_>, rims: &mut RimMemory) -> Result<(), Fault>
    requires { RimsFit K.Kind.shape.arity (lists_of ranged.now.tables) rims.old.room }
    ensures { RuleJudged RimBroken 1 (replacements_in (lists_of ranged.now.tables) + 1) (RimKept K.Kind.shape (lists_of ranged.now.tables)) result }
{
    for (n, ranges) in ranged.parts() {
        if !rim_kept::<K>(ranged.tables, ranges, rims) {
            return Err(Refusal::RimBroken.at(n.0 as usize));
        }
    }
    Ok(())
}
