// The check.
ghost use Rattle.std.specs.Prelude.{MatchResult};
ghost use Rattle.hierarchy.specs.Accepted.{Accepting, Carries, CheckedOnce, places_for};
ghost use Rattle.rules.specs.Raw.{lists_of};
ghost use Rattle.rules.specs.Hierarchies.{linked_rows, plain_rows};
ghost use Rattle.tables.specs.Judging.{Lawful, Refused};

use crate::replacements::list_replacements;
use crate::rim_rule::judge_rims;
use crate::{Hierarchy, Workspace};
use faults::Fault;
use kinds::Kind;
use owners::{Ranged, list_owners};
use rules::{RawTables, judge_placed_tables};
use std::marker::PhantomData;
use tables::Places;

// Judges how replacements follow on one another, of tables that keep the plain rules, and works out what a hierarchy carries.
fn link<'a, K: Kind>(tables: RawTables<'a>, work: Workspace) -> Result<Hierarchy<'a, K>, Fault>
    requires { Lawful (plain_rows K.Kind.shape (lists_of tables) (places_for (lists_of tables) work.corners)) }
    ensures { MatchResult result (λ h. Lawful (linked_rows K.Kind.shape (lists_of tables.entry)) × Carries K.Kind.shape.arity (lists_of tables.entry) h) (Refused (linked_rows K.Kind.shape (lists_of tables.entry))) }
{
    let Workspace {
        corners: _,
        owners,
        replacements,
        mut rims,
    } = work;
    let ranged = Ranged { tables };
    let owners = list_owners(&ranged, owners)?;
    judge_rims::<K>(&ranged, &mut rims)?;
    let replacements = list_replacements::<K>(&ranged, replacements);
    Ok(Hierarchy {
        kind: PhantomData,
        tables,
        owners,
        replacements,
    })
}

// Accepts exactly the Multi-Triangulations of a kind of cell, of as many corners as the workspace has places for.
pub fn accept<'a, K: Kind>(
    tables: RawTables<'a>,
    work: Workspace,
) -> Result<Hierarchy<'a, K>, Fault>
    ensures { Accepting K.Kind.shape (lists_of tables.entry) work.corners result }
{
    let places = Places {
        coordinates: tables.coordinates.len(),
        corners: work.corners,
        replacements: tables.replacements.len(),
        taken: tables.taken.len(),
    };
    judge_placed_tables::<K>(tables, places)?;
    link::<K>(tables, work)
}

// The check comes to one thing only: two hierarchies that were accepted from the same tables do not differ in anything that can be asked of
// them, and no tables are both accepted and refused, or refused in two ways.
pub fn tables_are_checked_once<K: Kind>()
    ensures { CheckedOnce K.Kind K.Kind.shape }
{}
