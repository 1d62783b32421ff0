// A hierarchy line as a whole: its kind, and what follows it.
ghost use Rattle.std.specs.Prelude.{◌≡◌, ◌+◌, ◌≤◌, MatchResult};
ghost use Rattle.arrays.specs.Sink.{filling};
ghost use Rattle.forms.specs.Line.{Misread};
ghost use Rattle.hierarchypass.specs.Line.{hierarchy, kinds, body};
ghost use Rattle.hierarchypass.specs.Passing.{fillings, KindComes, KindPassed, BodyPassed, LinePassed};
ghost use Rattle.hierarchypass.specs.Growing.{filled, growth_lenders};
ghost use Rattle.scanner.specs.Scanner.{Lost};
ghost use Rattle.tables.specs.Kind.{corners_of};

use crate::replacement::{Growing, Replacement, Totals};
use arrays::{Row, Sink, keep_list};
use faults::Fault;
use scanner::{Scanner, begin};
use tables::{CellKind, Contents};

// The kind whose digit may come next: triangles where it is a 3, and else segments.
#[tactic(auto, using(crate::proofs::Bodies::three, crate::proofs::Bodies::two))]
fn next_kind(scanner: &Scanner<'_>) -> CellKind
    ensures { KindComes scanner.now result }
{
    if scanner.sees(b'3') {
        CellKind::Triangle
    } else {
        CellKind::Segment
    }
}

// The digit of a kind: how many corners a cell has.
fn digit(kind: CellKind) -> u8
    ensures { result ≡ 48 + corners_of kind }
{
    match kind {
        CellKind::Segment => b'2',
        CellKind::Triangle => b'3',
    }
}

// Reads the kind.
fn pass_kind(scanner: &mut Scanner<'_>) -> Result<CellKind, Fault>
    ensures { MatchResult result (KindPassed scanner.old scanner.new) (Lost scanner.old kinds) }
{
    let kind = next_kind(scanner);
    scanner.pass(digit(kind))?;
    Ok(kind)
}

// What a hierarchy has, of which the parts are counted.
fn contents_of(
    kind: CellKind,
    vertices: usize,
    base: usize,
    count: usize,
    totals: Totals,
) -> Contents
    requires { base + totals.makes ≤ 131072 }
    ensures { result ≡ record { kind = kind; vertices = vertices; base = base; cells = base + totals.makes; replacements = count; taken = totals.takes } }
{
    Contents {
        kind,
        vertices,
        base,
        cells: base + totals.makes,
        replacements: count,
        taken: totals.takes,
    }
}

// Reads what follows the kind, keeps it, and answers how many entries there are.
fn pass_body(
    scanner: &mut Scanner<'_>,
    kind: CellKind,
    coordinates: &mut Sink<'_>,
    growing: &mut Growing<'_, '_, '_, '_, '_, '_>,
) -> Result<Contents, Fault>
    ensures lender { coordinates.new.places.ghost_name ≡ coordinates.old.places.ghost_name }
    ensures lenders { growth_lenders growing.new ≡ growth_lenders growing.old }
    ensures reads { MatchResult result (BodyPassed kind scanner.old scanner.new (filled coordinates.old growing.old) (filled coordinates.new growing.new)) (Lost scanner.old (body (corners_of kind))) }
{
    let width = kind.corners();
    let vertex = Row { width: 3 };
    let cell = Row { width };
    let replacement = Replacement { width };
    scanner.pass(b',')?;
    let vertices = keep_list(scanner, &vertex, coordinates)?;
    scanner.pass(b',')?;
    let base = keep_list(scanner, &cell, growing.corners)?;
    scanner.pass(b',')?;
    // no replacement is read yet
    growing.totals = Totals { takes: 0, makes: 0 };
    let count = keep_list(scanner, &replacement, growing)?;
    scanner.pass(b']')?;
    Ok(contents_of(kind, vertices, base, count, growing.totals))
}

// Reads a hierarchy line to its end, keeps its tables, and answers how many entries they have. After a refusal they are still the
// same lent lists, and nothing else is promised of them: what to keep of a line is to be judged in a pass over empty lists first.
// stays: one struct of all four sinks was tried, and no proof closed: what a list holds afterwards is not known where it is lent to a struct in a struct.
pub fn pass_hierarchy(
    line: &[u8],
    coordinates: &mut Sink<'_>,
    corners: &mut Sink<'_>,
    replacements: &mut Sink<'_>,
    taken: &mut Sink<'_>,
) -> Result<Contents, Fault>
    ensures coordinates_lender { coordinates.new.places.ghost_name ≡ coordinates.old.places.ghost_name }
    ensures corners_lender { corners.new.places.ghost_name ≡ corners.old.places.ghost_name }
    ensures replacements_lender { replacements.new.places.ghost_name ≡ replacements.old.places.ghost_name }
    ensures taken_lender { taken.new.places.ghost_name ≡ taken.old.places.ghost_name }
    ensures reads { MatchResult result (LinePassed line.now (fillings (filling coordinates.old) (filling corners.old) (filling replacements.old) (filling taken.old)) (fillings (filling coordinates.new) (filling corners.new) (filling replacements.new) (filling taken.new))) (Misread hierarchy line.now) }
{
    let mut growing = Growing {
        corners,
        replacements,
        taken,
        totals: Totals { takes: 0, makes: 0 },
    };
    let mut scanner = begin(line)?;
    scanner.pass(b'[')?;
    let kind = pass_kind(&mut scanner)?;
    let contents = pass_body(&mut scanner, kind, coordinates, &mut growing)?;
    scanner.finish()?;
    Ok(contents)
}
