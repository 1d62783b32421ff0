// Hierarchy lines, read whole: the kind of cells, and the tables of vertices, cells, replacements and taken numbers, into lent
// lists. A line is judged to its last byte before anything is written. No call allocates.
#![tactic(auto)]

ghost use Rattle.std.specs.Prelude.{◌≡◌, MatchResult};
ghost use Rattle.forms.specs.Line.{Misread};
ghost use Rattle.hierarchypass.specs.Line.{hierarchy};
ghost use Rattle.hierarchylines.specs.Reading.{lists, places_of, LineHolds, HierarchyReading, HierarchyReadOnce};

use arrays::Sink;
use faults::Fault;
use hierarchypass::pass_hierarchy;
use tables::{Contents, Places};

// What a hierarchy line has, if it is one with all numbers in range; nothing is kept of it.
fn check_hierarchy(line: &[u8]) -> Result<Contents, Fault>
    ensures { MatchResult result (LineHolds line.now) (Misread hierarchy line.now) }
{
    pass_hierarchy(
        line,
        &mut Sink::over(&mut []),
        &mut Sink::over(&mut []),
        &mut Sink::over(&mut []),
        &mut Sink::over(&mut []),
    )
}

// How many places the four lists have.
// stays: the four lists come from C.
fn places_in(coordinates: &[i32], corners: &[i32], replacements: &[i32], taken: &[i32]) -> Places
    ensures { result ≡ places_of (lists coordinates.now corners.now replacements.now taken.now) }
{
    Places {
        coordinates: coordinates.len(),
        corners: corners.len(),
        replacements: replacements.len(),
        taken: taken.len(),
    }
}

// Reads the tables of a hierarchy line into the first places of four lists, and answers how many entries they have.
// stays: C hands four such lists over, each as a pointer and a length.
pub fn read_hierarchy(
    line: &[u8],
    coordinates: &mut [i32],
    corners: &mut [i32],
    replacements: &mut [i32],
    taken: &mut [i32],
) -> Result<Contents, Fault>
    ensures { HierarchyReading line.now (lists coordinates.old corners.old replacements.old taken.old) result (lists coordinates.new corners.new replacements.new taken.new) }
{
    let contents = check_hierarchy(line)?;
    let places = places_in(coordinates, corners, replacements, taken);
    contents.judge(&places)?;
    pass_hierarchy(
        line,
        &mut Sink::over(coordinates),
        &mut Sink::over(corners),
        &mut Sink::over(replacements),
        &mut Sink::over(taken),
    )
}

// Reading a line into lists comes to one thing only.
pub fn hierarchy_is_read_once()
    ensures { HierarchyReadOnce }
{}
