// linetrials: reads the lines of many trials into lists and prints what came of each, to be held against answers that another
// reader worked out; tests/make_line_trials.py makes both, and says how they are written. Beside the answer it looks at the places
// that reading has to leave as they were: a disturbed one adds the word DISTURBED to the answer.
#![tactic(auto)]

#[cfg(test)]
mod cut;
mod lists;
mod trials;

use faults::Fault;
use hierarchylines::read_hierarchy;
use lists::Lists;
use orderlines::read_order;
use std::io::Read;
use std::{fmt, io};
use tables::{Contents, Places};
use trials::{Reading, Trials};

// A refusal: its number and its place.
#[derive(Clone, Copy, Debug, PartialEq, Eq)]
struct Refused(Fault);

impl fmt::Display for Refused {
    fn fmt<W: fmt::Write>(&self, f: &mut fmt::Formatter<W>) -> fmt::Result {
        let number = u32::from(self.0.refusal);
        let place = self.0.place;
        write!(f, "{number} {place}")
    }
}

// Reads an order, and prints the answer.
fn try_order(rt: &HostRuntime, line: &[u8], places: usize, lists: &mut Lists) -> io::Result<()> {
    match read_order(line, lists.coordinates.lend(places)) {
        Ok(count) => {
            let values = lists.coordinates.show(count, places);
            println!(rt; "ok {count}{values}")
        }
        Err(fault) => {
            let refused = Refused(fault);
            let values = lists.coordinates.untouched(places);
            println!(rt; "{refused}{values}")
        }
    }
}

// Reads a hierarchy into so many places of the lists.
fn read_into(line: &[u8], places: Places, lists: &mut Lists) -> Result<Contents, Fault> {
    read_hierarchy(
        line,
        lists.coordinates.lend(places.coordinates),
        lists.corners.lend(places.corners),
        lists.replacements.lend(places.replacements),
        lists.taken.lend(places.taken),
    )
}

// Reads a hierarchy, and prints the answer.
fn try_hierarchy(
    rt: &HostRuntime,
    line: &[u8],
    places: Places,
    lists: &mut Lists,
) -> io::Result<()> {
    match read_into(line, places, lists) {
        Ok(contents) => {
            let kind = contents.kind.corners();
            let vertices = contents.vertices;
            let base = contents.base;
            let cells = contents.cells;
            let replacements = contents.replacements;
            let taken = contents.taken;
            let coordinates_read = lists
                .coordinates
                .show(vertices.saturating_mul(3), places.coordinates);
            let corners_read = lists
                .corners
                .show(cells.saturating_mul(kind), places.corners);
            let replacements_read = lists
                .replacements
                .show(replacements.saturating_mul(3), places.replacements);
            let taken_read = lists.taken.show(taken, places.taken);
            println!(rt;
                "ok {kind} {vertices} {base} {cells} {replacements} {taken}{coordinates_read}{corners_read}{replacements_read}{taken_read}"
            )
        }
        Err(fault) => {
            let refused = Refused(fault);
            let coordinates = lists.coordinates.untouched(places.coordinates);
            let corners = lists.corners.untouched(places.corners);
            let replacements = lists.replacements.untouched(places.replacements);
            let taken = lists.taken.untouched(places.taken);
            println!(rt; "{refused}{coordinates}{corners}{replacements}{taken}")
        }
    }
}

fn main(rt: HostRuntime) -> io::Result<()> {
    let mut input = Vec::new(rt.alloc());
    rt.stdin().read_to_end(&mut input)?;
    let mut lists = Lists::new(rt.alloc())?;
    let mut line = Vec::new(rt.alloc());
    for trial in Trials(input.as_slice()) {
        trial.write_line(&mut line)?;
        match trial.reading {
            Reading::Order { places } => try_order(&rt, line.as_slice(), places, &mut lists)?,
            Reading::Hierarchy { places } => {
                try_hierarchy(&rt, line.as_slice(), places, &mut lists)?
            }
        }
    }
    Ok(())
}
