// What is answered to a hierarchy: its counts, or the number and the place of a refusal.
use faults::Fault;
use std::fmt;

#[derive(Clone, Copy, Debug, PartialEq, Eq)]
pub enum Answer {
    Accepted {
        vertices: usize,
        cells: usize,
        replacements: usize,
    },
    Refused(Fault),
}

impl From<Fault> for Answer {
    fn from(fault: Fault) -> Answer {
        Answer::Refused(fault)
    }
}

impl fmt::Display for Answer {
    fn fmt<W: fmt::Write>(&self, f: &mut fmt::Formatter<W>) -> fmt::Result {
        match *self {
            Answer::Accepted {
                vertices,
                cells,
                replacements,
            } => write!(f, "[0,{vertices},{cells},{replacements}]"),
            Answer::Refused(fault) => {
                let number = u32::from(fault.refusal);
                let place = fault.place;
                write!(f, "[{number},{place}]")
            }
        }
    }
}
