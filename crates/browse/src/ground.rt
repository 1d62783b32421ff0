// The memory of the browser: places for the tables of one hierarchy, and what a check of it needs; and answering a hierarchy line with it.
ghost use Rattle.std.specs.Prelude.{◌≡◌, ◌<◌, length, IfOk, vec_len};
ghost use Rattle.browse.specs.Answers.{Answered};
ghost use Rattle.browse.specs.declared.answer.Answer.TheVariants.{Refused};
ghost use Rattle.faults.specs.declared.Refusal.TheVariants.{InputTooLong};
ghost use Rattle.rules.specs.Raw.{lists_of};

use crate::answer::Answer;
use faults::Refusal;
use hierarchy::{Workspace, accept};
use hierarchylines::read_hierarchy;
use kinds::{Kind, Segment, Triangle};
use rules::RawTables;
use std::alloc::{AllocError, Global};
use tables::{CellKind, Contents};

// The greatest length of the whole input.
const LONGEST: usize = 65_536;

// Places for the corners of the most cells there may be, of the kind that has most.
const CORNERS: u32 = 49_152;

// Places for the most that a hierarchy may have, and memory to check it.
#[derive(Drop)]
pub struct Ground {
    coordinates: Vec<i32>,
    corners: Vec<i32>,
    replacements: Vec<i32>,
    taken: Vec<i32>,
    work: Workspace,
}

// Checks the tables, and answers how many vertices, cells and replacements there are.
fn check<K: Kind>(tables: RawTables<'_>, work: Workspace) -> Answer
    ensures { Answered K.Kind.shape (lists_of tables.entry) work.corners result }
{
    match accept::<K>(tables, work) {
        Ok(hierarchy) => Answer::Accepted {
            vertices: hierarchy.vertices(),
            cells: hierarchy.cells(),
            replacements: hierarchy.replacements(),
        },
        Err(fault) => Answer::Refused(fault),
    }
}

// So many numbers of a list, all of it where it has fewer.
fn first(list: &[i32], count: usize) -> &[i32] {
    list.get(..count).unwrap_or(list)
}

impl Ground {
    // Gets the memory, or finds none.
    pub fn new(heap: Global) -> Result<Ground, AllocError>
        ensures lists { IfOk result (λ g. (vec_len g.coordinates ≡ 12288) × (vec_len g.corners ≡ 49152) × (vec_len g.replacements ≡ 12288) × (vec_len g.taken ≡ 16384)) }
        ensures check { IfOk result (λ g. g.work.corners ≡ 49152) }
    {
        Ok(Ground {
            coordinates: vec![in heap; 0; 12_288]?,
            corners: vec![in heap; 0; 49_152]?,
            replacements: vec![in heap; 0; 12_288]?,
            taken: vec![in heap; 0; 16_384]?,
            work: Workspace::new(heap, CORNERS)?,
        })
    }

    // Reads a hierarchy line, and checks what it says.
    fn answer_line(mut self, line: &[u8]) -> Answer {
        let read = read_hierarchy(
            line,
            self.coordinates.as_mut_slice(),
            self.corners.as_mut_slice(),
            self.replacements.as_mut_slice(),
            self.taken.as_mut_slice(),
        );
        match read {
            Ok(contents) => self.answer_contents(contents),
            Err(fault) => Answer::Refused(fault),
        }
    }

    // Checks the tables that were read.
    fn answer_contents(self, contents: Contents) -> Answer {
        let Ground {
            coordinates,
            corners,
            replacements,
            taken,
            work,
        } = self;
        let all_corners = contents.cells.saturating_mul(contents.kind.corners());
        let tables = RawTables {
            coordinates: first(coordinates.as_slice(), contents.vertices.saturating_mul(3)),
            corners: first(corners.as_slice(), all_corners),
            base: i32::try_from(contents.base).unwrap_or(0),
            replacements: first(
                replacements.as_slice(),
                contents.replacements.saturating_mul(3),
            ),
            taken: first(taken.as_slice(), contents.taken),
        };
        match contents.kind {
            CellKind::Segment => check::<Segment>(tables, work),
            CellKind::Triangle => check::<Triangle>(tables, work),
        }
    }

    // Answers an input by its first line; an input that is too long is refused whole.
    pub fn answer(self, input: &[u8]) -> Answer
        ensures long { 65536 < length input.now → result ≡ Refused (record { refusal = InputTooLong; place = 65536 }) }
    {
        if input.len() > LONGEST {
            return Answer::Refused(Refusal::InputTooLong.at(LONGEST));
        }
        let end = input
            .iter()
            .position(|b| *b == b'\n')
            .unwrap_or(input.len());
        self.answer_line(&input[..end])
    }
}
