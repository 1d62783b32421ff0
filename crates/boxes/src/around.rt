// The smallest box around vertices.
ghost use Rattle.std.specs.Prelude.{MatchOption};
ghost use Rattle.boxes.specs.Spots.{Smallest, Spotted};

use crate::Extent;
use crate::numbered::numbered;

// The smallest box around the vertices that a list numbers; None where it numbers none, or something that is no vertex.
pub fn box_around(vertices: &[i32], list: &[i32]) -> Option<Extent>
    ensures { MatchOption result (Spotted vertices.now list.now → ⊥) (Smallest vertices.now list.now) }
{
    let [first, rest @ ..] = list else {
        return None;
    };
    let mut around = Extent::at(numbered(vertices, *first)?);
    for vertex in rest {
        around = around.with(numbered(vertices, *vertex)?);
    }
    Some(around)
}
