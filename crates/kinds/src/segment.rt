// The segment: two corners, the second at the greater x. Its facets are its two vertices.
ghost use Rattle.std.specs.Prelude.{◌≡◌, int_lt};
ghost use Rattle.kinds.specs.Segments.{ends_of, ends_rim, stretch_of, segments, beyond, real_vertex, vertex_key};
ghost use Rattle.std.specs.List.{slice_get};
ghost use Rattle.std.proofs.Common.{rules};

use crate::places::place_of;
use crate::{Kind, Signed, VertexId};

#[derive(Clone, Copy, Debug, PartialEq, Eq)]
pub struct Segment;

// What belongs to each corner of a segment: its vertex, or the x of that.
#[derive(Clone, Copy, Debug, PartialEq, Eq)]
pub struct Ends<T> {
    pub from: T,
    pub to: T,
}

impl Ends<VertexId> {
    // The corners of the cell; None where it has another number of them.
    // stays: `TryFrom` would need an error that says no more than None.
    fn of(cell: &[i32]) -> Option<Ends<VertexId>>
        ensures { result ≡ ends_of cell.now }
    {
        let [from, to] = cell else {
            return None;
        };
        Some(Ends {
            from: VertexId(*from),
            to: VertexId(*to),
        })
    }

    // The vertex at a place of the rim: the first corner minus, the second plus.
    // stays: a kind gives its facets by their places.
    fn at(self, i: usize) -> Option<Signed<VertexId>>
        ensures { result ≡ slice_get (ends_rim self) i }
    {
        match i {
            0 => Some(Signed::Minus(self.from)),
            1 => Some(Signed::Plus(self.to)),
            _ => None,
        }
    }

    // The x of the corners; None where one is no vertex.
    fn stretch(self, vertices: &[i32]) -> Option<Ends<i32>>
        ensures { result ≡ stretch_of vertices.now self }
    {
        Some(Ends {
            from: place_of(vertices, self.from)?.x,
            to: place_of(vertices, self.to)?.x,
        })
    }
}

impl Ends<i32> {
    // Whether the second corner has the greater x.
    fn rises(self) -> bool
        ensures { result ≡ int_lt self.from self.to }
    {
        self.from < self.to
    }
}

impl Kind for Segment {
    const CORNERS: usize = 2;

    type Facet = VertexId;

    type Point = i32;

    ghost CORNERS = { 2 };

    ghost shape = { segments };

    ghost weight = { beyond };

    ghost real = { real_vertex };

    ghost key = { vertex_key };

    ghost sized = { Prim.search rules };

    ghost some = { Prim.search rules };

    ghost cornered = { Prim.search rules };

    ghost sided = { Prim.search rules };

    ghost tells = { Prim.search rules };

    ghost likes = { Prim.search rules };

    ghost likens = { Prim.search rules };

    ghost keyed = { Prim.search rules };

    ghost rimmed = { Prim.search rules };

    // stays: these read as those of the triangle, but each step is of other types and answers another word.
    fn is_sound(vertices: &[i32], cell: &[i32]) -> bool {
        Ends::of(cell)
            .and_then(|ends| ends.stretch(vertices))
            .is_some_and(|stretch| stretch.rises())
    }

    fn facet(cell: &[i32], i: usize) -> Option<Signed<VertexId>> {
        Ends::of(cell)?.at(i)
    }

    fn sort_key(f: VertexId) -> u64 {
        f.rank()
    }

    fn same(a: VertexId, b: VertexId) -> bool {
        a == b
    }
}
