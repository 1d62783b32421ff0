// The triangle: three corners that turn left, seen from above. Its facets are its three edges.
ghost use Rattle.std.specs.Prelude.{◌≡◌};
ghost use Rattle.kinds.specs.Triangles.{run, corners_of, corners_rim, places_of, left_of, triangles, edge_weight, real_edge, edge_key};
ghost use Rattle.std.specs.List.{slice_get};
ghost use Rattle.kinds.specs.Ranks.{keys_tell};
ghost use Rattle.kinds.specs.Telling;
ghost use Rattle.std.proofs.Common.{rules};

use crate::places::place_of;
use crate::{Kind, PlanePoint, Signed, VertexId};

#[derive(Clone, Copy, Debug, PartialEq, Eq)]
pub struct Triangle;

// Two vertices in no order: `Edge::run`, which alone makes edges, puts the lower number first.
// stays: an interval has two fields of one type as well, but an edge has nothing in between.
#[derive(Clone, Copy, Debug, PartialEq, Eq)]
pub struct Edge {
    low: VertexId,
    high: VertexId,
}

// What belongs to each corner of a triangle: its vertex, or where that stands.
#[derive(Clone, Copy, Debug, PartialEq, Eq)]
pub struct Corners<T> {
    pub a: T,
    pub b: T,
    pub c: T,
}

impl Edge {
    // The edge that is run from `u` to `v`: plus from the lower number to the higher, else minus.
    fn run(u: VertexId, v: VertexId) -> Signed<Edge>
        ensures { result ≡ run u v }
    {
        if u.0 < v.0 {
            return Signed::Plus(Edge { low: u, high: v });
        }
        Signed::Minus(Edge { low: v, high: u })
    }
}

impl Corners<VertexId> {
    // The corners of the cell; None where it has another number of them.
    // stays: `TryFrom` would need an error that says no more than None.
    fn of(cell: &[i32]) -> Option<Corners<VertexId>>
        ensures { result ≡ corners_of cell.now }
    {
        let [a, b, c] = cell else {
            return None;
        };
        Some(Corners {
            a: VertexId(*a),
            b: VertexId(*b),
            c: VertexId(*c),
        })
    }

    // The edge at a place of the rim.
    // stays: a kind gives its facets by their places.
    fn at(self, i: usize) -> Option<Signed<Edge>>
        ensures { result ≡ slice_get (corners_rim self) i }
    {
        match i {
            0 => Some(Edge::run(self.a, self.b)),
            1 => Some(Edge::run(self.b, self.c)),
            2 => Some(Edge::run(self.c, self.a)),
            _ => None,
        }
    }

    // Where the corners stand; None where one is no vertex.
    fn places(self, vertices: &[i32]) -> Option<Corners<PlanePoint>>
        ensures { result ≡ places_of vertices.now self }
    {
        Some(Corners {
            a: place_of(vertices, self.a)?,
            b: place_of(vertices, self.b)?,
            c: place_of(vertices, self.c)?,
        })
    }
}

impl Corners<PlanePoint> {
    // Whether the third lies strictly left of the way from the first to the second.
    #[tactic(auto, using(whole::proofs::Signs::less_by))]
    fn turns_left(self) -> bool
        ensures { result ≡ left_of self.a self.b self.c }
    {
        let side = self.a.way_to(self.b);
        side.turns_left(self.a.way_to(self.c))
    }
}

impl Kind for Triangle {
    const CORNERS: usize = 3;

    type Facet = Edge;

    type Point = PlanePoint;

    ghost CORNERS = { 3 };

    ghost shape = { triangles };

    ghost weight = { edge_weight };

    ghost real = { real_edge };

    ghost key = { edge_key };

    ghost sized = { Prim.search rules };

    ghost some = { Prim.search rules };

    ghost cornered = { Prim.search rules };

    ghost sided = { Prim.search rules };

    ghost tells = { λ vs cell p. Telling.tells vs p (corners_of cell) };

    ghost likes = { Prim.search rules };

    ghost likens = { Prim.search rules };

    ghost keyed = { keys_tell };

    ghost rimmed = { Prim.search rules };

    // stays: these read as those of the segment, but each step is of other types and answers another word.
    fn is_sound(vertices: &[i32], cell: &[i32]) -> bool {
        Corners::of(cell)
            .and_then(|corners| corners.places(vertices))
            .is_some_and(|places| places.turns_left())
    }

    fn facet(cell: &[i32], i: usize) -> Option<Signed<Edge>> {
        Corners::of(cell)?.at(i)
    }

    fn sort_key(f: Edge) -> u64 {
        (f.low.rank() << 32) + f.high.rank()
    }

    fn same(a: Edge, b: Edge) -> bool {
        a == b
    }
}
