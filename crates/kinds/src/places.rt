// Where vertices stand, in space and seen from above.
ghost use Rattle.std.specs.Prelude.{◌≡◌, ◌*ℤ◌, int_lt};
ghost use Rattle.kinds.specs.Places.{above, place, spot, way};

use crate::VertexId;
use whole::{gap, times};

// A point or a way in the plane.
#[derive(Clone, Copy, Debug, PartialEq, Eq)]
pub struct Plane<T> {
    pub x: T,
    pub y: T,
}

// A point of the plane, at whole numbers.
pub type PlanePoint = Plane<i32>;

// The way from one point of the plane to another.
pub(crate) type Way = Plane<i64>;

impl Plane<i32> {
    // The way from here to another point.
    pub(crate) fn way_to(self, other: PlanePoint) -> Way
        ensures { result ≡ way self other }
    {
        Plane {
            x: gap(self.x, other.x),
            y: gap(self.y, other.y),
        }
    }
}

impl Plane<i64> {
    // Whether the other way, from the same point, goes off to the left.
    pub(crate) fn turns_left(self, other: Way) -> bool
        ensures { result ≡ int_lt (other.x *ℤ self.y) (self.x *ℤ other.y) }
    {
        times(self.x, other.y) > times(other.x, self.y)
    }
}

// A point in space, at whole numbers.
#[derive(Clone, Copy, Debug, PartialEq, Eq)]
pub struct Spot {
    pub x: i32,
    pub y: i32,
    pub z: i32,
}

impl Spot {
    // The point below it on the ground.
    pub(crate) fn seen_from_above(self) -> PlanePoint
        ensures { result ≡ above self }
    {
        Plane {
            x: self.x,
            y: self.y,
        }
    }
}

// Where the vertex stands; None where the number is no vertex of the table.
pub fn spot_of(vertices: &[i32], v: VertexId) -> Option<Spot>
    ensures { result ≡ spot vertices.now v.0 }
{
    let first = 3 * usize::try_from(v.0).ok()?;
    Some(Spot {
        x: *vertices.get(first)?,
        y: *vertices.get(first + 1)?,
        z: *vertices.get(first + 2)?,
    })
}

// Where the vertex stands, seen from above; None where the number is no vertex of the table.
pub fn place_of(vertices: &[i32], v: VertexId) -> Option<PlanePoint>
    ensures { result ≡ place vertices.now v.0 }
{
    Some(spot_of(vertices, v)?.seen_from_above())
}
