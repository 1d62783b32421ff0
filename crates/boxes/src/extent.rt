// A box along the axes: an interval of x, one of y and one of z.
ghost use Rattle.boxes.specs.Spots.{Contains, Inside, Widened};
ghost use Rattle.boxes.specs.declared.extent.Extent.{Extent};

use crate::Interval;
use kinds::Spot;

#[derive(Clone, Copy, Debug, PartialEq, Eq)]
pub struct Extent {
    pub x: Interval,
    pub y: Interval,
    pub z: Interval,
}

impl Extent {
    // The box that has a point in it and nothing else.
    pub(crate) fn at(p: Spot) -> Extent
        ensures { Contains result p × ((d : Extent) → Contains d p → Inside result d) }
    {
        Extent {
            x: Interval::at(p.x),
            y: Interval::at(p.y),
            z: Interval::at(p.z),
        }
    }

    // The smallest box with this box and a point in it.
    pub(crate) fn with(self, p: Spot) -> Extent
        ensures { Widened self p result }
    {
        Extent {
            x: self.x.with(p.x),
            y: self.y.with(p.y),
            z: self.z.with(p.z),
        }
    }
}
