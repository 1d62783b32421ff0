// The two kinds of cell that a hierarchy line can name.
ghost use Rattle.std.specs.Prelude.{◌≡◌};
ghost use Rattle.tables.specs.Kind.{corners_of};

#[derive(Clone, Copy, Debug, PartialEq, Eq)]
pub enum CellKind {
    Segment,
    Triangle,
}

impl CellKind {
    // How many corners a cell has.
    pub fn corners(self) -> usize
        ensures { result ≡ corners_of self }
    {
        match self {
            CellKind::Segment => 2,
            CellKind::Triangle => 3,
        }
    }
}
