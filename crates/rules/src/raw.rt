// The raw tables of a hierarchy, lent, whoever wrote them.
ghost use Rattle.std.specs.Prelude.{◌≡◌};
ghost use Rattle.rules.specs.Raw.{lists_of};
ghost use Rattle.tables.specs.Tables.{own_places as own_places_of};

use tables::Places;

// stays: flat lists, as C and the readers hand them over; and clauses see them through `lists_of`, since a copied type that borrows has no model.
#[derive(Clone, Copy, Debug, PartialEq, Eq)]
pub struct RawTables<'a> {
    pub coordinates: &'a [i32],
    pub corners: &'a [i32],
    pub base: i32,
    pub replacements: &'a [i32],
    pub taken: &'a [i32],
}

impl<'a> RawTables<'a> {
    // How many places the tables have themselves.
    pub(crate) fn own_places(&self) -> Places
        ensures { result ≡ own_places_of (lists_of self.now) }
    {
        Places {
            coordinates: self.coordinates.len(),
            corners: self.corners.len(),
            replacements: self.replacements.len(),
            taken: self.taken.len(),
        }
    }
}
