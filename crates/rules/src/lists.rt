// Numbers, stretches and rows of a list, past its end too.
ghost use Rattle.std.specs.Prelude.{◌≡◌, ℕ, ◌*◌, [], ◌∷◌, take, drop};
ghost use Rattle.rules.specs.Raw.{at, field as field_of, cell};

// The number at a place, and 0 past the end.
// stays: the words of the rules go by 0 past the end, where no rule asks; an Option would be unwrapped at each of their tests.
fn number_at(list: &[i32], place: usize) -> i32
    ensures { result ≡ at list.now place }
{
    list.get(place).copied().unwrap_or(0)
}

// So many numbers of a list, from a place on; fewer past its end.
pub fn stretch(list: &[i32], from: u128, count: usize) -> &[i32]
    ensures { result.now ≡ take count (drop from list.now) }
{
    let start = from.min(list.len() as u128) as usize;
    let rest = &list[start..];
    &rest[..count.min(rest.len())]
}

// The corners of cell c, where cells have k corners; fewer past the end of the table.
pub fn cell_at(corners: &[i32], k: usize, c: usize) -> &[i32]
    ensures { result.now ≡ cell k corners.now c }
{
    stretch(corners, k as u128 * c as u128, k)
}

// The three numbers of a row, and 0 past the end.
pub(crate) fn row_at(list: &[i32], place: usize) -> [i32; 3]
    ensures { result ≡ field_of list.now place 0 ∷ field_of list.now place 1 ∷ field_of list.now place 2 ∷ [] }
{
    let row = cell_at(list, 3, place);
    [number_at(row, 0), number_at(row, 1), number_at(row, 2)]
}
