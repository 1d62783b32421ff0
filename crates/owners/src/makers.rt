// The replacement that makes each cell.
ghost use Rattle.std.specs.Prelude.{◌≡◌, ℕ, slice_index_or, vec_len, None};
ghost use Rattle.owners.specs.Owners.{cells_made, Makers, makers_in, takers_in};
ghost use Rattle.rules.specs.Raw.{lists_of};

use crate::{Blank, Owners, Ranged};

// Lists the maker of each cell, and nobody as its taker.
pub fn list_makers(ranged: &Ranged<'_>, blank: Blank<Owners, 16_384>) -> Vec<Owners>
    ensures len { vec_len result ≡ cells_made (lists_of ranged.now.tables) }
    ensures makers { Makers (lists_of ranged.now.tables) (makers_in result.items) }
    ensures free { (c : ℕ) → slice_index_or (takers_in result.items) c None ≡ None }
{
    let Blank { items: mut owners } = blank;
    let base = Owners {
        maker: None,
        taker: None,
    };
    owners.resize(ranged.base() as usize, base).unwrap();
    for (n, part) in ranged.parts() {
        let made = Owners {
            maker: Some(n),
            taker: None,
        };
        owners
            .resize(owners.len() + part.makes as usize, made)
            .unwrap();
    }
    owners
}
