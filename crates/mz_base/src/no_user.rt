ghost use Rattle.std.specs.Prelude.{◌≡◌};
ghost use Rattle.mz_base.specs.Users.{no_user_row};

use crate::{Text, UserRow, UserWords};
use std::alloc::Global;

/// A user without words.
#[derive(Drop)]
pub struct NoUserWords {
    // Lent for each place, since a list without rows has none to lend.
    none: UserRow,
    ghost empty: { none ≡ no_user_row },
}

impl NoUserWords {
    /// Takes no memory.
    pub fn new(alloc: Global) -> NoUserWords {
        NoUserWords {
            none: UserRow {
                reading: Text::from_vec(Vec::new(alloc)),
                word: Text::from_vec(Vec::new(alloc)),
                pos: Text::from_vec(Vec::new(alloc)),
                line: 0,
            },
        }
    }
}

impl UserWords for NoUserWords {
    ghost use Rattle.std.specs.Prelude.{[]};
    ghost use Rattle.std.proofs.Common.{rules};

    ghost rows = { λ _. [] };

    ghost few = { λ _. Prim.search rules };

    #[tactic(auto, unfolding(crate::specs::Data::places))]
    fn rows_of(&self, _reading: &[char]) -> &[u32] {
        &[]
    }

    #[tactic(auto, unfolding(crate::specs::Users::longest_reading))]
    fn longest_reading(&self) -> usize {
        0
    }

    /// An empty row, at any place.
    fn row(&self, _place: u32) -> &UserRow
        ensures { result.now ≡ no_user_row }
    {
        &self.none
    }
}
