ghost use Rattle.std.specs.Prelude.{◌≡◌, ◌<◌, ◌^◌, length};
ghost use Rattle.conversion_meaning.specs.Paths.{whole};

use mz_base::{Lattice, Span};

/// The whole key of a lattice, with id 0 on both sides.
pub fn whole(lattice: &Lattice) -> Span
    requires { length lattice.now.key < 2 ^ 16 }
    ensures { result ≡ whole lattice.now 0 }
{
    Span {
        begin: 0,
        end: lattice.key.as_slice().len() as u16,
        left: 0,
        right: 0,
    }
}
