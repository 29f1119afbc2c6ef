ghost use Rattle.std.specs.Prelude.{◌≡◌};

/// The most bytes that are read of a file: 1 GiB and one more, so that a file without an end is answered too.
pub const MOST_READ: usize = (1 << 30) + 1;

/// How often a read or a write is tried where a signal interrupts it each time.
pub const MOST_TRIES: u32 = 1_000_000;

/// The number of each limit of this crate. Definitions cite the constants, so a wrong one would move them along.
pub fn limits_are()
    ensures read { MOST_READ ≡ 1073741825 }
    ensures tries { MOST_TRIES ≡ 1000000 }
{}
