ghost use Rattle.std.specs.Prelude.{◌≡◌, pos, negsuc};
ghost use Rattle.mz_base.specs.Limits.{is_cost, is_long};

use crate::{
    LEAST_COST, MOST_COST, MOST_DIGITS, MOST_FIELD_BYTES, MOST_HOMOPHONES, MOST_IDS, MOST_KEY,
    MOST_LOOKED_UP, MOST_ROWS, MOST_SIGNED_DIGITS, MOST_USER_HOMOPHONES, MOST_USER_ROWS,
    MOST_WORDS,
};

/// Whether a word and a connection may have this cost.
pub fn is_cost(cost: i64) -> bool
    ensures { result ≡ is_cost cost }
{
    LEAST_COST as i64 <= cost && cost <= MOST_COST as i64
}

/// Whether the field is longer than a field may be.
pub fn is_long(field: &str) -> bool
    ensures { result ≡ is_long field.now }
{
    MOST_FIELD_BYTES < field.len()
}

/// The number of each limit of this crate. Definitions cite the constants, so a wrong one would move them along.
pub fn limits_are()
    ensures ids { MOST_IDS ≡ 4096 }
    ensures words { MOST_WORDS ≡ 2000000 }
    ensures homophones { MOST_HOMOPHONES ≡ 2000 }
    ensures rows { MOST_ROWS ≡ 100000 }
    ensures field_bytes { MOST_FIELD_BYTES ≡ 300 }
    ensures greatest_cost { MOST_COST ≡ pos 1000000 }
    ensures least_cost { LEAST_COST ≡ negsuc 999999 }
    ensures looked_up { MOST_LOOKED_UP ≡ 65535 }
    ensures key { MOST_KEY ≡ 256 }
    ensures digits { MOST_DIGITS ≡ 10 }
    ensures signed_digits { MOST_SIGNED_DIGITS ≡ 18 }
    ensures user_rows { MOST_USER_ROWS ≡ 100000 }
    ensures user_homophones { MOST_USER_HOMOPHONES ≡ 500 }
{}
