ghost use Rattle.std.specs.Prelude.{◌≡◌, IfOk, option_map};
ghost use Rattle.std.specs.Option.{option_copied};
ghost use Rattle.mz_base.specs.Lines.{pointed};
ghost use Rattle.mz_base.specs.Numbers.{number_of};
ghost use Rattle.cert_text.specs.Fields.{values_of, ordinal_of, potential_of};

use mz_base::{MOST_SIGNED_DIGITS, NoMemory, number, signed};
use std::alloc::Global;

/// The highest ordinal that is read.
pub const MOST_ORDINAL: u64 = 4_294_967_295;

/// A value that a field spells.
pub trait FromField: Drop {
    ghost use Rattle.std.specs.Prelude.{ℕ, List, Option};

    /// The value of a field, where it has one.
    ghost value_of: { List ℕ → Option Self };

    fn from_field(field: &str) -> Option<Self>
        ensures { result ≡ value_of field.now };
}

impl FromField for u64 {
    ghost value_of = { number_of };

    fn from_field(field: &str) -> Option<u64> {
        number(field)
    }
}

/// An ordinal.
impl FromField for u32 {
    ghost value_of = { ordinal_of };

    fn from_field(field: &str) -> Option<u32> {
        let ordinal = number(field)?;
        if ordinal <= MOST_ORDINAL {
            Some(ordinal as u32)
        } else {
            None
        }
    }
}

/// A potential.
impl FromField for i64 {
    ghost value_of = { potential_of };

    fn from_field(field: &str) -> Option<i64> {
        signed(field, MOST_SIGNED_DIGITS)
    }
}

/// The values of all fields, or none where a field has no value.
pub fn values_of<T: FromField>(alloc: Global, fields: &[&str]) -> Result<Option<Vec<T>>, NoMemory>
    ensures { IfOk result (λ found. option_map (λ v. v.items) found ≡ values_of T.value_of (pointed fields.now)) }
{
    let mut values = Vec::new(alloc);
    for field in fields {
        let Some(value) = T::from_field(field) else {
            return Ok(None);
        };
        values.push(value)?;
    }
    Ok(Some(values))
}
