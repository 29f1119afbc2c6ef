ghost use Rattle.std.specs.Prelude.{◌≡◌, ◌==◌, IfOk, IfSome, option_map};
ghost use Rattle.std.specs.List.{slice_split};
ghost use Rattle.mz_base.specs.Lines.{pointed};
ghost use Rattle.cert_text.specs.Fields.{only_if, rises, bounds_of, bounds_in, RiseWithin};

use crate::field::values_of;
use mz_base::NoMemory;
use std::alloc::Global;

/// The bounds of a command line: positions with commas between them. None where the text is no such list, or where they
/// are no bounds of a key of so many characters.
pub fn read_bounds(
    alloc: Global,
    key_length: usize,
    text: &str,
) -> Result<Option<Vec<u64>>, NoMemory>
    ensures given { IfOk result (λ found. option_map (λ v. v.items) found ≡ bounds_in key_length text.now) }
    ensures bounds { IfOk result (λ found. IfSome found (λ v. RiseWithin key_length v.items)) }
{
    let fields = cut_at_commas(alloc, text)?;
    bounds_of(alloc, key_length, fields.as_slice())
}

fn cut_at_commas(alloc: Global, text: &str) -> Result<Vec<&str>, NoMemory>
    ensures { IfOk result (λ fields. pointed fields.items ≡ slice_split (λ b. b == 44) text.now) }
{
    Ok(text.split(',').collect(alloc)?)
}

/// The bounds that fields spell, for a key of so many characters.
pub fn bounds_of(
    alloc: Global,
    key_length: usize,
    fields: &[&str],
) -> Result<Option<Vec<u64>>, NoMemory>
    ensures given { IfOk result (λ found. option_map (λ v. v.items) found ≡ bounds_of key_length (pointed fields.now)) }
    ensures bounds { IfOk result (λ found. IfSome found (λ v. RiseWithin key_length v.items)) }
{
    match values_of::<u64>(alloc, fields)? {
        Some(bounds) => Ok(only_bounds(bounds, key_length)),
        None => Ok(None),
    }
}

#[tactic(auto, using(crate::proofs::RiseLemmas::RiseWithin_from_test))]
fn only_bounds(bounds: Vec<u64>, key_length: usize) -> Option<Vec<u64>>
    ensures given { option_map (λ v. v.items) result ≡ only_if (rises key_length 0) bounds.items }
    ensures bounds { IfSome result (λ v. RiseWithin key_length v.items) }
{
    if rise(bounds.as_slice(), key_length) {
        Some(bounds)
    } else {
        None
    }
}

fn rise(bounds: &[u64], last: usize) -> bool
    ensures { result ≡ rises last 0 bounds.now }
{
    let mut before = 0;
    for bound in bounds {
        if *bound <= before || (last as u64) < *bound {
            return false;
        }
        before = *bound;
    }
    true
}
