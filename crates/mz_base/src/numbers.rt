ghost use Rattle.std.specs.Prelude.{◌≡◌, ◌≤◌, ◌<◌, ◌^◌, ◌==◌, true, false, All, IfOk, IfSome, MatchOption, drop, slice_index};
ghost use Rattle.std.specs.Char.{is_ascii_digit};
ghost use Rattle.std.specs.List.{list_all};
ghost use Rattle.mz_base.specs.declared.numbers.TheConstants.{MOST_SIGNED_DIGITS};
ghost use Rattle.mz_base.specs.Numbers.{is_numeral, number_of, unsigned_of, signed_of, negated, positive};

use crate::NoMemory;
use std::alloc::Global;

/// The most digits of a number that is no potential and no total of a certificate.
pub const MOST_DIGITS: usize = 10;

/// The most digits of a number with a sign, so that 64 bits hold it.
pub const MOST_SIGNED_DIGITS: usize = 18;

/// The number that one to ten decimal digits write. Leading zeros are read.
pub fn number(text: &str) -> Option<u64>
    ensures { result ≡ number_of text.now }
{
    unsigned(text, MOST_DIGITS)
}

/// The number that decimal digits write, at most so many, where one minus may stand first.
pub fn signed(text: &str, most: usize) -> Option<i64>
    requires { most ≤ MOST_SIGNED_DIGITS }
    ensures { result ≡ signed_of most text.now }
{
    match after_minus(text) {
        Some(digits) => negated(unsigned(digits, most)),
        None => positive(unsigned(text, most)),
    }
}

/// The same numbers in fewer bits.
pub fn narrowed(alloc: Global, numbers: &[u64]) -> Result<Vec<u16>, NoMemory>
    requires { All (λ number. number < 2 ^ 16) numbers.now }
    ensures { IfOk result (λ narrow. narrow.items ≡ numbers.now) }
{
    Ok(numbers.iter().map(|number| *number as u16).collect(alloc)?)
}

fn after_minus(text: &str) -> Option<&str>
    ensures { MatchOption result ((slice_index text.now 0 == 45) ≡ false) (λ digits. ((slice_index text.now 0 == 45) ≡ true) × (digits.now ≡ drop 1 text.now)) }
{
    text.strip_prefix('-')
}

fn negated(number: Option<u64>) -> Option<i64>
    requires { IfSome number (λ n. n < 10 ^ MOST_SIGNED_DIGITS) }
    ensures { result ≡ negated number }
{
    match number {
        Some(n) => Some(-(n as i64)),
        None => None,
    }
}

fn positive(number: Option<u64>) -> Option<i64>
    requires { IfSome number (λ n. n < 10 ^ MOST_SIGNED_DIGITS) }
    ensures { result ≡ positive number }
{
    match number {
        Some(n) => Some(n as i64),
        None => None,
    }
}

fn unsigned(text: &str, most: usize) -> Option<u64>
    requires { most ≤ MOST_SIGNED_DIGITS }
    ensures value { result ≡ unsigned_of most text.now }
    ensures small { IfSome result (λ n. n < 10 ^ MOST_SIGNED_DIGITS) }
{
    if !is_numeral(text, most) {
        return None;
    }
    text.parse().ok()
}

fn is_numeral(text: &str, most: usize) -> bool
    ensures { result ≡ is_numeral most text.now }
{
    1 <= text.len() && text.len() <= most && are_digits(text)
}

fn are_digits(text: &str) -> bool
    ensures { result ≡ list_all is_ascii_digit text.now }
{
    text.bytes().all(|b| b.is_ascii_digit())
}
