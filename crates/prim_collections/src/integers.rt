//! The integer that a text says.
ghost use Rattle.std.specs.Prelude.{◌≡◌, ◌-◌, ◌^◌, min, option_map, ℕ, neg_ℤ, pos, cond};
ghost use Rattle.prim_rules.specs.Texts.{digits_in, if_small, integer_in};

use gem_object::{INTEGER_LIMIT, is_small_integer};

/// The integer that a text says: digits, with a `-` before them where it is negative; None where it
/// says none, or one that is none of the language's.
pub fn integer_in(text: &[u8]) -> Option<i64>
    ensures { result ≡ integer_in text.now }
{
    match text {
        [b'-', digits @ ..] => small_of(true, digits_in(digits)?),
        _ => small_of(false, digits_in(text)?),
    }
}

// The number that decimal digits write, or 2^64 - 1 where it is greater; None where there is none,
// or another byte.
fn digits_in(text: &[u8]) -> Option<u64>
    ensures { result ≡ option_map (λ number. min number (2 ^ 64 - 1)) (digits_in text.now) }
{
    if text.is_empty() {
        return None;
    }
    let mut number = 0u64;
    for byte in text {
        if !byte.is_ascii_digit() {
            return None;
        }
        number = number
            .saturating_mul(10)
            .saturating_add(u64::from(*byte - b'0'));
    }
    Some(number)
}

// The integer of this size, where it is one of the language's. A size from 2^64 - 1 on is given as
// that number.
fn small_of(is_negative: bool, size: u64) -> Option<i64>
    ensures { (number : ℕ) → size ≡ min number (2 ^ 64 - 1)
        → result ≡ if_small (cond is_negative (neg_ℤ (pos number)) (pos number)) }
{
    if size > INTEGER_LIMIT {
        return None;
    }
    let number = if is_negative {
        -(size as i64)
    } else {
        size as i64
    };
    if is_small_integer(number) {
        return Some(number);
    }
    None
}
