//! Bits of integers in two's complement.
ghost use Rattle.std.specs.Prelude.{◌≡◌, ◌<◌, ◌^◌, pos, negsuc, bit_or, bit_xor};
ghost use Rattle.prim_rules.specs.Numbers.{bits_and, bits_or, bits_xor};
ghost use Rattle.prim_numbers.specs.Operations.{combined_bits};
ghost use Rattle.prim_numbers.specs.Bits.{turned};

use crate::operation::Bitwise;

/// The integer whose bits are such of those of both.
pub(crate) fn combine_bits(combination: Bitwise, number: i64, other: i64) -> i64
    ensures { result ≡ combined_bits combination number other }
{
    match combination {
        Bitwise::And => bits_and(number, other),
        Bitwise::Or => bits_or(number, other),
        Bitwise::Xor => bits_xor(number, other),
    }
}

// A number that isn't negative as it is, and a negative one with its bits turned round.
fn turned(number: i64) -> u64
    ensures turned { result ≡ turned number }
    ensures small { result < 2 ^ 63 }
{
    if number < 0 {
        (-(number + 1)) as u64
    } else {
        number as u64
    }
}

// The integer with these bits, and the negative one whose bits are these turned round.
fn positive(bits: u64) -> i64
    requires { bits < 2 ^ 63 }
    ensures { result ≡ pos bits }
{
    bits as i64
}

fn negative(bits: u64) -> i64
    requires { bits < 2 ^ 63 }
    ensures { result ≡ negsuc bits }
{
    -1 - bits as i64
}

// The bits of at least one of two numbers, and those of just one.
fn either(bits: u64, others: u64) -> u64
    requires one { bits < 2 ^ 63 }
    requires other { others < 2 ^ 63 }
    ensures either { result ≡ bit_or bits others }
    ensures small { result < 2 ^ 63 }
{
    bits | others
}

fn apart(bits: u64, others: u64) -> u64
    requires one { bits < 2 ^ 63 }
    requires other { others < 2 ^ 63 }
    ensures apart { result ≡ bit_xor bits others }
    ensures small { result < 2 ^ 63 }
{
    bits ^ others
}

fn bits_and(number: i64, other: i64) -> i64
    ensures { result ≡ bits_and number other }
{
    let (bits, others) = (turned(number), turned(other));
    let both = bits & others;
    match (number < 0, other < 0) {
        (false, false) => positive(both),
        (false, true) => positive(bits - both),
        (true, false) => positive(others - both),
        (true, true) => negative(either(bits, others)),
    }
}

fn bits_or(number: i64, other: i64) -> i64
    ensures { result ≡ bits_or number other }
{
    let (bits, others) = (turned(number), turned(other));
    let both = bits & others;
    match (number < 0, other < 0) {
        (false, false) => positive(either(bits, others)),
        (false, true) => negative(others - both),
        (true, false) => negative(bits - both),
        (true, true) => negative(both),
    }
}

fn bits_xor(number: i64, other: i64) -> i64
    ensures { result ≡ bits_xor number other }
{
    let bits = apart(turned(number), turned(other));
    match (number < 0, other < 0) {
        (false, false) => positive(bits),
        (false, true) => negative(bits),
        (true, false) => negative(bits),
        (true, true) => positive(bits),
    }
}
