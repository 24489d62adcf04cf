//! Numbers as texts to a base.
ghost use Rattle.std.specs.Prelude.{◌≡◌, ◌≤◌, ◌<◌, ◌++◌, ◌∷◌, [], ℕ, true, unsigned_abs, IfOk, OnOk};
ghost use Rattle.std.specs.Fmt.{digit_glyph, digits_onto};
ghost use Rattle.prim_rules.specs.Texts.{radix_text};
ghost use Rattle.prim_numbers.specs.Radix.{sign_of};

use gem_object::Text;
use std::alloc::{AllocError, Global};

/// No number has more digits.
const MOST_DIGITS: u32 = 64;

/// The number to a base from 2 to 36, with capital digits, and `-` first where it is negative.
pub(crate) fn radix_text(alloc: Global, base: u64, number: i64) -> Result<Text, AllocError>
    requires least { 2 ≤ base }
    requires most { base ≤ 36 }
    ensures { IfOk result (λ text. text ≡ radix_text base number) }
{
    let mut text = Vec::new(alloc);
    push_sign(&mut text, number)?;
    push_digits(&mut text, MOST_DIGITS, base, number.unsigned_abs())?;
    Ok(Text::of(text))
}

// `-` where a number is negative.
fn push_sign(text: &mut Vec<u8>, number: i64) -> Result<(), AllocError>
    ensures { OnOk result (text.new.items ≡ text.old.items ++ sign_of number) }
{
    if number < 0 {
        text.push(b'-')?;
    }
    Ok(())
}

// The digits of a number that has at most so many.
fn push_digits(text: &mut Vec<u8>, most: u32, base: u64, number: u64) -> Result<(), AllocError>
    requires least { 2 ≤ base }
    requires greatest { base ≤ 36 }
    ensures { OnOk result (text.new.items
        ≡ text.old.items ++ digits_onto most base true number []) }
{
    if most == 0 {
        return Ok(());
    }
    let rest = number / base;
    let digit = digit_glyph((number % base) as u8);
    if rest == 0 {
        text.push(digit)?;
        return Ok(());
    }
    push_digits(text, most - 1, base, rest)?;
    text.push(digit)?;
    Ok(())
}

// The digit of a number below 36: 0 to 9, and then capitals.
fn digit_glyph(digit: u8) -> u8
    requires { digit < 36 }
    ensures { result ≡ digit_glyph true digit }
{
    if digit < 10 {
        b'0' + digit
    } else {
        b'A' + (digit - 10)
    }
}
