//! Arithmetic of integers.
ghost use Rattle.std.specs.Prelude.{◌≡◌, ◌≢◌, ◌+ℤ◌, ◌-ℤ◌, ◌*ℤ◌, pos};
ghost use Rattle.prim_rules.specs.Numbers.{floor_quotient, floor_remainder, shifted, in_range, divided};
ghost use Rattle.prim_parts.specs.Does.{Computes};
ghost use Rattle.prim_numbers.specs.Operations.{division_result, compares, operation_rule};

use crate::bits::combine_bits;
use crate::operation::{Comparison, Division, Operation};
use gem_object::{LARGEST_INTEGER, SMALLEST_INTEGER, Value};
use object_programs::Fault;
use prim_parts::truth;
use running_objects::Stop;

/// By how many places a shift moves at most: more give no other answer.
const MOST_SHIFT: u64 = 61;

/// What the operation comes to.
#[inline(always)]
pub(crate) fn operate(operation: Operation, number: i64, other: i64) -> Result<Value, Stop>
    ensures { Computes (operation_rule operation number other) result }
{
    match operation {
        Operation::Add => add(number, other),
        Operation::Subtract => subtract(number, other),
        Operation::Multiply => multiply(number, other),
        Operation::Divide(division) => divide(division, number, other),
        Operation::Compare(comparison) => Ok(truth(compares(comparison, number, other))),
        Operation::CombineBits(combination) => {
            Ok(Value::Int(combine_bits(combination, number, other)))
        }
        Operation::Shift => shift(number, other),
    }
}

// The integer, or E6 where it isn't one of the language's.
#[inline(always)]
fn in_range(number: i128) -> Result<Value, Stop>
    ensures { Computes (in_range number) result }
{
    if i128::from(SMALLEST_INTEGER) <= number && number <= i128::from(LARGEST_INTEGER) {
        return Ok(Value::Int(number as i64));
    }
    Err(Stop::Fails(Fault::IntegerRange))
}

#[inline(always)]
pub(crate) fn add(number: i64, other: i64) -> Result<Value, Stop>
    ensures { Computes (in_range (number +ℤ other)) result }
{
    let Some(sum) = number.checked_add(other) else {
        return Err(Stop::Fails(Fault::IntegerRange));
    };
    in_range(i128::from(sum))
}

#[inline(always)]
pub(crate) fn subtract(number: i64, other: i64) -> Result<Value, Stop>
    ensures { Computes (in_range (number -ℤ other)) result }
{
    let Some(difference) = number.checked_sub(other) else {
        return Err(Stop::Fails(Fault::IntegerRange));
    };
    in_range(i128::from(difference))
}

#[inline(always)]
pub(crate) fn multiply(number: i64, other: i64) -> Result<Value, Stop>
    ensures { Computes (in_range (number *ℤ other)) result }
{
    let Some(product) = number.checked_mul(other) else {
        return Err(Stop::Fails(Fault::IntegerRange));
    };
    in_range(i128::from(product))
}

#[inline(never)]
fn shift(number: i64, count: i64) -> Result<Value, Stop>
    ensures { Computes (in_range (shifted number count)) result }
{
    in_range(shifted(number, count))
}

// E7 where the divisor is 0.
#[inline(always)]
pub(crate) fn divide(division: Division, number: i64, divisor: i64) -> Result<Value, Stop>
    ensures { Computes (divided (division_result division) number divisor) result }
{
    if divisor == 0 {
        return Err(Stop::Fails(Fault::ZeroDivisor));
    }
    divide_by(division, number, divisor)
}

#[inline(always)]
fn divide_by(division: Division, number: i64, divisor: i64) -> Result<Value, Stop>
    requires { divisor ≢ pos 0 }
    ensures { Computes (in_range (division_result division number divisor)) result }
{
    in_range(division_result(division, number, divisor))
}

// It is never inlined: so a division's answer needs no place in memory.
#[inline(never)]
fn division_result(division: Division, number: i64, divisor: i64) -> i128
    requires { divisor ≢ pos 0 }
    ensures { result ≡ division_result division number divisor }
{
    match division {
        Division::FloorQuotient => floor_quotient(number, divisor),
        Division::FloorRemainder => floor_remainder(number, divisor),
        Division::Quotient => i128::from(number) / i128::from(divisor),
        Division::Remainder => i128::from(number) % i128::from(divisor),
    }
}

fn floor_quotient(number: i64, divisor: i64) -> i128
    requires { divisor ≢ pos 0 }
    ensures { result ≡ floor_quotient number divisor }
{
    let (number, divisor) = (i128::from(number), i128::from(divisor));
    if divisor < 0 {
        (-number).div_euclid(-divisor)
    } else {
        number.div_euclid(divisor)
    }
}

fn floor_remainder(number: i64, divisor: i64) -> i128
    requires { divisor ≢ pos 0 }
    ensures { result ≡ floor_remainder number divisor }
{
    let (number, divisor) = (i128::from(number), i128::from(divisor));
    if divisor < 0 {
        -((-number).rem_euclid(-divisor))
    } else {
        number.rem_euclid(divisor)
    }
}

#[inline(always)]
pub(crate) fn compares(comparison: Comparison, number: i64, other: i64) -> bool
    ensures { result ≡ compares comparison number other }
{
    match comparison {
        Comparison::Less => number < other,
        Comparison::Greater => number > other,
        Comparison::LessOrEqual => number <= other,
        Comparison::GreaterOrEqual => number >= other,
    }
}

// A number times a power of two, or divided by one and rounded down.
fn shifted(number: i64, count: i64) -> i128
    ensures { result ≡ shifted number count }
{
    let places = count.unsigned_abs().min(MOST_SHIFT) as u32;
    if count < 0 {
        return i128::from(number) >> places;
    }
    i128::from(number) * i128::from(1u64 << places)
}
