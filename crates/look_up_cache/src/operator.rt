//! What is remembered of operators: that integers answer them by primitives, as they do where no
//! user put other methods in their places.
ghost use Rattle.std.specs.Prelude.{◌≡◌, true, [], ◌∷◌, Some, IfSome, option_map};
ghost use Rattle.gem_object.specs.declared.body.MethodCode.TheVariants.{Primitive};
ghost use Rattle.running_objects.specs.Seen.{Seen};
ghost use Rattle.look_up_cache.specs.Table.{AllHeld};
ghost use Rattle.look_up_cache.specs.Operators.{operator_selector, operator_number, integer_start, IsAnswered};
ghost use Rattle.look_up_cache.specs.Memory.{start_at, IsFound, Holds};

use crate::finding::{is_for, start_of_plain};
use crate::memory::{Beginning, Entry, Memory};
use crate::table::{held_at, put_at};
use gem_object::{MethodCode, Text, Value};

/// An operator that the kernel's integers answer by a primitive, with the number of that.
#[derive(Clone, Copy, Debug, PartialEq, Eq)]
pub enum IntegerOperator {
    Same = 1,
    Equal = 2,
    Add = 10,
    Subtract = 11,
    Multiply = 12,
    Less = 17,
    Greater = 18,
    LessOrEqual = 19,
    GreaterOrEqual = 20,
}

impl IntegerOperator {
    /// The operator with this selector. It takes no memory.
    #[inline(always)]
    pub fn of(selector: &Text) -> Option<IntegerOperator>
        ensures { IfSome result (λ operator. operator_selector operator ≡ selector.now) }
    {
        let bytes = selector.bytes();
        match bytes.len() {
            1 => IntegerOperator::of_byte(bytes[0]),
            2 => IntegerOperator::of_two(bytes[0], bytes[1]),
            _ => None,
        }
    }

    #[inline(always)]
    fn of_byte(byte: u8) -> Option<IntegerOperator>
        ensures { IfSome result (λ operator. operator_selector operator ≡ byte ∷ []) }
    {
        match byte {
            b'=' => Some(IntegerOperator::Equal),
            b'+' => Some(IntegerOperator::Add),
            b'-' => Some(IntegerOperator::Subtract),
            b'*' => Some(IntegerOperator::Multiply),
            b'<' => Some(IntegerOperator::Less),
            b'>' => Some(IntegerOperator::Greater),
            _ => None,
        }
    }

    #[inline(always)]
    fn of_two(first: u8, second: u8) -> Option<IntegerOperator>
        ensures { IfSome result (λ operator. operator_selector operator ≡ first ∷ second ∷ []) }
    {
        if second != b'=' {
            return None;
        }
        match first {
            b'=' => Some(IntegerOperator::Same),
            b'<' => Some(IntegerOperator::LessOrEqual),
            b'>' => Some(IntegerOperator::GreaterOrEqual),
            _ => None,
        }
    }

    /// The number of its primitive.
    #[inline(always)]
    pub fn number(self) -> u8
        ensures { result ≡ operator_number self }
    {
        self as u8
    }
}

/// Where a look-up for an integer found the primitive of its operator, remembers that integers
/// answer the operator so.
pub(crate) fn remember_operator<T>(
    memory: &mut Memory<T>,
    receiver: &Value,
    selector: &Text,
    at: usize,
)
    ensures holds { (seen : Seen) → Holds memory.old seen → Holds memory.new seen }
    ensures methods { memory.new.methods.items ≡ memory.old.methods.items }
{
    if let Some(operator) = answered_at(&memory.methods, receiver, selector, at) {
        put_operator(&mut memory.operators, operator);
    }
}

// The operator that the look-up at a place tells integers to answer by its primitive.
fn answered_at<T>(
    methods: &Vec<Option<Entry<T>>>,
    receiver: &Value,
    selector: &Text,
    at: usize,
) -> Option<IntegerOperator>
    ensures { (seen : Seen) → AllHeld (IsFound seen) methods.now.items
        → IfSome result (λ operator. IsAnswered seen operator) }
{
    let start = start_of_integer(receiver)?;
    let operator = IntegerOperator::of(selector)?;
    let entry = held_at(methods, at)?;
    if is_for(entry, &start, selector) && found_primitive(entry, operator.number()) {
        Some(operator)
    } else {
        None
    }
}

// Where a look-up for an integer begins; None for any other receiver.
fn start_of_integer(receiver: &Value) -> Option<Beginning>
    ensures { IfSome result (λ start. start_at start ≡ integer_start) }
{
    match receiver {
        Value::Int(_) => start_of_plain(receiver),
        _ => None,
    }
}

/// Whether a look-up found the primitive of this number.
pub(crate) fn found_primitive<T>(entry: &Entry<T>, number: u8) -> bool
    ensures { result ≡ true → option_map (λ found. found.code) entry.now.found
        ≡ Some (Primitive number) }
{
    match primitive_of(entry) {
        Some(found) => found == number,
        None => false,
    }
}

// The number of the primitive that a look-up found.
fn primitive_of<T>(entry: &Entry<T>) -> Option<u8>
    ensures { IfSome result (λ number.
        option_map (λ found. found.code) entry.now.found ≡ Some (Primitive number)) }
{
    let found = entry.found.as_ref()?;
    match found.code {
        MethodCode::Primitive(number) => Some(number),
        _ => None,
    }
}

fn put_operator(operators: &mut Vec<Option<IntegerOperator>>, operator: IntegerOperator)
    ensures { (seen : Seen) → IsAnswered seen operator
        → AllHeld (IsAnswered seen) operators.old.items
        → AllHeld (IsAnswered seen) operators.new.items }
{
    let _ = put_at(operators, operator.number() as usize, operator);
}

/// Whether it is remembered that integers answer this operator by its primitive.
#[inline(always)]
pub(crate) fn is_answered(
    operators: &Vec<Option<IntegerOperator>>,
    operator: IntegerOperator,
) -> bool
    ensures { result ≡ true → (seen : Seen) → AllHeld (IsAnswered seen) operators.now.items
        → IsAnswered seen operator }
{
    match held_at(operators, operator.number() as usize) {
        Some(held) => *held == operator,
        None => false,
    }
}
