//! What receivers and arguments are. Nothing here takes memory or looks at objects.
ghost use Rattle.std.specs.Prelude.{◌≡◌};
ghost use Rattle.object_programs.specs.Programs.{need, check};
ghost use Rattle.object_programs.specs.declared.fault.Fault.TheVariants as fault;
ghost use Rattle.prim_rules.specs.Parts.{int_in, character_in, symbol_in, reference_in, block_in, truth, one_of, two_of, three_of, no_arguments};
ghost use Rattle.prim_rules.specs.Receivers.{check_stored};
ghost use Rattle.prim_parts.specs.Does.{Computes, pointed, pointed_two, pointed_three};

use gem_object::{BlockRef, Oid, Text, Value};
use object_programs::Fault;
use running_objects::Stop;

/// What is there, or the error.
pub fn need<T>(fault: Fault, found: Option<T>) -> Result<T, Stop>
    ensures { Computes (need fault found) result }
{
    match found {
        Some(answer) => Ok(answer),
        None => Err(Stop::Fails(fault)),
    }
}

/// The error, unless this holds.
pub fn check(fault: Fault, holds: bool) -> Result<(), Stop>
    ensures { Computes (check fault holds) result }
{
    if holds {
        return Ok(());
    }
    Err(Stop::Fails(fault))
}

/// The integer that a value is; E5 where it is none.
pub fn int_in(value: &Value) -> Result<i64, Stop>
    ensures { Computes (need fault.ArgumentKind (int_in value.now)) result }
{
    match value {
        Value::Int(number) => Ok(*number),
        _ => Err(Stop::Fails(Fault::ArgumentKind)),
    }
}

/// The code of the character that a value is; E5 where it is none.
pub fn character_in(value: &Value) -> Result<u8, Stop>
    ensures { Computes (need fault.ArgumentKind (character_in value.now)) result }
{
    match value {
        Value::Char(code) => Ok(*code),
        _ => Err(Stop::Fails(Fault::ArgumentKind)),
    }
}

/// The text of the symbol that a value is; E5 where it is none.
pub fn symbol_in(value: &Value) -> Result<&Text, Stop>
    ensures { Computes (need fault.ArgumentKind (symbol_in value.now)) (pointed result) }
{
    match value {
        Value::Sym(name) => Ok(name),
        _ => Err(Stop::Fails(Fault::ArgumentKind)),
    }
}

/// The name of the object to which a value refers; E5 where it is no reference.
pub fn reference_in(value: &Value) -> Result<Oid, Stop>
    ensures { Computes (need fault.ArgumentKind (reference_in value.now)) result }
{
    match value {
        Value::Ref(oid) => Ok(*oid),
        _ => Err(Stop::Fails(Fault::ArgumentKind)),
    }
}

/// The block that a value is; E5 where it is none.
pub fn block_in(value: &Value) -> Result<BlockRef, Stop>
    ensures { Computes (need fault.ArgumentKind (block_in value.now)) result }
{
    match value {
        Value::Block(block) => Ok(*block),
        _ => Err(Stop::Fails(Fault::ArgumentKind)),
    }
}

/// The one argument; E5 where there are more or none.
pub fn one_of(arguments: &[Value]) -> Result<&Value, Stop>
    ensures { Computes (need fault.ArgumentKind (one_of arguments.now)) (pointed result) }
{
    match arguments {
        [value] => Ok(value),
        _ => Err(Stop::Fails(Fault::ArgumentKind)),
    }
}

/// The two arguments; E5 where there are more or fewer.
pub fn two_of(arguments: &[Value]) -> Result<(&Value, &Value), Stop>
    ensures { Computes (need fault.ArgumentKind (two_of arguments.now)) (pointed_two result) }
{
    match arguments {
        [first, second] => Ok((first, second)),
        _ => Err(Stop::Fails(Fault::ArgumentKind)),
    }
}

/// The three arguments; E5 where there are more or fewer.
pub fn three_of(arguments: &[Value]) -> Result<(&Value, &Value, &Value), Stop>
    ensures { Computes (need fault.ArgumentKind (three_of arguments.now))
        (pointed_three result) }
{
    match arguments {
        [first, second, third] => Ok((first, second, third)),
        _ => Err(Stop::Fails(Fault::ArgumentKind)),
    }
}

/// E5, unless there are no arguments.
pub fn no_arguments(arguments: &[Value]) -> Result<(), Stop>
    ensures { Computes (no_arguments arguments.now) result }
{
    if arguments.is_empty() {
        return Ok(());
    }
    Err(Stop::Fails(Fault::ArgumentKind))
}

/// E12, where a value that is to be stored is a block.
pub fn check_stored(value: &Value) -> Result<(), Stop>
    ensures { Computes (check_stored value.now) result }
{
    match value {
        Value::Block(_) => Err(Stop::Fails(Fault::BlockStored)),
        _ => Ok(()),
    }
}

/// The value for a truth.
pub fn truth(holds: bool) -> Value
    ensures { result ≡ truth holds }
{
    if holds { Value::True } else { Value::False }
}
