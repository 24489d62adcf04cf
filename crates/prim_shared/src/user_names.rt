//! Names of users.
ghost use Rattle.object_programs.specs.Programs.{need};
ghost use Rattle.object_programs.specs.declared.fault.Fault.TheVariants as fault;
ghost use Rattle.prim_rules.specs.Receivers.{argument_as};
ghost use Rattle.prim_rules.specs.Users.{new_name_in, user_name_in};
ghost use Rattle.prim_parts.specs.Does.{Computes, pointed};

use gem_object::{Text, Value, is_user_name};
use object_programs::Fault;
use prim_parts::{one_of, symbol_in};
use running_objects::Stop;

// The name, where it may be that of a new user; else E5.
fn new_name_in(name: &Text) -> Result<&Text, Stop>
    ensures { Computes (need fault.ArgumentKind (new_name_in name.now)) (pointed result) }
{
    if is_user_name(name.bytes()) {
        return Ok(name);
    }
    Err(Stop::Fails(Fault::ArgumentKind))
}

// The name of a new user that a value gives; E5 where it gives none.
fn user_name_in(value: &Value) -> Result<&Text, Stop>
    ensures { Computes (need fault.ArgumentKind (user_name_in value.now)) (pointed result) }
{
    match value {
        Value::Sym(name) => new_name_in(name),
        _ => Err(Stop::Fails(Fault::ArgumentKind)),
    }
}

/// The name of a new user that the one argument gives; E5 where it gives none.
pub fn user_name_argument(arguments: &[Value]) -> Result<&Text, Stop>
    ensures { Computes (argument_as user_name_in arguments.now) (pointed result) }
{
    user_name_in(one_of(arguments)?)
}
