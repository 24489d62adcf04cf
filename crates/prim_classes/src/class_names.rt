//! Which names classes and their instance variables may have.
ghost use Rattle.std.specs.Prelude.{◌≡◌, ◌+◌, nat_le, length, IfOk};
ghost use Rattle.std.specs.List.{list_all, list_any};
ghost use Rattle.object_programs.specs.Programs.{need};
ghost use Rattle.object_programs.specs.declared.fault.Fault.TheVariants as fault;
ghost use Rattle.gem_object.specs.texts.Names.{is_name};
ghost use Rattle.gem_sound.specs.declared.limits.TheConstants.{NAMES_LIMIT};
ghost use Rattle.prim_rules.specs.Classes.{begins_with_capital, class_name_in, may_have_subclasses, symbols_in, is_one_of, are_distinct, may_be_named, may_add_names};
ghost use Rattle.prim_parts.specs.Does.{Computes, pointed};

use gem_object::{Kind, Names, Sequence, Text, Value, is_name};
use gem_sound::NAMES_LIMIT;
use object_programs::Fault;
use prim_parts::symbol_in;
use running_objects::Stop;
use std::alloc::{AllocError, Global};

fn begins_with_capital(name: &[u8]) -> bool
    ensures { result ≡ begins_with_capital name.now }
{
    let Some((first, _)) = name.split_first() else {
        return false;
    };
    first.is_ascii_uppercase()
}

/// The name that a class may have which a value gives: an identifier with a capital first, as a
/// symbol; E5 where it gives none.
pub fn class_name_in(value: &Value) -> Result<&Text, Stop>
    ensures { Computes (need fault.ArgumentKind (class_name_in value.now)) (pointed result) }
{
    let Value::Sym(name) = value else {
        return Err(Stop::Fails(Fault::ArgumentKind));
    };
    if begins_with_capital(name.bytes()) && is_name(name.bytes()) {
        return Ok(name);
    }
    Err(Stop::Fails(Fault::ArgumentKind))
}

/// Whether classes may be put under a class of this kind.
pub fn may_have_subclasses(kind: Kind) -> bool
    ensures { result ≡ may_have_subclasses kind }
{
    match kind {
        Kind::None | Kind::Segment | Kind::User => false,
        Kind::Plain | Kind::Indexed | Kind::Bytes | Kind::Dict => true,
        Kind::Counter | Kind::Bag | Kind::RcDict | Kind::Queue => true,
    }
}

/// The texts of values that are all symbols; None where one isn't.
pub fn symbols_in(alloc: Global, values: &[Value]) -> Result<Option<Names>, AllocError>
    ensures { IfOk result (λ names. names ≡ symbols_in values.now) }
{
    let mut names = Vec::new(alloc);
    for value in values {
        let Value::Sym(name) = value else {
            return Ok(None);
        };
        names.push(name.clone()?)?;
    }
    Ok(Some(Sequence::of(names)))
}

// Whether a name is one of these.
fn is_one_of(names: &[Text], name: &Text) -> bool
    ensures { result ≡ is_one_of names.now name.now }
{
    names.iter().any(|other| name.bytes() == other.bytes())
}

// Whether no name stands twice.
fn are_distinct(names: &[Text]) -> bool
    ensures { result ≡ are_distinct names.now }
{
    for at in 0..names.len() {
        if is_one_of(&names[at + 1..], &names[at]) {
            return false;
        }
    }
    true
}

// Whether all are names.
fn all_names(names: &[Text]) -> bool
    ensures { result ≡ list_all is_name names.now }
{
    names.iter().all(|name| is_name(name.bytes()))
}

// Whether one of the names is among those that are inherited.
fn has_inherited(inherited: &[Text], names: &[Text]) -> bool
    ensures { result ≡ list_any (is_one_of inherited.now) names.now }
{
    names.iter().any(|name| is_one_of(inherited, name))
}

// Whether the instances of a class of this kind may have names of instance variables.
fn may_be_named(kind: Kind, names: &[Text]) -> bool
    ensures { result ≡ may_be_named kind names.now }
{
    names.is_empty() || matches!(kind, Kind::Plain | Kind::Indexed)
}

/// Whether a class of this kind that inherits names may add these.
pub fn may_add_names(kind: Kind, inherited: &[Text], names: &[Text]) -> bool
    ensures { result ≡ may_add_names kind inherited.now names.now }
{
    if !are_few(inherited, names) {
        return false;
    }
    all_names(names)
        && are_distinct(names)
        && !has_inherited(inherited, names)
        && may_be_named(kind, names)
}

fn are_few(inherited: &[Text], names: &[Text]) -> bool
    ensures { result ≡ nat_le (length inherited.now + length names.now) NAMES_LIMIT }
{
    (inherited.len() as u64).saturating_add(names.len() as u64) <= NAMES_LIMIT
}
