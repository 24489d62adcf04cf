//! Names, assignments, literals and new blocks.
#![tactic(auto, using(crate::proofs::Runs::runs))]

ghost use Rattle.std.specs.Prelude.{◌≤◌, ◌^◌};
ghost use Rattle.st_tree.specs.Trees.{name};
ghost use Rattle.st_tree.specs.Falls.{size_closure};
ghost use Rattle.st_tree.specs.Views.{constant_of};
ghost use Rattle.tree_meaning.specs.Names.{where_is};
ghost use Rattle.tree_meaning.specs.Scopes.{set_variable};
ghost use Rattle.tree_meaning.specs.Parts.{hand, return_value};
ghost use Rattle.tree_meaning.specs.Meaning.{plain_constant, constant_run, read_where, write_where, assign_all};
ghost use Rattle.tree_meaning.specs.Calls.{make_block};
ghost use Rattle.gem_language.specs.Sends.{outside};
ghost use Rattle.running_objects.specs.Ran.{Ran};

use crate::border::{read_name, write_name};
use gem_object::{Text, Value};
use object_programs::Fault;
use running_objects::{Objects, Stop};
use st_commands::literal;
use st_locals::{Frame, Locals, Place, plain_constant, singleton_value, where_is};
use st_tree::{BlockTree, Literal};
use std::alloc::Global;
use tree_meaning::Where;

/// The value of a name.
#[tactic(auto, using(crate::proofs::Runs::runs), unfolding(gem_language::specs::Sends::outside, tree_meaning::specs::Scopes::variable_value))]
pub(crate) fn name_value<O: Objects>(
    objects: &mut O,
    locals: &Locals,
    place: &Place,
    frame: &Frame,
    name: &Text,
    depth: u32,
) -> Result<Value, Stop>
    ensures { Ran (read_where (outside depth) (where_is name.now place.now.names) name.now
        frame.now) (O.seen objects.old) locals.now result (O.seen objects.new) locals.now }
{
    match where_is(name, place) {
        Where::Receiver => Ok(frame.receiver().clone()?),
        Where::Fixed(always) => Ok(singleton_value(always)),
        Where::Variable(depth, index) => Ok(locals.value_at(frame, depth, index)?),
        Where::OutOfScope => read_name(objects, locals, name, frame),
    }
}

/// Assignments, from right to left; the answer is the value.
pub(crate) fn assign_all<O: Objects>(
    objects: &mut O,
    locals: &mut Locals,
    place: &Place,
    frame: &Frame,
    names: &[Text],
    mut value: Value,
    depth: u32,
) -> Result<Value, Stop>
    ensures { Ran (assign_all (outside depth) names.now place.now frame.now value)
        (O.seen objects.old) locals.old result (O.seen objects.new) locals.new }
{
    let mut rest = names;
    while let Some((last, before)) = rest.split_last() {
        value = assign(objects, locals, place, frame, last, value, depth)?;
        rest = before;
    }
    Ok(value)
}

/// An assignment to one name.
#[tactic(auto, using(crate::proofs::Runs::runs), unfolding(gem_language::specs::Sends::outside))]
fn assign<O: Objects>(
    objects: &mut O,
    locals: &mut Locals,
    place: &Place,
    frame: &Frame,
    name: &Text,
    value: Value,
    depth: u32,
) -> Result<Value, Stop>
    ensures { Ran (write_where (outside depth) (where_is name.now place.now.names) name.now
        frame.now value) (O.seen objects.old) locals.old result (O.seen objects.new) locals.new }
{
    match where_is(name, place) {
        Where::Variable(depth, index) => set_variable(objects, locals, frame, depth, index, value),
        Where::Receiver => write_name(objects, locals, name, frame, value),
        Where::Fixed(_) => write_name(objects, locals, name, frame, value),
        Where::OutOfScope => write_name(objects, locals, name, frame, value),
    }
}

/// Stores a value in a variable, and answers it.
#[tactic(auto, using(crate::proofs::Runs::runs), unfolding(tree_meaning::specs::Scopes::set_variable))]
fn set_variable<O: Objects>(
    objects: &O,
    locals: &mut Locals,
    frame: &Frame,
    depth: usize,
    index: usize,
    value: Value,
) -> Result<Value, Stop>
    ensures { Ran (set_variable frame.now depth index value) (O.seen objects.now) locals.old result
        (O.seen objects.now) locals.new }
{
    let answer = value.clone()?;
    locals.set_value(frame, depth, index, value);
    Ok(answer)
}

/// The first parameter is handed a value, where there are both.
pub(crate) fn hand<O: Objects>(
    objects: &O,
    locals: &mut Locals,
    params: &[Text],
    handed: Option<Value>,
    frame: &Frame,
) -> Result<Value, Stop>
    ensures { Ran (hand params.now handed frame.now) (O.seen objects.now) locals.old result
        (O.seen objects.now) locals.new }
{
    let Some(_) = params.split_first() else {
        return Ok(Value::Nil);
    };
    match handed {
        Some(value) => set_variable(objects, locals, frame, 0, 0, value),
        None => Ok(Value::Nil),
    }
}

/// An answer by `^`: E8 in a block whose method has ended.
pub(crate) fn return_value<O: Objects>(
    objects: &O,
    locals: &Locals,
    place: &Place,
    frame: &Frame,
    answer: Value,
) -> Result<Value, Stop>
    ensures { Ran (return_value place.now.in_block frame.now answer) (O.seen objects.now)
        locals.now result (O.seen objects.now) locals.now }
{
    if place.is_in_block() {
        if !locals.is_living(frame.home()) {
            return Err(Stop::Fails(Fault::DeadHome));
        }
        return Err(Stop::Returns(answer, frame.home()));
    }
    Err(Stop::Returns(answer, frame.home()))
}

/// The value of a literal.
#[tactic(auto, using(crate::proofs::Runs::runs), unfolding(gem_language::specs::Sends::outside))]
pub(crate) fn constant_value<O: Objects>(
    alloc: Global,
    objects: &mut O,
    locals: &Locals,
    tree: &Literal,
    depth: u32,
) -> Result<Value, Stop>
    ensures { Ran (constant_run (outside depth) (plain_constant (constant_of tree.now))
        (constant_of tree.now)) (O.seen objects.old) locals.now result (O.seen objects.new)
        locals.now }
{
    match plain_constant(tree)? {
        Some(value) => Ok(value),
        None => literal(alloc, objects, locals, tree),
    }
}

/// A new block.
#[tactic(auto, using(crate::proofs::Runs::runs), unfolding(tree_meaning::specs::Calls::make_block))]
pub(crate) fn make_block<O: Objects>(
    objects: &O,
    locals: &mut Locals,
    place: &Place,
    frame: &Frame,
    tree: &BlockTree,
) -> Result<Value, Stop>
    requires { size_closure tree.now ≤ 2 ^ 40 }
    ensures { Ran (make_block tree.now place.now frame.now) (O.seen objects.now) locals.old result
        (O.seen objects.now) locals.new }
{
    Ok(locals.make_block(tree, place, frame)?)
}
