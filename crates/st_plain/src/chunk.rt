//! Chunks.
ghost use Rattle.std.specs.Prelude.{◌≤◌, ◌^◌, [], false, length};
ghost use Rattle.st_tree.specs.Falls.{size_program};
ghost use Rattle.gem_object.specs.declared.value.Value.TheVariants.{Nil};
ghost use Rattle.gem_sound.specs.declared.names.TheConstants.{UNDEFINED_OBJECT_CLASS};
ghost use Rattle.object_programs.specs.Local.{Local, nothing};
ghost use Rattle.tree_meaning.specs.Place.{MadeBlock};
ghost use Rattle.tree_meaning.specs.Bodies.{chunk_body};
ghost use Rattle.tree_meaning.specs.Calls.{activation};
ghost use Rattle.gem_language.specs.Sends.{outside, chunk_value};
ghost use Rattle.running_objects.specs.Ran.{Ran};

use crate::eval::eval_statements;
use gem_object::{Oid, Value};
use gem_sound::names::UNDEFINED_OBJECT_CLASS;
use object_programs::ACTIVATION_LIMIT;
use running_objects::{Objects, Stop};
use st_commands::leave_method;
use st_locals::{Frame, Locals, Place, method_frame, with_nils};
use st_tree::Tree;
use std::alloc::Global;

/// How many activations may begin in a chunk, which is the first one itself.
const CALLS_OF_CHUNK: u32 = (ACTIVATION_LIMIT - 1) as u32;

/// Runs a chunk by its tree, with nothing local. The tree is no larger than any text below 2^32
/// bytes gives.
///
/// # Errors
///
/// `Fails` with the error by which the chunk ends. `Returns` exactly where the meaning ends so.
/// `NoMemory` where memory ran out; then only what every run keeps is known.
pub fn run_chunk<O: Objects>(alloc: Global, objects: &mut O, tree: &Tree) -> Result<Value, Stop>
    requires { size_program tree.now ≤ 2 ^ 40 }
    ensures { (later : Local MadeBlock) × Ran (chunk_value tree.now) (O.seen objects.old)
        (nothing MadeBlock) result (O.seen objects.new) later }
{
    let mut locals = Locals::new(alloc);
    eval_chunk(alloc, objects, &mut locals, tree)
}

/// The value of a chunk, from the variables at hand.
pub(crate) fn eval_chunk<O: Objects>(
    alloc: Global,
    objects: &mut O,
    locals: &mut Locals,
    tree: &Tree,
) -> Result<Value, Stop>
    requires { size_program tree.now ≤ 2 ^ 40 }
    ensures { Ran (chunk_value tree.now) (O.seen objects.old) locals.old result
        (O.seen objects.new) locals.new }
{
    activate_chunk(alloc, objects, locals, tree, CALLS_OF_CHUNK)
}

/// The activation of a chunk, in which so many more may begin.
fn activate_chunk<O: Objects>(
    alloc: Global,
    objects: &mut O,
    locals: &mut Locals,
    tree: &Tree,
    depth: u32,
) -> Result<Value, Stop>
    requires { size_program tree.now ≤ 2 ^ 40 }
    ensures { Ran (activation (chunk_body (outside depth) tree.now) (length tree.now.temps)
        UNDEFINED_OBJECT_CLASS false Nil []) (O.seen objects.old) locals.old result
        (O.seen objects.new) locals.new }
{
    let mark = locals.mark();
    let holder = Oid::from_parts(0, UNDEFINED_OBJECT_CLASS);
    let frame = method_frame(holder, false, Value::Nil, locals)?;
    locals.begin_method(with_nils(Vec::new(alloc), tree.temps.len())?)?;
    let ended = eval_statements_of_chunk(alloc, objects, locals, &frame, tree, depth);
    leave_method(objects, locals, mark, ended)
}

/// A chunk answers its last statement's value.
#[tactic(auto, using(crate::proofs::Runs::runs), unfolding(tree_meaning::specs::Bodies::chunk_body))]
fn eval_statements_of_chunk<O: Objects>(
    alloc: Global,
    objects: &mut O,
    locals: &mut Locals,
    frame: &Frame,
    tree: &Tree,
    depth: u32,
) -> Result<Value, Stop>
    requires { size_program tree.now ≤ 2 ^ 40 }
    ensures { Ran (chunk_body (outside depth) tree.now frame.now) (O.seen objects.old) locals.old
        result (O.seen objects.new) locals.new }
{
    let place = Place::of_method(tree)?;
    let answer = eval_statements(alloc, objects, locals, &place, frame, &tree.body, depth)?;
    Err(Stop::Returns(answer, frame.home()))
}
