//! Chunks.
ghost use Rattle.std.specs.Prelude.{◌≡◌, [], false, length, None};
ghost use Rattle.gem_object.specs.declared.value.Value.TheVariants.{Nil};
ghost use Rattle.gem_sound.specs.declared.names.TheConstants.{UNDEFINED_OBJECT_CLASS};
ghost use Rattle.tree_meaning.specs.object_programs.Local.{Local, nothing};
ghost use Rattle.tree_meaning.specs.Place.{MadeBlock};
ghost use Rattle.tree_meaning.specs.Bodies.{chunk_body};
ghost use Rattle.tree_meaning.specs.Calls.{activation};
ghost use Rattle.gem_language.specs.Sends.{outside, chunk_value};
ghost use Rattle.running_objects.specs.Ran.{Ran};

use crate::cache::CodeCache;
use crate::ended::Called;
use crate::finds::FindsMethods;
use crate::layers::Layers;
use crate::locals::Locals;
use crate::machine::run_inside;
use crate::outline::Outline;
use crate::returns::end_method;
use crate::shared_code::{Part, SharedCode};
use gem_object::{Oid, Value};
use gem_sound::names::UNDEFINED_OBJECT_CLASS;
use running_objects::{ACTIVATION_LIMIT, Stop};
use std::alloc::Global;

/// How many activations may begin in a chunk, which is the first one itself.
const CALLS_OF_CHUNK: u32 = (ACTIVATION_LIMIT - 1) as u32;

/// Runs a chunk by its code, with nothing local. Methods that it calls leave their code in the
/// cache; whatever the cache holds, the chunk does the same.
///
/// # Errors
///
/// `Fails` with the error by which the chunk ends. `Returns` exactly where the meaning ends so.
/// `NoMemory` where memory ran out; then only what every run keeps is known.
pub fn run_chunk<O: FindsMethods>(
    alloc: Global,
    objects: &mut O,
    cache: &mut CodeCache,
    code: &SharedCode,
) -> Result<Value, Stop>
    requires { code.now.selector ≡ None }
    ensures { (later : Local MadeBlock) × Ran (chunk_value code.now) (O.seen objects.old)
        (nothing MadeBlock) result (O.seen objects.new) later }
{
    let mut locals = Locals::new(alloc);
    run_locally(alloc, objects, &mut locals, cache, code)
}

/// The value of a chunk, from the variables at hand.
pub(crate) fn run_locally<O: FindsMethods>(
    alloc: Global,
    objects: &mut O,
    locals: &mut Locals,
    cache: &mut CodeCache,
    code: &SharedCode,
) -> Result<Value, Stop>
    requires { code.now.selector ≡ None }
    ensures { Ran (chunk_value code.now) (O.seen objects.old) locals.old result
        (O.seen objects.new) locals.new }
{
    activate_chunk(alloc, objects, locals, cache, code, CALLS_OF_CHUNK)
}

/// The activation of a chunk, in which so many more may begin.
fn activate_chunk<O: FindsMethods>(
    alloc: Global,
    objects: &mut O,
    locals: &mut Locals,
    cache: &mut CodeCache,
    code: &SharedCode,
    depth: u32,
) -> Result<Value, Stop>
    requires { code.now.selector ≡ None }
    ensures { Ran (activation (chunk_body (outside depth) code.now) (length code.now.temps)
        UNDEFINED_OBJECT_CLASS false Nil []) (O.seen objects.old) locals.old result
        (O.seen objects.new) locals.new }
{
    let mut why = Stop::NoMemory;
    let mut stack = Layers::new(alloc);
    let mut chain = Layers::new(alloc);
    let mark = locals.mark();
    let holder = Oid::from_parts(0, UNDEFINED_OBJECT_CLASS);
    let frame = Outline::of(alloc, Value::Nil, mark.living, holder, false);
    locals.begin_method(&mut stack, 0, code.temps_count())?;
    let ended = run_inside(
        alloc,
        objects,
        locals,
        &mut stack,
        &mut chain,
        cache,
        &mut why,
        &frame,
        &[],
        mark,
        code,
        Part::Whole,
        depth,
    );
    match end_method(objects, locals, &mut stack, &mut why, mark, ended) {
        Called::Answers => {
            let Some(answer) = stack.pop() else {
                unreachable!()
            };
            Ok(answer)
        }
        Called::Stopped => Err(why),
    }
}
