//! Commands.
ghost use Rattle.std.specs.Prelude.{◌≤◌, ◌^◌};
ghost use Rattle.st_tree.specs.Falls.{size_program};
ghost use Rattle.gem_language.specs.Commands.{run_chunk, chunk_reply};
ghost use Rattle.running_objects.specs.Ran.{Ran};
ghost use Rattle.st_commands.specs.Replies.{said, RepliedBy, Replied};
ghost use Rattle.st_commands.specs.Commands.{command_of};

use crate::chunk::eval_chunk;
use gem_object::Text;
use running_objects::{Objects, Stop};
use st_commands::{
    Command, Reply, SOURCE_LIMIT, install_source, print, reply_to_chunk, reply_to_fault,
};
use st_locals::Locals;
use st_parser::parse_chunk;
use st_tree::Tree;
use std::alloc::{AllocError, Global};

/// Runs a command on these objects, with nothing local. The budget is the one at hand.
///
/// # Errors
///
/// Where memory ran out, or the text has 2^32 bytes or more: then only what every run keeps is
/// known.
pub fn run_command<O: Objects>(
    alloc: Global,
    objects: &mut O,
    command: &Command,
) -> Result<Reply, AllocError>
    ensures { Replied (command_of command.now) (O.seen objects.old) result (O.seen objects.new) }
{
    match command {
        Command::Chunk { prints, text } => run_text(alloc, objects, *prints, text),
        Command::Method {
            class_side,
            class,
            source,
        } => install_source(alloc, objects, *class_side, class, source),
    }
}

/// Runs a chunk of this text, whose value may be printed. Where the text has no tree, nothing is
/// touched.
///
/// # Errors
///
/// Those of `run_command`.
pub fn run_text<O: Objects>(
    alloc: Global,
    objects: &mut O,
    prints: bool,
    text: &Text,
) -> Result<Reply, AllocError>
    ensures { Replied (run_chunk prints text.now) (O.seen objects.old) result
        (O.seen objects.new) }
{
    let bytes = text.bytes();
    if bytes.len() >= SOURCE_LIMIT {
        return Err(AllocError);
    }
    match parse_chunk(alloc, bytes) {
        Ok(tree) => run_read_chunk(alloc, objects, prints, &tree),
        Err(fault) => reply_to_fault(fault),
    }
}

/// The reply to a chunk that was read.
fn run_read_chunk<O: Objects>(
    alloc: Global,
    objects: &mut O,
    prints: bool,
    tree: &Tree,
) -> Result<Reply, AllocError>
    requires { size_program tree.now ≤ 2 ^ 40 }
    ensures { RepliedBy (chunk_reply prints tree.now) (O.seen objects.old) result
        (O.seen objects.new) }
{
    let mut locals = Locals::new(alloc);
    let ended = print_of_chunk(alloc, objects, &mut locals, prints, tree);
    reply_to_chunk(ended)
}

/// What is printed of a chunk's value, if it is to be printed.
fn print_of_chunk<O: Objects>(
    alloc: Global,
    objects: &mut O,
    locals: &mut Locals,
    prints: bool,
    tree: &Tree,
) -> Result<Option<Text>, Stop>
    requires { size_program tree.now ≤ 2 ^ 40 }
    ensures { Ran (chunk_reply prints tree.now) (O.seen objects.old) locals.old (said result)
        (O.seen objects.new) locals.new }
{
    let value = eval_chunk(alloc, objects, locals, tree)?;
    if !prints {
        return Ok(None);
    }
    let text = print(alloc, objects, locals, &value)?;
    Ok(Some(text))
}
