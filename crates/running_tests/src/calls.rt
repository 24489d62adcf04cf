// What the calls of single parts answer, and commands as values, on the image of the kernel.
ghost use Rattle.std.specs.Prelude.{◌≡◌, ◌<◌};

use chunk_tables::{note, told};
use gem_object::{BlockRef, Text, Value};
use kernel_state::begin;
use object_programs::Fault;
use plain_state::PlainState;
use prim_rules::PrimitiveAnswer;
use radix_pages::Steps;
use running_objects::Stop;
use st_commands::{Command, print_value};
use st_parser::parse_chunk;
use st_plain::{run_chunk, run_command};
use std::alloc::{AllocError, Global};
use std::marker::Brand;
use std::sync::ledger::{Blank, Ledger};
use std::test::Fail;

/// Whether the tree of `3 + 4` runs to 7.
fn chunk_runs(alloc: Global, state: &mut PlainState) -> bool {
    match parse_chunk(alloc, b"3 + 4".as_slice()) {
        Ok(tree) => matches!(run_chunk(alloc, state, &tree), Ok(Value::Int(7))),
        Err(_) => false,
    }
}

/// Whether -7 is printed so.
fn value_prints(alloc: Global, state: &mut PlainState) -> bool {
    match print_value(alloc, state, &Value::Int(-7)) {
        Ok(text) => text.bytes() == b"-7".as_slice(),
        Err(_) => false,
    }
}

/// Whether primitive 10 adds 3 and 4.
fn primitive_adds(alloc: Global, state: &mut PlainState) -> bool {
    let arguments = [Value::Int(4)];
    let called = prim_calls::call(alloc, state, 10, &Value::Int(3), &arguments);
    matches!(called, Ok(PrimitiveAnswer::Gives(Value::Int(7))))
}

/// Whether primitive 28 answers a block without parameters, to be evaluated without arguments.
fn primitive_evaluates(alloc: Global, state: &mut PlainState) -> bool {
    let block = BlockRef {
        number: 5,
        params: 0,
    };
    match prim_calls::call(alloc, state, 28, &Value::Block(block), &[]) {
        Ok(PrimitiveAnswer::Evaluates(answer, arguments)) => {
            answer.number == 5 && arguments.is_empty()
        }
        _ => false,
    }
}

/// Whether there is no primitive of this number.
fn primitive_is_none(alloc: Global, state: &mut PlainState, number: u8) -> bool {
    let called = prim_calls::call(alloc, state, number, &Value::Int(3), &[]);
    matches!(called, Err(Stop::Fails(Fault::ArgumentKind)))
}

/// Whether a command is replied to so.
fn command_replies(
    alloc: Global,
    state: &mut PlainState,
    command: &Command,
    wanted: &str,
) -> Result<bool, AllocError> {
    let reply = run_command(alloc, state, command)?;
    Ok(told(alloc, &reply)?.as_slice() == wanted.as_bytes())
}

/// Whether a chunk, as a command, is replied to so.
fn chunk_replies(
    alloc: Global,
    state: &mut PlainState,
    prints: bool,
    chunk: &str,
    wanted: &str,
) -> Result<bool, AllocError> {
    let text = Text::copy_of(alloc, chunk.as_bytes())?;
    command_replies(alloc, state, &Command::Chunk { prints, text }, wanted)
}

/// Whether a method of Foo, as a command, is replied to so.
fn method_replies(
    alloc: Global,
    state: &mut PlainState,
    class_side: bool,
    source: &str,
    wanted: &str,
) -> Result<bool, AllocError> {
    let command = Command::Method {
        class_side,
        class: Text::copy_of(alloc, b"Foo".as_slice())?,
        source: Text::copy_of(alloc, source.as_bytes())?,
    };
    command_replies(alloc, state, &command, wanted)
}

/// Notes a call that isn't answered as it should be.
pub(crate) fn note_unless(wrong: &mut String, call: &str, right: bool) -> Result<(), AllocError> {
    if right {
        return Ok(());
    }
    note(wrong, call)
}

/// Calls the single parts.
fn check_parts(
    alloc: Global,
    state: &mut PlainState,
    wrong: &mut String,
) -> Result<(), AllocError> {
    note_unless(wrong, "run_chunk", chunk_runs(alloc, state))?;
    note_unless(wrong, "print_value", value_prints(alloc, state))?;
    note_unless(wrong, "primitive 10", primitive_adds(alloc, state))?;
    note_unless(wrong, "primitive 28", primitive_evaluates(alloc, state))?;
    note_unless(wrong, "primitive 0", primitive_is_none(alloc, state, 0))?;
    note_unless(wrong, "primitive 97", primitive_is_none(alloc, state, 97))
}

/// Runs commands: a chunk that makes a class, methods of both its sides, and a chunk that sends
/// them.
fn check_commands(
    alloc: Global,
    state: &mut PlainState,
    wrong: &mut String,
) -> Result<(), AllocError> {
    let chunk = "Object subclass: #Foo instVarNames: #() inDictionary: UserGlobals";
    note_unless(
        wrong,
        chunk,
        chunk_replies(alloc, state, false, chunk, "ok")?,
    )?;
    let method = "bar ^3";
    let replies = method_replies(alloc, state, false, method, "method bar")?;
    note_unless(wrong, method, replies)?;
    let method = "baz ^4";
    let replies = method_replies(alloc, state, true, method, "method baz")?;
    note_unless(wrong, method, replies)?;
    let chunk = "Foo new bar + Foo baz";
    note_unless(wrong, chunk, chunk_replies(alloc, state, true, chunk, "7")?)
}

/// The calls on this state that aren't answered as they should be.
fn called(alloc: Global, state: &mut PlainState) -> Result<String, AllocError> {
    let mut wrong = String::new(alloc);
    check_parts(alloc, state, &mut wrong)?;
    check_commands(alloc, state, &mut wrong)?;
    Ok(wrong)
}

/// The calls that aren't answered as they should be.
fn wrong_calls<L: Ledger>(alloc: Global, blank: Blank) -> Result<String, AllocError>
    requires name { blank.name ≡ L.name }
    requires parts { blank.parts ≡ L.parts }
    requires some_parts { 0 < L.parts }
{
    let mut steps = Steps::<L>::start(blank);
    let mut state = begin::<PlainState, L>(alloc, 1, &mut steps)?;
    called(alloc, &mut state)
}

/// `wrong_calls` with steps that no other call counts.
fn calls_by_brand(alloc: Global) -> Result<String, AllocError> {
    wrong_calls::<Brand>(alloc, Blank::new(1))
}

#[test]
fn calls(rt: HostRuntime) -> Result<(), Fail> {
    let wrong = calls_by_brand(rt.alloc())?;
    assert_eq!(rt; wrong.as_str(), "");
    Ok(())
}
