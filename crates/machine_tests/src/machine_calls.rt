// What the calls of single parts answer, which sources a cache holds, and texts and blocks of some
// size, on the image of the kernel.
ghost use Rattle.std.specs.Prelude.{◌≡◌, ◌<◌};

use crate::machine_tests::{Known, install_many, known, reply_to, send_many};
use chunk_tables::{note, told};
use gem_object::{Oid, Text, Value};
use gem_sound::names::UNDEFINED_OBJECT_CLASS;
use look_up_cache::KnownObjects;
use plain_state::PlainState;
use radix_pages::Steps;
use running_objects::RunsChunks;
use st_commands::Command;
use st_compiler::compile;
use st_locals::frame_without_scopes;
use st_machine::{CodeCache, SharedCode, run_chunk, run_command};
use st_parser::parse_chunk;
use std::alloc::{AllocError, Global};
use std::marker::Brand;
use std::sync::ledger::{Blank, Ledger};
use std::test::Fail;

/// The bytes of the longest text of a script.
const LONGEST: usize = 65_536;

/// Notes a call that isn't answered as it should be.
pub(crate) fn note_unless(wrong: &mut String, call: &str, right: bool) -> Result<(), AllocError> {
    if right {
        return Ok(());
    }
    note(wrong, call)
}

/// Whether the code of `3 + 4` runs to 7.
fn code_runs(
    alloc: Global,
    state: &mut Known<PlainState>,
    cache: &mut CodeCache,
) -> Result<bool, AllocError> {
    let Ok(tree) = parse_chunk(alloc, b"3 + 4".as_slice()) else {
        return Ok(false);
    };
    let code = SharedCode::of(alloc, compile(&tree)?)?;
    Ok(matches!(run_chunk(alloc, state, cache, &code), Ok(Value::Int(7))))
}

/// Whether a command is replied to so.
fn command_replies(
    alloc: Global,
    state: &mut Known<PlainState>,
    cache: &mut CodeCache,
    command: &Command,
    wanted: &str,
) -> Result<bool, AllocError> {
    let reply = run_command(alloc, state, cache, command)?;
    Ok(told(alloc, &reply)?.as_slice() == wanted.as_bytes())
}

/// Whether a chunk, as a command, is replied to so.
fn chunk_replies(
    alloc: Global,
    state: &mut Known<PlainState>,
    cache: &mut CodeCache,
    prints: bool,
    chunk: &str,
    wanted: &str,
) -> Result<bool, AllocError> {
    let text = Text::copy_of(alloc, chunk.as_bytes())?;
    command_replies(
        alloc,
        state,
        cache,
        &Command::Chunk { prints, text },
        wanted,
    )
}

/// Whether a method of Foo, as a command, is replied to so.
fn method_replies(
    alloc: Global,
    state: &mut Known<PlainState>,
    cache: &mut CodeCache,
    source: &str,
    wanted: &str,
) -> Result<bool, AllocError> {
    let command = Command::Method {
        class_side: false,
        class: Text::copy_of(alloc, b"Foo".as_slice())?,
        source: Text::copy_of(alloc, source.as_bytes())?,
    };
    command_replies(alloc, state, cache, &command, wanted)
}

/// So many blanks.
fn blanks(alloc: Global, count: usize) -> Result<String, AllocError> {
    let mut text = String::new(alloc);
    for _blank in 0..count {
        text.push(' ')?;
    }
    Ok(text)
}

/// Calls the single parts.
fn check_parts(
    alloc: Global,
    state: &mut Known<PlainState>,
    cache: &mut CodeCache,
    wrong: &mut String,
) -> Result<(), AllocError> {
    note_unless(wrong, "run_chunk", code_runs(alloc, state, cache)?)
}

/// Runs commands: a chunk that makes a class, a method of it, and a chunk that sends it.
fn check_commands(
    alloc: Global,
    state: &mut Known<PlainState>,
    cache: &mut CodeCache,
    wrong: &mut String,
) -> Result<(), AllocError> {
    let chunk = "Object subclass: #Foo instVarNames: #() inDictionary: UserGlobals";
    let right = chunk_replies(alloc, state, cache, false, chunk, "ok")?;
    note_unless(wrong, chunk, right)?;
    let method = "bar ^3";
    let right = method_replies(alloc, state, cache, method, "method bar")?;
    note_unless(wrong, method, right)?;
    let chunk = "Foo new bar + 4";
    let right = chunk_replies(alloc, state, cache, true, chunk, "7")?;
    note_unless(wrong, chunk, right)
}

/// Runs the longest chunk that a script may have, a method with a long source, and a block with
/// four parameters.
fn check_sizes(
    alloc: Global,
    state: &mut Known<PlainState>,
    cache: &mut CodeCache,
    wrong: &mut String,
) -> Result<(), AllocError> {
    let mut chunk = blanks(alloc, LONGEST - 5)?;
    chunk.push_str("3 + 4")?;
    let right = chunk_replies(alloc, state, cache, true, chunk.as_str(), "7")?;
    note_unless(wrong, "the longest chunk", right)?;
    let mut method = blanks(alloc, 9_000)?;
    method.push_str("wide ^5")?;
    let right = method_replies(alloc, state, cache, method.as_str(), "method wide")?;
    note_unless(wrong, "a long method", right)?;
    let right = chunk_replies(alloc, state, cache, true, "Foo new wide", "5")?;
    note_unless(wrong, "a send of a long method", right)?;
    let block = "[:a :b :c :d | d] numArgs";
    let right = chunk_replies(alloc, state, cache, true, block, "4")?;
    note_unless(wrong, block, right)
}

/// Notes a source that is held, or isn't, where it should be the other way.
fn check_holds(
    alloc: Global,
    cache: &CodeCache,
    source: &str,
    wanted: bool,
    wrong: &mut String,
) -> Result<(), AllocError> {
    let text = Text::copy_of(alloc, source.as_bytes())?;
    note_unless(wrong, source, cache.holds(&text) == wanted)
}

/// Sends methods with sources, one more than the cache keeps: it holds the source of one that was
/// sent, and in the end those of all but the first.
fn check_cache(
    alloc: Global,
    state: &mut Known<PlainState>,
    wrong: &mut String,
) -> Result<(), AllocError> {
    let mut cache = CodeCache::new(alloc)?;
    let class = "Object subclass: #Many instVarNames: #() inDictionary: UserGlobals";
    reply_to(alloc, state, &mut cache, false, class)?;
    install_many(alloc, state)?;
    check_holds(alloc, &cache, "m1 ^1", false, wrong)?;
    reply_to(alloc, state, &mut cache, true, "Many new m1")?;
    check_holds(alloc, &cache, "m1 ^1", true, wrong)?;
    check_holds(alloc, &cache, "m2 ^2", false, wrong)?;
    send_many(alloc, state, &mut cache, wrong)?;
    check_holds(alloc, &cache, "m1 ^1", false, wrong)?;
    check_holds(alloc, &cache, "m2 ^2", true, wrong)?;
    check_holds(alloc, &cache, "m257 ^257", true, wrong)
}

/// The value of a chunk of 65,536 bytes at most, or nil.
pub(crate) fn value_of(
    alloc: Global,
    state: &mut Known<PlainState>,
    cache: &mut CodeCache,
    chunk: &str,
) -> Result<Value, AllocError> {
    if chunk.len() > LONGEST {
        return Ok(Value::Nil);
    }
    state.begin_chunk();
    let Ok(tree) = parse_chunk(alloc, chunk.as_bytes()) else {
        return Ok(Value::Nil);
    };
    let code = SharedCode::of(alloc, compile(&tree)?)?;
    match run_chunk(alloc, state, cache, &code) {
        Ok(value) => Ok(value),
        Err(_) => Ok(Value::Nil),
    }
}

/// Whether it is known, without a look at an object, which method answers this message, and its
/// code is kept.
fn is_kept(
    alloc: Global,
    state: &Known<PlainState>,
    receiver: &Value,
    selector: &str,
) -> Result<bool, AllocError> {
    let holder = Oid::from_parts(0, UNDEFINED_OBJECT_CLASS);
    let frame = frame_without_scopes(alloc, holder, false, Value::Nil, 0);
    let selector = Text::copy_of(alloc, selector.as_bytes())?;
    match state.known_method(&frame, receiver, &selector) {
        Some(at) => Ok(state.code(at).is_some()),
        None => Ok(false),
    }
}

/// Sends a message: from then on it is known which method answers it, with its code, until a class
/// changes.
fn check_kept(
    alloc: Global,
    state: &mut Known<PlainState>,
    cache: &mut CodeCache,
    wrong: &mut String,
) -> Result<(), AllocError> {
    reply_to(
        alloc,
        state,
        cache,
        false,
        "UserGlobals at: #One put: Foo new",
    )?;
    let one = value_of(alloc, state, cache, "One")?;
    note_unless(
        wrong,
        "nothing is kept",
        !is_kept(alloc, state, &one, "bar")?,
    )?;
    reply_to(alloc, state, cache, true, "One bar")?;
    note_unless(wrong, "bar is kept", is_kept(alloc, state, &one, "bar")?)?;
    note_unless(
        wrong,
        "size isn't kept",
        !is_kept(alloc, state, &one, "size")?,
    )?;
    method_replies(alloc, state, cache, "bar ^4", "method bar")?;
    note_unless(
        wrong,
        "nothing is kept now",
        !is_kept(alloc, state, &one, "bar")?,
    )
}

/// Gives the class Foo this method, and the name One to a Foo.
fn prepare_foo(
    alloc: Global,
    state: &mut Known<PlainState>,
    cache: &mut CodeCache,
    method: &str,
    wrong: &mut String,
) -> Result<(), AllocError> {
    let class = "Object subclass: #Foo instVarNames: #() inDictionary: UserGlobals";
    let right = chunk_replies(alloc, state, cache, false, class, "ok")?;
    note_unless(wrong, class, right)?;
    let right = method_replies(alloc, state, cache, method, "method bar")?;
    note_unless(wrong, method, right)?;
    let one = "UserGlobals at: #One put: Foo new";
    let right = chunk_replies(alloc, state, cache, false, one, "ok")?;
    note_unless(wrong, one, right)
}

/// Sends bar to One, of which nothing is known yet: it is answered so, and known from then on.
fn check_bar(
    alloc: Global,
    state: &mut Known<PlainState>,
    cache: &mut CodeCache,
    one: &Value,
    wanted: &str,
    wrong: &mut String,
) -> Result<(), AllocError> {
    let known = is_kept(alloc, state, one, "bar")?;
    note_unless(wrong, "nothing is known yet", !known)?;
    let right = chunk_replies(alloc, state, cache, true, "One bar", wanted)?;
    note_unless(wrong, wanted, right)?;
    let known = is_kept(alloc, state, one, "bar")?;
    note_unless(wrong, "bar is known", known)
}

/// Goes on with other objects: nothing is known any more, and the method of these answers.
fn check_other(
    alloc: Global,
    state: &mut Known<PlainState>,
    cache: &mut CodeCache,
    other: PlainState,
    one: &Value,
    wrong: &mut String,
) -> Result<(), AllocError> {
    let _before = state.go_on(other);
    check_bar(alloc, state, cache, one, "4", wrong)
}

/// Sends bar to One, and again after other objects have come, in which Foo has another method.
fn check_both(
    alloc: Global,
    state: &mut Known<PlainState>,
    cache: &mut CodeCache,
    other: PlainState,
    wrong: &mut String,
) -> Result<(), AllocError> {
    let one = value_of(alloc, state, cache, "One")?;
    check_bar(alloc, state, cache, &one, "3", wrong)?;
    check_other(alloc, state, cache, other, &one, wrong)
}

/// The objects of a transaction in which Foo has this method.
fn objects_with<L: Ledger>(
    alloc: Global,
    cache: &mut CodeCache,
    method: &str,
    steps: &mut Steps<L>,
    wrong: &mut String,
) -> Result<PlainState, AllocError> {
    let mut state = known::<PlainState, L>(alloc, steps)?;
    prepare_foo(alloc, &mut state, cache, method, wrong)?;
    Ok(state.into_objects())
}

/// Goes on with the objects of another transaction.
fn check_going_on<L: Ledger>(
    alloc: Global,
    cache: &mut CodeCache,
    steps: &mut Steps<L>,
    wrong: &mut String,
) -> Result<(), AllocError> {
    let other = objects_with::<L>(alloc, cache, "bar ^4", steps, wrong)?;
    let first = objects_with::<L>(alloc, cache, "bar ^3", steps, wrong)?;
    let mut state = KnownObjects::new(alloc, first);
    check_both(alloc, &mut state, cache, other, wrong)
}

fn check_calls(
    alloc: Global,
    state: &mut Known<PlainState>,
    cache: &mut CodeCache,
    wrong: &mut String,
) -> Result<(), AllocError> {
    check_parts(alloc, state, cache, wrong)?;
    check_commands(alloc, state, cache, wrong)?;
    check_sizes(alloc, state, cache, wrong)?;
    check_kept(alloc, state, cache, wrong)?;
    check_cache(alloc, state, wrong)
}

/// The calls on these objects that aren't answered as they should be.
fn called(alloc: Global, state: &mut Known<PlainState>) -> Result<String, AllocError> {
    let mut wrong = String::new(alloc);
    let mut cache = CodeCache::new(alloc)?;
    check_calls(alloc, state, &mut cache, &mut wrong)?;
    Ok(wrong)
}

/// The calls that aren't answered as they should be.
fn wrong_calls<L: Ledger>(alloc: Global, blank: Blank) -> Result<String, AllocError>
    requires name { blank.name ≡ L.name }
    requires parts { blank.parts ≡ L.parts }
    requires some_parts { 0 < L.parts }
{
    let mut steps = Steps::<L>::start(blank);
    let mut state = known::<PlainState, L>(alloc, &mut steps)?;
    called(alloc, &mut state)
}

/// The answers of One that aren't those of the objects at hand.
fn wrong_objects<L: Ledger>(alloc: Global, blank: Blank) -> Result<String, AllocError>
    requires name { blank.name ≡ L.name }
    requires parts { blank.parts ≡ L.parts }
    requires some_parts { 0 < L.parts }
{
    let mut steps = Steps::<L>::start(blank);
    let mut wrong = String::new(alloc);
    let mut cache = CodeCache::new(alloc)?;
    check_going_on::<L>(alloc, &mut cache, &mut steps, &mut wrong)?;
    Ok(wrong)
}

/// `wrong_calls` with steps that no other call counts.
fn calls_by_brand(alloc: Global) -> Result<String, AllocError> {
    wrong_calls::<Brand>(alloc, Blank::new(1))
}

/// `wrong_objects` in the same way.
fn objects_by_brand(alloc: Global) -> Result<String, AllocError> {
    wrong_objects::<Brand>(alloc, Blank::new(1))
}

#[test]
fn machine_calls(rt: HostRuntime) -> Result<(), Fail> {
    let wrong = calls_by_brand(rt.alloc())?;
    assert_eq!(rt; wrong.as_str(), "");
    Ok(())
}

#[test]
fn other_objects(rt: HostRuntime) -> Result<(), Fail> {
    let wrong = objects_by_brand(rt.alloc())?;
    assert_eq!(rt; wrong.as_str(), "");
    Ok(())
}
