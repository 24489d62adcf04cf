//! The lines that a script may have outside its chunks.
ghost use Rattle.std.specs.Prelude.{◌≡◌, ◌∷◌, [], codes, IfOk, MatchOption};
ghost use Rattle.texts.specs.Bytes.{Bytes};
ghost use Rattle.shell_words.specs.Lines.{line_words};
ghost use Rattle.texts.specs.Names.{is_name};
ghost use Rattle.shell_words.specs.Reading.{SaysNothing, LineSays};

use crate::pieces::split_word;
use crate::script::Command;
use std::alloc::{AllocError, Global};
use texts::{Text, is_name};

// How a chunk begins.
#[derive(Drop)]
pub(crate) enum Opening {
    // `printit` where `prints` is true, otherwise `run`.
    Chunk { prints: bool },
    // `classmethod: NAME` where `class_side` is true, otherwise `method: NAME`.
    Method { class_side: bool, class: Text },
}

// A line of a script outside its chunks.
#[derive(Drop)]
pub(crate) enum ScriptLine {
    // `session NAME`, which begins a session of this user.
    Session(Text),
    // The first line of a chunk.
    Opening(Opening),
    // A command of one line.
    Command(Command),
}

// What the line says, or `None` where it is none of the table's.
pub(crate) fn line_of(alloc: Global, line: &[u8]) -> Result<Option<ScriptLine>, AllocError>
    ensures { IfOk result (λ found. MatchOption found (SaysNothing line.now) (LineSays line.now)) }
{
    let (first, rest) = split_word(line);
    let Some(rest) = rest else {
        return Ok(word_line(first));
    };
    let (second, rest) = split_word(rest);
    let Some(rest) = rest else {
        return name_line(alloc, first, second);
    };
    let (third, rest) = split_word(rest);
    match rest {
        None => lock_line(alloc, first, second, third),
        Some(_) => Ok(None),
    }
}

fn word_line(word: &[u8]) -> Option<ScriptLine>
    ensures { (line : Bytes) → line_words line ≡ word.now ∷ []
        → MatchOption result (SaysNothing line) (LineSays line) }
{
    if word == b"printit".as_slice() {
        Some(ScriptLine::Opening(Opening::Chunk { prints: true }))
    } else if word == b"run".as_slice() {
        Some(ScriptLine::Opening(Opening::Chunk { prints: false }))
    } else if word == b"commit".as_slice() {
        Some(ScriptLine::Command(Command::Commit))
    } else if word == b"abort".as_slice() {
        Some(ScriptLine::Command(Command::Abort))
    } else if word == b"logout".as_slice() {
        Some(ScriptLine::Command(Command::Logout))
    } else if word == b"checkpoint".as_slice() {
        Some(ScriptLine::Command(Command::Checkpoint))
    } else {
        None
    }
}

fn name_line(alloc: Global, word: &[u8], name: &[u8]) -> Result<Option<ScriptLine>, AllocError>
    ensures { (line : Bytes) → line_words line ≡ word.now ∷ name.now ∷ []
        → IfOk result (λ found. MatchOption found (SaysNothing line) (LineSays line)) }
{
    if word == b"session".as_slice() {
        return session_line(alloc, name);
    }
    if word == b"mode".as_slice() {
        return Ok(mode_line(name));
    }
    if !is_name(name) {
        return Ok(None);
    }
    let name = Text::copy_of(alloc, name)?;
    if word == b"method:".as_slice() {
        Ok(Some(ScriptLine::Opening(Opening::Method {
            class_side: false,
            class: name,
        })))
    } else if word == b"classmethod:".as_slice() {
        Ok(Some(ScriptLine::Opening(Opening::Method {
            class_side: true,
            class: name,
        })))
    } else if word == b"unlock".as_slice() {
        Ok(Some(ScriptLine::Command(Command::Unlock { name })))
    } else {
        Ok(None)
    }
}

fn session_line(alloc: Global, name: &[u8]) -> Result<Option<ScriptLine>, AllocError>
    ensures { (line : Bytes) → line_words line ≡ codes "session" ∷ name.now ∷ []
        → IfOk result (λ found. MatchOption found (SaysNothing line) (LineSays line)) }
{
    if name.is_empty() {
        return Ok(None);
    }
    Ok(Some(ScriptLine::Session(Text::copy_of(alloc, name)?)))
}

fn mode_line(name: &[u8]) -> Option<ScriptLine>
    ensures { (line : Bytes) → line_words line ≡ codes "mode" ∷ name.now ∷ []
        → MatchOption result (SaysNothing line) (LineSays line) }
{
    if name == b"full_checks".as_slice() {
        Some(ScriptLine::Command(Command::Mode { full: true }))
    } else if name == b"no_rw_checks".as_slice() {
        Some(ScriptLine::Command(Command::Mode { full: false }))
    } else {
        None
    }
}

fn lock_line(
    alloc: Global,
    word: &[u8],
    mode: &[u8],
    name: &[u8],
) -> Result<Option<ScriptLine>, AllocError>
    ensures { (line : Bytes) → line_words line ≡ word.now ∷ mode.now ∷ name.now ∷ []
        → IfOk result (λ found. MatchOption found (SaysNothing line) (LineSays line)) }
{
    if word != b"lock".as_slice() || !is_name(name) {
        return Ok(None);
    }
    let name = Text::copy_of(alloc, name)?;
    if mode == b"write".as_slice() {
        Ok(Some(ScriptLine::Command(Command::Lock { write: true, name })))
    } else if mode == b"read".as_slice() {
        Ok(Some(ScriptLine::Command(Command::Lock { write: false, name })))
    } else {
        Ok(None)
    }
}
