//! The reader of scripts, line by line.
ghost use Rattle.std.specs.Prelude.{◌≡◌, ℕ, ◌+◌, ◌<◌, ◌≤◌, true, List, [], ◌∷◌, ◌++◌, length, IsSome, None, IfSome, IfOk, IfErr, OnOk, IsErrOf, MatchOption, MatchResult};
ghost use Rattle.std.specs.List.{AllByRecursion, list_all};
ghost use Rattle.texts.specs.Bytes.{Bytes};
ghost use Rattle.shell_words.specs.declared.limits.TheConstants.{COMMAND_LIMIT, SCRIPT_LIMIT};
ghost use Rattle.shell_words.specs.declared.fault.ScriptFault.TheVariants.{NoMemory};
ghost use Rattle.shell_words.specs.Lines.{lines_of};
ghost use Rattle.texts.specs.Names.{is_user_name};
ghost use Rattle.shell_words.specs.Script.{HasShortText, is_logout, with_next_command};
ghost use Rattle.shell_words.specs.ScriptGrammar.{BeginsSession, Adds, Leads, ReadsScript, HasOtherByte, IsPlain, is_script_byte};
ghost use Rattle.shell_words.specs.Rules.{IsScriptFault};
ghost use Rattle.shell_words.specs.Reading.{command_of, LineSays, sessions_of, IsDraft, IsReading, FaultAt, FaultIn};

use crate::fault::ScriptFault;
use crate::limits::{CHUNK_LIMIT, SCRIPT_LIMIT, SESSION_LIMIT};
use crate::pieces::{split_body, split_line};
use crate::rule::ScriptRule;
use crate::script::{Command, Script, SessionScript};
use crate::table::{Opening, ScriptLine, line_of};
use std::alloc::{AllocError, Global};
use texts::{Text, is_user_name};

// A session that takes commands.
#[derive(Drop)]
struct Draft {
    user: Text,
    commands: Vec<Command>,
}

// The sessions of the lines read so far: those that have ended, and the one that takes commands.
#[derive(Drop)]
struct Reading {
    lines: u32,
    ended: Vec<SessionScript>,
    current: Option<Draft>,
}

/// Reads a script. The text may have any bytes.
///
/// # Errors
/// `Rule` exactly where the text is no script: the line and the rule that it breaks first.
/// `NoMemory` where memory ran out; a text that is too long or has another byte is told in any case.
pub fn read_script(alloc: Global, text: &[u8]) -> Result<Script, ScriptFault>
    ensures read { MatchResult result (ReadsScript text.now) (IsScriptFault text.now) }
    ensures memory { IsErrOf result NoMemory → (length text.now ≤ SCRIPT_LIMIT)
        × AllByRecursion IsPlain (lines_of text.now) }
{
    if text.len() > SCRIPT_LIMIT {
        return Err(ScriptFault::too_long());
    }
    if let Some(line) = other_byte(text) {
        return Err(ScriptFault::Rule {
            line,
            rule: ScriptRule::ScriptBytes,
        });
    }
    read_lines(alloc, text)
}

// The number of the first line with a byte that no script has.
fn other_byte(text: &[u8]) -> Option<u32>
    requires { length text.now ≤ SCRIPT_LIMIT }
    ensures { MatchOption result (AllByRecursion IsPlain (lines_of text.now))
        (HasOtherByte (lines_of text.now)) }
{
    let mut number = 0;
    let mut rest = text;
    while !rest.is_empty() {
        let (line, after) = split_line(rest);
        number += 1;
        if !is_plain(line) {
            return Some(number);
        }
        rest = after;
    }
    None
}

fn is_plain(line: &[u8]) -> bool
    ensures { result ≡ list_all is_script_byte line.now }
{
    line.iter().all(|byte| is_script_byte(*byte))
}

fn is_script_byte(byte: u8) -> bool
    ensures { result ≡ is_script_byte byte }
{
    (32..=126).contains(&byte) || byte == b'\t' || byte == b'\n' || byte == b'\r'
}

fn read_lines(alloc: Global, text: &[u8]) -> Result<Script, ScriptFault>
    requires { length text.now ≤ SCRIPT_LIMIT }
    ensures { MatchResult result (λ script. Leads [] (lines_of text.now) script [])
        (FaultIn (lines_of text.now)) }
{
    let mut reading = Reading {
        lines: 0,
        ended: Vec::new(alloc),
        current: None,
    };
    let mut rest = text;
    while !rest.is_empty() {
        let (line, after) = split_line(rest);
        rest = reading.read_line(alloc, line, after)?;
    }
    reading.close()?;
    Ok(Script::of(reading.ended))
}

impl Reading {
    // Reads the line, and where it begins a chunk the chunk. What follows is left.
    fn read_line<'a>(
        &mut self,
        alloc: Global,
        line: &[u8],
        after: &'a [u8],
    ) -> Result<&'a [u8], ScriptFault>
        requires reading { IsReading self.old }
        requires size { length line.now ≤ SCRIPT_LIMIT }
        requires count { self.old.lines + length (lines_of after.now) < SCRIPT_LIMIT }
        ensures ok { IfOk result (λ rest. Adds
            (sessions_of self.old) (line.now ∷ lines_of after.now)
            (sessions_of self.new) (lines_of rest.now)) }
        ensures reading { OnOk result (IsReading self.new) }
        ensures lines { IfOk result (λ rest. self.new.lines + length (lines_of rest.now)
            ≡ self.old.lines + 1 + length (lines_of after.now)) }
        ensures shorter { IfOk result (λ rest. length rest.now ≤ length after.now) }
        ensures err { IfErr result (FaultAt (self.old.lines + 1) (sessions_of self.old) line.now
            (lines_of after.now)) }
    {
        let number = self.lines + 1;
        if line.is_empty() {
            self.lines = number;
            return Ok(after);
        }
        match line_of(alloc, line)? {
            None => Err(ScriptFault::Rule {
                line: number,
                rule: ScriptRule::KnownLine,
            }),
            Some(ScriptLine::Session(user)) => {
                self.begin(alloc, user)?;
                Ok(after)
            }
            Some(ScriptLine::Command(command)) => {
                if self.current.is_none() {
                    return Err(ScriptFault::Rule {
                        line: number,
                        rule: ScriptRule::InSession,
                    });
                }
                self.order(command, 1)?;
                Ok(after)
            }
            Some(ScriptLine::Opening(opening)) => self.read_chunk(alloc, opening, after),
        }
    }

    // Reads the rest of a chunk whose first line was read. What follows the chunk is left.
    fn read_chunk<'a>(
        &mut self,
        alloc: Global,
        opening: Opening,
        after: &'a [u8],
    ) -> Result<&'a [u8], ScriptFault>
        requires reading { IsReading self.old }
        requires name { HasShortText (command_of opening []) }
        requires count { self.old.lines + length (lines_of after.now) < SCRIPT_LIMIT }
        ensures ok { (line : Bytes) → LineSays line (ScriptLine.Opening opening)
            → IfOk result (λ rest. Adds
            (sessions_of self.old) (line ∷ lines_of after.now)
            (sessions_of self.new) (lines_of rest.now)) }
        ensures reading { OnOk result (IsReading self.new) }
        ensures lines { IfOk result (λ rest. self.new.lines + length (lines_of rest.now)
            ≡ self.old.lines + 1 + length (lines_of after.now)) }
        ensures shorter { IfOk result (λ rest. length rest.now ≤ length after.now) }
        ensures err { (line : Bytes) → LineSays line (ScriptLine.Opening opening)
            → IfErr result (FaultAt (self.old.lines + 1) (sessions_of self.old) line
            (lines_of after.now)) }
    {
        let line = self.lines + 1;
        if self.current.is_none() {
            return Err(ScriptFault::Rule {
                line,
                rule: ScriptRule::InSession,
            });
        }
        let Some(body) = split_body(alloc, after)? else {
            return Err(ScriptFault::Rule {
                line,
                rule: ScriptRule::ChunkEnd,
            });
        };
        if body.text.len() > CHUNK_LIMIT {
            return Err(ScriptFault::Rule {
                line,
                rule: ScriptRule::ChunkSize,
            });
        }
        self.order(command_of(opening, Text::of(body.text)), 1 + body.lines)?;
        Ok(body.rest)
    }

    // Gives the open session a command, which takes so many lines.
    fn order(&mut self, command: Command, lines: u32) -> Result<(), AllocError>
        requires reading { IsReading self.old }
        requires current { IsSome self.old.current }
        requires short { HasShortText command }
        requires some { 0 < lines }
        requires count { self.old.lines + lines ≤ SCRIPT_LIMIT }
        ensures sessions { OnOk result (sessions_of self.new
            ≡ with_next_command (sessions_of self.old) command) }
        ensures reading { OnOk result (IsReading self.new) }
        ensures lines { OnOk result (self.new.lines ≡ self.old.lines + lines) }
    {
        let Some(mut draft) = self.current.take() else {
            unreachable!()
        };
        let ends = is_logout(&command);
        draft.commands.push(command)?;
        self.lines += lines;
        self.current = Some(draft);
        if ends {
            self.close()?;
        }
        Ok(())
    }

    // Begins a session, and ends the one that is open.
    fn begin(&mut self, alloc: Global, user: Text) -> Result<(), ScriptFault>
        requires reading { IsReading self.old }
        requires count { self.old.lines < SCRIPT_LIMIT }
        ensures user { OnOk result (is_user_name user ≡ true) }
        ensures room { OnOk result (length (sessions_of self.old) < SESSION_LIMIT) }
        ensures sessions { OnOk result (sessions_of self.new
            ≡ sessions_of self.old ++ record { user = user; commands = [] } ∷ []) }
        ensures reading { OnOk result (IsReading self.new) }
        ensures lines { OnOk result (self.new.lines ≡ self.old.lines + 1) }
        ensures err { (line : Bytes) (rest : List Bytes) → BeginsSession line user
            → IfErr result (FaultAt (self.old.lines + 1) (sessions_of self.old) line rest) }
    {
        let line = self.lines + 1;
        if !is_user_name(user.bytes()) {
            return Err(ScriptFault::Rule {
                line,
                rule: ScriptRule::UserName,
            });
        }
        self.close()?;
        if self.ended.len() == SESSION_LIMIT {
            return Err(ScriptFault::Rule {
                line,
                rule: ScriptRule::SessionCount,
            });
        }
        self.lines = line;
        self.current = Some(Draft {
            user,
            commands: Vec::new(alloc),
        });
        Ok(())
    }

    // Ends the session that is open, if there is one.
    fn close(&mut self) -> Result<(), AllocError>
        requires draft { IsDraft self.old.lines self.old.current }
        requires count { self.old.lines ≤ COMMAND_LIMIT }
        ensures sessions { OnOk result (self.new.ended.items ≡ sessions_of self.old) }
        ensures current { OnOk result (self.new.current ≡ None) }
        ensures lines { self.new.lines ≡ self.old.lines }
    {
        if let Some(draft) = self.current.take() {
            self.ended
                .push(SessionScript::of(draft.user, draft.commands))?;
        }
        Ok(())
    }
}

fn is_logout(command: &Command) -> bool
    ensures { result ≡ is_logout command.now }
{
    matches!(command, Command::Logout)
}

// The command of a chunk that begins so and has this text.
fn command_of(opening: Opening, text: Text) -> Command
    ensures { result ≡ command_of opening text }
{
    match opening {
        Opening::Chunk { prints } => Command::Chunk { prints, text },
        Opening::Method { class_side, class } => Command::Method {
            class_side,
            class,
            text,
        },
    }
}
