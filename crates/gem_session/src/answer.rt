//! What a session answers to one command.
ghost use Rattle.std.specs.Prelude.{◌≡◌, ◌++◌, ◌∷◌, [], IfOk, OnOk, None};
ghost use Rattle.gem_meaning.specs.Lines.{error_line, show_lines};
ghost use Rattle.gem_meaning.specs.Session.{replies_with};
ghost use Rattle.running_objects.specs.object_programs.Fault.{fault_text};
ghost use Rattle.gem_session.specs.Answer.{lines_of, shown_line, evaluated_line};

use gem_object::Text;
use gem_replies::{Line, Reply};
use running_objects::Fault;
use st_commands::Reply as Evaluated;
use std::alloc::{AllocError, Global};

/// What a session answers to one command.
#[derive(Debug, Drop)]
pub(crate) struct Answer {
    /// What the command wrote on the transcript, unless it wrote nothing.
    pub shown: Option<Text>,
    /// How it ended.
    pub line: Line,
}

impl Answer {
    /// The answer of one line.
    pub(crate) fn of(line: Line) -> Answer
        ensures { lines_of result ≡ line ∷ [] }
    {
        Answer { shown: None, line }
    }

    /// What the evaluator replied, after what was written on the transcript.
    pub(crate) fn to_run(
        alloc: Global,
        shown: &[u8],
        reply: Evaluated,
    ) -> Result<Answer, AllocError>
        ensures { IfOk result
            (λ answer. lines_of answer ≡ show_lines shown.now ++ evaluated_line reply ∷ []) }
    {
        let line = evaluated_line(alloc, reply)?;
        let shown = shown_text(alloc, shown)?;
        Ok(Answer { shown, line })
    }

    /// Puts the answer to the command with this number behind these replies.
    pub(crate) fn push(self, replies: &mut Vec<Reply>, command: u32) -> Result<(), AllocError>
        ensures { OnOk result (replies.new.items
            ≡ replies.old.items ++ replies_with command (lines_of self)) }
    {
        let Answer { shown, line } = self;
        push_shown(replies, command, shown)?;
        replies.push(Reply { command, line })?;
        Ok(())
    }
}

// Puts what was written on the transcript behind these replies, if something was.
fn push_shown(replies: &mut Vec<Reply>, command: u32, shown: Option<Text>) -> Result<(), AllocError>
    ensures { OnOk result (replies.new.items
        ≡ replies.old.items ++ replies_with command (shown_line shown)) }
{
    match shown {
        Some(text) => {
            replies.push(Reply {
                command,
                line: Line::Show(text),
            })?;
            Ok(())
        }
        None => Ok(()),
    }
}

// What was written on the transcript, unless nothing was.
fn shown_text(alloc: Global, shown: &[u8]) -> Result<Option<Text>, AllocError>
    ensures { IfOk result (λ text. shown_line text ≡ show_lines shown.now) }
{
    if shown.is_empty() {
        return Ok(None);
    }
    let text = Text::copy_of(alloc, shown)?;
    Ok(Some(text))
}

// The line of what the evaluator replied.
fn evaluated_line(alloc: Global, reply: Evaluated) -> Result<Line, AllocError>
    ensures { IfOk result (λ line. line ≡ evaluated_line reply) }
{
    match reply {
        Evaluated::NotRead { at, rule } => Ok(Line::Parse { at, rule }),
        Evaluated::Failed(fault) => error_line(alloc, &fault),
        Evaluated::Ran => Ok(Line::Ran),
        Evaluated::Printed(text) => Ok(Line::Printed(text)),
        Evaluated::Installed(selector) => Ok(Line::Method(selector)),
    }
}

// The line of an error.
fn error_line(alloc: Global, fault: &Fault) -> Result<Line, AllocError>
    ensures { IfOk result (λ line. line ≡ error_line fault.now) }
{
    let detail = fault_text(alloc, fault)?;
    Ok(Line::Error {
        kind: fault.number(),
        detail,
    })
}

// What is printed of an error after its number. A text that it holds is copied as it is, whether it
// is UTF-8 or not.
fn fault_text(alloc: Global, fault: &Fault) -> Result<Text, AllocError>
    ensures { IfOk result (λ text. text ≡ fault_text fault.now) }
{
    match fault {
        Fault::NotUnderstood(selector) => text_after(alloc, b"not understood: ", selector),
        Fault::UndefinedVariable(name) => text_after(alloc, b"undefined variable: ", name),
        Fault::Raised(text) => text_after(alloc, b"error: ", text),
        other => printed_fault(alloc, other),
    }
}

// What is printed of an error that holds no text.
fn printed_fault(alloc: Global, fault: &Fault) -> Result<Text, AllocError>
    ensures { IfOk result (λ text. text ≡ fault_text fault.now) }
{
    let printed = format!(in alloc; "{fault}")?;
    Ok(Text::of(printed.into_bytes()))
}

// The text after these words.
fn text_after(alloc: Global, words: &[u8], text: &Text) -> Result<Text, AllocError>
    ensures { IfOk result (λ whole. whole ≡ words.now ++ text.now) }
{
    let mut bytes = Vec::new(alloc);
    bytes.extend_from_slice(words)?;
    bytes.extend_from_slice(text.bytes())?;
    Ok(Text::of(bytes))
}
