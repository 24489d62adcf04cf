//! What a chunk and a method do within a transaction, and what they answer.
ghost use Rattle.std.specs.Prelude.{◌≡◌, true, IfOk};
ghost use Rattle.gem_meaning.specs.Commands.{object_command, is_run};
ghost use Rattle.running_objects.specs.Seen.{Keeps, with_whole_budget};
ghost use Rattle.gem_session.specs.Answer.{lines_of, MeantBy, EvaluatedBy};

use crate::answer::Answer;
use crate::known_view::KnownView;
use shell_words::Command;
use st_commands::Reply;
use st_machine::CodeCache;
use std::alloc::{AllocError, Global};

/// Runs a chunk or a method with a whole budget, and gives the answer to it.
///
/// # Errors
///
/// `AllocError` where memory ran out. What has become of the objects isn't said then.
pub(crate) fn run_command(
    alloc: Global,
    view: &mut KnownView,
    cache: &mut CodeCache,
    command: &Command,
) -> Result<Answer, AllocError>
    requires runs { is_run command.now ≡ true }
    ensures keeps { Keeps (with_whole_budget view.old.state.seen) view.new.state.seen }
    ensures says { IfOk result (λ answer. MeantBy (object_command command.now) view.old.state.seen
        (lines_of answer) view.new.state.seen) }
{
    view.begin_chunk();
    let reply = evaluate(alloc, view, cache, command)?;
    Answer::to_run(alloc, view.transcript(), reply)
}

// Runs a chunk or a method with the budget at hand.
fn evaluate(
    alloc: Global,
    view: &mut KnownView,
    cache: &mut CodeCache,
    command: &Command,
) -> Result<Reply, AllocError>
    requires runs { is_run command.now ≡ true }
    ensures { EvaluatedBy (object_command command.now) view.old result view.new }
{
    match command {
        Command::Chunk { prints, text } => view.run_text(alloc, cache, *prints, text),
        Command::Method {
            class_side,
            class,
            text,
        } => view.install_source(alloc, *class_side, class, text),
        _ => unreachable!(),
    }
}
