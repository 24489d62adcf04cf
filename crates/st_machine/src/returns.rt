//! Ends of activations.
ghost use Rattle.std.specs.Prelude.{◌≡◌, ◌<◌, [], ◌∷◌, true, false, length, Err};
ghost use Rattle.tree_meaning.specs.Scopes.{leave_method, leave_block, ending_at_home};
ghost use Rattle.gem_language.specs.Sends.{outside};
ghost use Rattle.running_objects.specs.Seen.{Seen};
ghost use Rattle.tree_meaning.specs.object_programs.Local.{Local};
ghost use Rattle.tree_meaning.specs.Place.{MadeBlock};
ghost use Rattle.st_commands.specs.Leaving.{LeftSo};
ghost use Rattle.st_compiler.specs.Instruction.{ReturnMethod, ReturnHome, ReturnBlock};
ghost use Rattle.st_machine.specs.Called.{IsAbove, IsOther, called_as, ended_as, IfAnswers, IfEnds, AnsweredAs};
ghost use Rattle.st_machine.specs.Led.{LedBy, IsForward};
ghost use Rattle.st_machine.specs.Parts.{table_of};

use crate::ended::{Called, Ended};
use crate::flow::Flow;
use crate::layers::Layers;
use crate::locals::Locals;
use crate::outline::Outline;
use crate::shared_code::SharedCode;
use gem_object::Value;
use running_objects::{Fault, Objects, Stop};
use st_locals::Activations;
use std::mem;
use tree_meaning::Mark;

/// Whether the activation that runs has one value, and no more.
#[inline(always)]
fn has_one(stack: &Layers<Value>) -> bool
    ensures one { result ≡ true → IsAbove [] stack.now.own }
    ensures other { result ≡ false → IsOther stack.now.own }
{
    stack.height() == 1
}

/// Answers from a method, which still lives.
#[inline(always)]
pub(crate) fn return_method<O: Objects>(
    objects: &O,
    locals: &Locals,
    stack: &Layers<Value>,
    chain: &Layers<Mark>,
    why: &Stop,
    frame: &Outline,
    code: &SharedCode,
    place: usize,
    depth: u32,
) -> Flow
    ensures led { LedBy (outside depth) (table_of code.now) ReturnMethod place stack.now.own
        chain.now.own frame.now (O.seen objects.now) locals.now result why.now stack.now.own
        chain.now.own
        (O.seen objects.now) locals.now }
    ensures forward { IsForward place result }
{
    if !has_one(stack) {
        return Flow::Stuck;
    }
    Flow::Returns
}

/// Answers from the method in which a block stands: E8 where it has ended.
#[inline(never)]
pub(crate) fn return_home<O: Objects>(
    objects: &O,
    locals: &Locals,
    stack: &Layers<Value>,
    chain: &Layers<Mark>,
    why: &mut Stop,
    frame: &Outline,
    code: &SharedCode,
    place: usize,
    depth: u32,
) -> Flow
    ensures led { LedBy (outside depth) (table_of code.now) ReturnHome place stack.now.own
        chain.now.own frame.now (O.seen objects.now) locals.now result why.new stack.now.own
        chain.now.own
        (O.seen objects.now) locals.now }
    ensures forward { IsForward place result }
{
    if !has_one(stack) {
        return Flow::Stuck;
    }
    if !locals.is_living(frame.home()) {
        *why = Stop::Fails(Fault::DeadHome);
        return Flow::Stopped;
    }
    Flow::Returns
}

/// Answers from a block.
#[inline(never)]
pub(crate) fn return_block<O: Objects>(
    objects: &O,
    locals: &Locals,
    stack: &Layers<Value>,
    chain: &Layers<Mark>,
    why: &Stop,
    frame: &Outline,
    code: &SharedCode,
    place: usize,
    depth: u32,
) -> Flow
    ensures led { LedBy (outside depth) (table_of code.now) ReturnBlock place stack.now.own
        chain.now.own frame.now (O.seen objects.now) locals.now result why.now stack.now.own
        chain.now.own
        (O.seen objects.now) locals.now }
    ensures forward { IsForward place result }
{
    if !has_one(stack) {
        return Flow::Stuck;
    }
    Flow::Answers
}

/// A method's end: its activation lives no more, and what came since it began is given back. A
/// value that returns to it is its answer.
#[inline(always)]
pub(crate) fn end_method<O: Objects>(
    objects: &O,
    locals: &mut Locals,
    stack: &mut Layers<Value>,
    why: &mut Stop,
    mark: Mark,
    ended: Ended,
) -> Called
    ensures left { LeftSo (leave_method mark) (ended_as mark.living ended why.old stack.old.own)
        (O.seen objects.now) locals.old (called_as result why.new stack.new.own) locals.new }
    ensures own { IfAnswers result (AnsweredAs ended stack.old.own stack.new.own) }
    ensures below { stack.new.below ≡ stack.old.below }
{
    locals.end_living(mark.living);
    locals.give_back(mark);
    match ended {
        Ended::Answers => Called::Answers,
        Ended::Returns => Called::Answers,
        Ended::Stopped => end_stopped(stack, why, mark.living),
    }
}

/// A method's end that was stopped: the value that returns to it is put on the stack.
#[inline(never)]
fn end_stopped(stack: &mut Layers<Value>, why: &mut Stop, home: u64) -> Called
    ensures left { (seen : Seen) (local : Local MadeBlock) → LeftSo (ending_at_home home)
        (Err why.old) seen local (called_as result why.new stack.new.own) local }
    ensures own { IfAnswers result (IsAbove stack.old.own stack.new.own) }
    ensures below { stack.new.below ≡ stack.old.below }
{
    match mem::replace(why, Stop::NoMemory) {
        Stop::Fails(fault) => {
            *why = Stop::Fails(fault);
            Called::Stopped
        }
        Stop::Returns(answer, number) => {
            if number == home {
                return put_answer(stack, answer);
            }
            *why = Stop::Returns(answer, number);
            Called::Stopped
        }
        Stop::NoMemory => Called::Stopped,
    }
}

/// Puts an answer on the stack. It is stopped where memory ran out.
fn put_answer(stack: &mut Layers<Value>, answer: Value) -> Called
    ensures own { IfAnswers result (stack.new.own ≡ answer ∷ stack.old.own) }
    ensures below { stack.new.below ≡ stack.old.below }
{
    match stack.push(answer) {
        Ok(()) => Called::Answers,
        Err(_) => Called::Stopped,
    }
}

/// A block's end: its scope is given back.
#[inline(always)]
pub(crate) fn end_block<O: Objects>(
    objects: &O,
    locals: &mut Locals,
    stack: &mut Layers<Value>,
    why: &mut Stop,
    mark: Mark,
    home: u64,
    ended: Ended,
) -> Called
    requires { IfEnds ended (0 < length stack.old.own) }
    ensures left { LeftSo (leave_block mark) (ended_as home ended why.old stack.old.own)
        (O.seen objects.now) locals.old (called_as result why.new stack.new.own) locals.new }
    ensures own { IfAnswers result (AnsweredAs ended stack.old.own stack.new.own) }
    ensures below { stack.new.below ≡ stack.old.below }
{
    locals.give_back(mark);
    match ended {
        Ended::Answers => Called::Answers,
        Ended::Returns => {
            let Some(answer) = stack.pop() else {
                unreachable!()
            };
            *why = Stop::Returns(answer, home);
            Called::Stopped
        }
        Ended::Stopped => Called::Stopped,
    }
}
