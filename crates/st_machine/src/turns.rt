//! Instructions that need no more than the receiver, the stack, the scopes with their variables,
//! units and what is remembered.
ghost use Rattle.std.specs.Prelude.{◌≡◌, IfOk};
ghost use Rattle.gem_language.specs.Sends.{outside};
ghost use Rattle.running_objects.specs.Seen.{Keeps};
ghost use Rattle.st_compiler.specs.Emitted.{instruction_of};
ghost use Rattle.st_machine.specs.Led.{TurnedBy, TurnsForward, IsAsked, IfDone, IfLeft};
ghost use Rattle.st_machine.specs.Parts.{framed, table_of};
ghost use Rattle.st_machine.specs.Targets.{AnswersAt};

use crate::conditions::jump_unless;
use crate::finds::FindsMethods;
use crate::flow::Turned;
use crate::jumps::{jump, jump_back};
use crate::known::send_known;
use crate::layers::Layers;
use crate::locals::Locals;
use crate::loops::{loop_next, loop_start, loop_step};
use crate::names::{push_known, push_local, store_known, store_local};
use crate::outline::Outline;
use crate::pushes::{duplicate, pop, push_self, push_singleton, push_value};
use crate::scopes::{enter, leave};
use crate::shared_code::SharedCode;
use crate::units::spend_unit;
use gem_object::Value;
use st_compiler::Instr;
use std::alloc::Global;
use tree_meaning::{Mark, Singleton};

/// Carries out an instruction that needs no more than the receiver, the stack, the scopes with
/// their variables, units and what is remembered. Any other is left.
pub(crate) fn turn<O: FindsMethods>(
    alloc: Global,
    objects: &mut O,
    locals: &mut Locals,
    stack: &mut Layers<Value>,
    chain: &mut Layers<Mark>,
    frame: &Outline,
    code: &SharedCode,
    instr: &Instr,
    at: usize,
    depth: u32,
) -> Turned
    ensures keeps { Keeps (O.seen objects.old) (O.seen objects.new) }
    ensures led { IfDone result (λ turned. TurnedBy (outside depth) (table_of code.now)
        (instruction_of instr.now) at stack.old.own chain.old.own frame.now (O.seen objects.old)
        locals.old turned stack.new.own chain.new.own (O.seen objects.new) locals.new) }
    ensures forward { IfDone result (λ turned. IfOk turned (TurnsForward at)) }
    ensures asked { IfLeft result (λ _. IsAsked (instruction_of instr.now)) }
    ensures place { IfLeft result (λ place. AnswersAt (instruction_of instr.now) stack.old.own
        (framed chain.old.own frame.now) (O.seen objects.new) locals.new (O.founds objects.new)
        place) }
    ensures seen { IfLeft result (λ _. O.seen objects.new ≡ O.seen objects.old) }
    ensures own { IfLeft result (λ _. stack.new.own ≡ stack.old.own) }
    ensures scopes { IfLeft result (λ _. chain.new.own ≡ chain.old.own) }
    ensures locals { IfLeft result (λ _. locals.new ≡ locals.old) }
    ensures stack { stack.new.below ≡ stack.old.below }
    ensures chain { chain.new.below ≡ chain.old.below }
{
    match instr {
        Instr::PushSelf => Turned::Done(push_self(
            objects, locals, stack, chain, frame, code, at, depth,
        )),
        Instr::PushNil => Turned::Done(push_singleton(
            objects,
            locals,
            stack,
            chain,
            frame,
            code,
            Singleton::Nil,
            at,
            depth,
        )),
        Instr::PushTrue => Turned::Done(push_singleton(
            objects,
            locals,
            stack,
            chain,
            frame,
            code,
            Singleton::True,
            at,
            depth,
        )),
        Instr::PushFalse => Turned::Done(push_singleton(
            objects,
            locals,
            stack,
            chain,
            frame,
            code,
            Singleton::False,
            at,
            depth,
        )),
        Instr::PushLit(value) => Turned::Done(push_value(
            objects, locals, stack, chain, frame, code, value, at, depth,
        )),
        Instr::PushLocal(scope, index) => Turned::Done(push_local(
            objects, locals, stack, chain, frame, code, *scope, *index, at, depth,
        )),
        Instr::StoreLocal(scope, index) => Turned::Done(store_local(
            objects, locals, stack, chain, frame, code, *scope, *index, at, depth,
        )),
        Instr::Pop => Turned::Done(pop(objects, locals, stack, chain, frame, code, at, depth)),
        Instr::Dup => Turned::Done(duplicate(
            objects, locals, stack, chain, frame, code, at, depth,
        )),
        Instr::Jump(ahead) => Turned::Done(jump(
            objects, locals, stack, chain, frame, code, *ahead, at, depth,
        )),
        Instr::JumpBack(back) => Turned::Done(jump_back(
            objects, locals, stack, chain, frame, code, *back, at, depth,
        )),
        Instr::JumpTrue(ahead) => Turned::Done(jump_unless(
            objects, locals, stack, chain, frame, code, false, *ahead, at, depth,
        )),
        Instr::JumpFalse(ahead) => Turned::Done(jump_unless(
            objects, locals, stack, chain, frame, code, true, *ahead, at, depth,
        )),
        Instr::Enter(count) => Turned::Done(enter(
            alloc, objects, locals, stack, chain, frame, code, *count, at, depth,
        )),
        Instr::Leave => Turned::Done(leave(objects, locals, stack, chain, frame, code, at, depth)),
        Instr::LoopStart => Turned::Done(loop_start(
            objects, locals, stack, chain, frame, code, at, depth,
        )),
        Instr::LoopNext(ahead) => Turned::Done(loop_next(
            objects, locals, stack, chain, frame, code, *ahead, at, depth,
        )),
        Instr::LoopStep(back) => Turned::Done(loop_step(
            objects, locals, stack, chain, frame, code, *back, at, depth,
        )),
        Instr::TakeUnit => Turned::Done(spend_unit(objects, at)),
        Instr::Send(selector, count) => send_known(
            objects, locals, stack, chain, frame, code, selector, *count, at, depth,
        ),
        Instr::PushName(name) => push_known(
            objects, locals, stack, chain, frame, code, name, at, depth,
        ),
        Instr::StoreName(name) => store_known(
            objects, locals, stack, chain, frame, code, name, at, depth,
        ),
        Instr::MakeLit(_)
        | Instr::SuperSend(_, _)
        | Instr::PushBlock(_)
        | Instr::ReturnMethod
        | Instr::ReturnHome
        | Instr::ReturnBlock => Turned::Left(None),
    }
}
