//! The machine: code, sends and activations, in one cycle.
//!
//! Each function says of which program it does what, from the objects and the variables at hand.
//! `depth` is how many activations more may begin. The arguments of a message stand on the stack,
//! the last one on top, with the receiver below them.
#![tactic(auto, using(crate::proofs::Runs::runs))]

ghost use Rattle.std.specs.Prelude.{◌≡◌, ◌<◌, [], ◌∷◌, false, suc, length, get_or, take, drop, reverse, slice_get, option_map, option_copied, nat_eq, IfOk, IfSome, Some};
ghost use Rattle.gem_object.specs.declared.value.Value.TheVariants.{Nil};
ghost use Rattle.tree_meaning.specs.Bodies.{params_count, temps_count, method_body, block_body};
ghost use Rattle.tree_meaning.specs.Calls.{activation, evaluation, call_block_at};
ghost use Rattle.tree_meaning.specs.object_programs.Run.{and_then};
ghost use Rattle.gem_language.specs.prim_rules.Rules.{rule_of};
ghost use Rattle.gem_language.specs.Commands.{selector_of};
ghost use Rattle.gem_language.specs.Sends.{outside, callee, send_by, primitive_value};
ghost use Rattle.running_objects.specs.Seen.{Keeps};
ghost use Rattle.running_objects.specs.Ran.{Ran};
ghost use Rattle.look_up_cache.specs.Table.{held_at};
ghost use Rattle.st_machine.specs.declared.target.Target.TheVariants.{Method};
ghost use Rattle.st_compiler.specs.TreeCode.{send_op};
ghost use Rattle.st_compiler.specs.Emitted.{instruction_of, instructions};
ghost use Rattle.st_machine.specs.Called.{called_as, ended_as, IfAnswers, IfEnds, IsAbove, LeftAs};
ghost use Rattle.st_machine.specs.Led.{LedBy, IsForward, IsAsked};
ghost use Rattle.st_machine.specs.Parts.{table_of, HasPart, part_run, framed};
ghost use Rattle.st_machine.specs.Targets.{IsCallable, IsNotUnderstood, call_of, target_for, AnswersAt, StandsAt};

use crate::blocks::block_called;
use crate::border::primitive;
use crate::cache::CodeCache;
use crate::code_block::CodeBlock;
use crate::ended::{Called, Ended};
use crate::finds::FindsMethods;
use crate::flow::{Flow, Turn, Turned, flow_of};
use crate::jumps::count_jump;
use crate::layers::Layers;
use crate::locals::Locals;
use crate::names::{push_block, push_name, store_name};
use crate::outline::Outline;
use crate::places::next_of;
use crate::pushes::make_literal;
use crate::quick::{call_quickly, quick_instr};
use crate::returns::{end_block, end_method, return_block, return_home, return_method};
use crate::scopes::put_scopes;
use crate::shared_code::{Part, SharedCode};
use crate::target::{KeptMethod, Target, kept_method, target_of, target_with_unit};
use crate::turns::turn;
use gem_object::{Oid, Text, Value};
use prim_parts::PrimitiveAnswer;
use running_objects::{Fault, Stop};
use st_commands::take_unit;
use st_compiler::Instr;
use std::alloc::Global;
use tree_meaning::Mark;

/// Runs a part of a text, from its first instruction to its end. The activation that runs has
/// nothing on the stack yet.
#[cycle(machine)]
pub(crate) fn execute<O: FindsMethods>(
    alloc: Global,
    objects: &mut O,
    locals: &mut Locals,
    stack: &mut Layers<Value>,
    chain: &mut Layers<Mark>,
    cache: &mut CodeCache,
    why: &mut Stop,
    frame: &Outline,
    code: &SharedCode,
    part: Part,
    depth: u32,
) -> Ended
    requires part { HasPart code.now part }
    requires empty { stack.old.own ≡ [] }
    ensures ran { Ran (part_run (outside depth) code.now part (framed chain.old.own frame.now))
        (O.seen objects.old) locals.old
        (ended_as frame.now.home result why.new stack.new.own) (O.seen objects.new) locals.new }
    ensures own { IfEnds result (IsAbove [] stack.new.own) }
    ensures stack { stack.new.below ≡ stack.old.below }
    ensures chain { chain.new.below ≡ chain.old.below }
{
    let instrs = code.code_of(part);
    let mut at = 0;
    let mut jumps: u64 = 0;
    'run: loop {
        let Some(instr) = instr_at(instrs, at) else {
            unreachable!()
        };
        let turned = turn(
            alloc, objects, locals, stack, chain, frame, code, instr, at, depth,
        );
        match turned {
            Turned::Left(found) => {
                let led = lead(
                    alloc, objects, locals, stack, chain, cache, why, frame, code, instr, found,
                    at, depth,
                );
                match led {
                    Flow::Goes(place) => at = place,
                    Flow::Answers => return Ended::Answers,
                    Flow::Returns => return Ended::Returns,
                    Flow::Stopped => return Ended::Stopped,
                    Flow::Stuck => unreachable!(),
                }
            }
            Turned::Done(done) => {
                let turn = match done {
                    Ok(turn) => turn,
                    Err(_) => {
                        *why = Stop::NoMemory;
                        return Ended::Stopped;
                    }
                };
                match turn {
                    Turn::Goes(place) => at = place,
                    Turn::Jumps(place) => {
                        if !count_jump(&mut jumps) {
                            *why = Stop::NoMemory;
                            return Ended::Stopped;
                        }
                        at = place;
                    }
                    Turn::NotBoolean => {
                        *why = Stop::Fails(Fault::NotBoolean);
                        return Ended::Stopped;
                    }
                    Turn::ArgumentKind => {
                        *why = Stop::Fails(Fault::ArgumentKind);
                        return Ended::Stopped;
                    }
                    Turn::NoUnit => {
                        *why = Stop::Fails(Fault::SendBudget);
                        return Ended::Stopped;
                    }
                    Turn::TooLarge => {
                        *why = Stop::Fails(Fault::ObjectTooLarge);
                        return Ended::Stopped;
                    }
                    Turn::Stuck => unreachable!(),
                }
            }
        }
    }
}

/// The instruction at a place.
fn instr_at(instrs: &[Instr], at: usize) -> Option<&Instr>
    ensures is { option_map instruction_of (option_copied result)
        ≡ slice_get (instructions instrs.now) at }
    ensures within { IfSome result (λ _. at < length instrs.now) }
{
    instrs.get(at)
}

/// Carries out an instruction that `turn` leaves. What answers a message stands at a place that may
/// be known.
#[cycle(machine)]
#[inline(always)]
fn lead<O: FindsMethods>(
    alloc: Global,
    objects: &mut O,
    locals: &mut Locals,
    stack: &mut Layers<Value>,
    chain: &mut Layers<Mark>,
    cache: &mut CodeCache,
    why: &mut Stop,
    frame: &Outline,
    code: &SharedCode,
    instr: &Instr,
    found: Option<usize>,
    at: usize,
    depth: u32,
) -> Flow
    requires asked { IsAsked (instruction_of instr.now) }
    requires found { AnswersAt (instruction_of instr.now) stack.old.own
        (framed chain.old.own frame.now) (O.seen objects.old) locals.old (O.founds objects.old)
        found }
    ensures keeps { Keeps (O.seen objects.old) (O.seen objects.new) }
    ensures led { LedBy (outside depth) (table_of code.now) (instruction_of instr.now) at
        stack.old.own chain.old.own frame.now (O.seen objects.old) locals.old result why.new
        stack.new.own chain.new.own (O.seen objects.new) locals.new }
    ensures forward { IsForward at result }
    ensures stack { stack.new.below ≡ stack.old.below }
    ensures chain { chain.new.below ≡ chain.old.below }
{
    match found {
        Some(found) => step_found(
            alloc, objects, locals, stack, chain, cache, why, frame, code, instr, found, at, depth,
        ),
        None => step(
            alloc, objects, locals, stack, chain, cache, why, frame, code, instr, at, depth,
        ),
    }
}

/// Sends the message of an instruction, where the place of what answers it is known.
#[cycle(machine)]
#[inline(always)]
fn step_found<O: FindsMethods>(
    alloc: Global,
    objects: &mut O,
    locals: &mut Locals,
    stack: &mut Layers<Value>,
    chain: &mut Layers<Mark>,
    cache: &mut CodeCache,
    why: &mut Stop,
    frame: &Outline,
    code: &SharedCode,
    instr: &Instr,
    found: usize,
    at: usize,
    depth: u32,
) -> Flow
    requires { StandsAt (instruction_of instr.now) stack.old.own
        (framed chain.old.own frame.now) (O.seen objects.old) locals.old (O.founds objects.old)
        found }
    ensures keeps { Keeps (O.seen objects.old) (O.seen objects.new) }
    ensures led { LedBy (outside depth) (table_of code.now) (instruction_of instr.now) at
        stack.old.own chain.old.own frame.now (O.seen objects.old) locals.old result why.new
        stack.new.own chain.new.own (O.seen objects.new) locals.new }
    ensures forward { IsForward at result }
    ensures stack { stack.new.below ≡ stack.old.below }
    ensures chain { chain.new.below ≡ chain.old.below }
{
    match instr {
        Instr::Send(selector, count) => send_found(
            alloc, objects, locals, stack, chain, cache, why, frame, code, selector, *count, found,
            at, depth,
        ),
        _ => unreachable!(),
    }
}

/// Carries out an instruction that `turn` leaves, where nothing is known of what answers a message.
#[cycle(machine)]
#[inline(always)]
fn step<O: FindsMethods>(
    alloc: Global,
    objects: &mut O,
    locals: &mut Locals,
    stack: &mut Layers<Value>,
    chain: &mut Layers<Mark>,
    cache: &mut CodeCache,
    why: &mut Stop,
    frame: &Outline,
    code: &SharedCode,
    instr: &Instr,
    at: usize,
    depth: u32,
) -> Flow
    requires asked { IsAsked (instruction_of instr.now) }
    ensures keeps { Keeps (O.seen objects.old) (O.seen objects.new) }
    ensures led { LedBy (outside depth) (table_of code.now) (instruction_of instr.now) at
        stack.old.own chain.old.own frame.now (O.seen objects.old) locals.old result why.new
        stack.new.own chain.new.own (O.seen objects.new) locals.new }
    ensures forward { IsForward at result }
    ensures stack { stack.new.below ≡ stack.old.below }
    ensures chain { chain.new.below ≡ chain.old.below }
{
    match instr {
        Instr::MakeLit(tree) => {
            let asked = make_literal(
                alloc, objects, locals, stack, chain, frame, code, tree, at, depth,
            );
            flow_of(why, asked)
        },
        Instr::PushName(name) => {
            let asked = push_name(objects, locals, stack, chain, frame, code, name, at, depth);
            flow_of(why, asked)
        }
        Instr::StoreName(name) => {
            let asked = store_name(objects, locals, stack, chain, frame, code, name, at, depth);
            flow_of(why, asked)
        }
        Instr::Send(selector, count) => send(
            alloc, objects, locals, stack, chain, cache, why, frame, code, false, selector, *count,
            at, depth,
        ),
        Instr::SuperSend(selector, count) => send(
            alloc, objects, locals, stack, chain, cache, why, frame, code, true, selector, *count,
            at, depth,
        ),
        Instr::PushBlock(number) => {
            let asked = push_block(
                alloc, objects, locals, stack, chain, frame, code, *number, at, depth,
            );
            flow_of(why, asked)
        },
        Instr::ReturnMethod => return_method(
            objects, locals, stack, chain, why, frame, code, at, depth,
        ),
        Instr::ReturnHome => return_home(
            objects, locals, stack, chain, why, frame, code, at, depth,
        ),
        Instr::ReturnBlock => return_block(
            objects, locals, stack, chain, why, frame, code, at, depth,
        ),
        _ => unreachable!(),
    }
}

/// Sends a message with so many arguments.
#[cycle(machine)]
fn send<O: FindsMethods>(
    alloc: Global,
    objects: &mut O,
    locals: &mut Locals,
    stack: &mut Layers<Value>,
    chain: &mut Layers<Mark>,
    cache: &mut CodeCache,
    why: &mut Stop,
    frame: &Outline,
    code: &SharedCode,
    to_super: bool,
    selector: &Text,
    count: usize,
    at: usize,
    depth: u32,
) -> Flow
    ensures keeps { Keeps (O.seen objects.old) (O.seen objects.new) }
    ensures led { LedBy (outside depth) (table_of code.now) (send_op to_super selector.now count) at
        stack.old.own chain.old.own frame.now (O.seen objects.old) locals.old result why.new
        stack.new.own chain.new.own (O.seen objects.new) locals.new }
    ensures forward { IsForward at result }
    ensures stack { stack.new.below ≡ stack.old.below }
    ensures chain { chain.new.below ≡ chain.old.below }
{
    if stack.height() <= count {
        return Flow::Stuck;
    }
    let called = answer_of(
        alloc, objects, locals, stack, chain, cache, why, frame, to_super, selector, count, depth,
    );
    match called {
        Called::Answers => {
            let Ok(place) = next_of(at) else {
                *why = Stop::NoMemory;
                return Flow::Stopped;
            };
            Flow::Goes(place)
        }
        Called::Stopped => Flow::Stopped,
    }
}

/// The same of a message where the place of what answers it is known.
#[cycle(machine)]
#[inline(always)]
fn send_found<O: FindsMethods>(
    alloc: Global,
    objects: &mut O,
    locals: &mut Locals,
    stack: &mut Layers<Value>,
    chain: &mut Layers<Mark>,
    cache: &mut CodeCache,
    why: &mut Stop,
    frame: &Outline,
    code: &SharedCode,
    selector: &Text,
    count: usize,
    found: usize,
    at: usize,
    depth: u32,
) -> Flow
    requires { StandsAt (send_op false selector.now count) stack.old.own
        (framed chain.old.own frame.now) (O.seen objects.old) locals.old (O.founds objects.old)
        found }
    ensures keeps { Keeps (O.seen objects.old) (O.seen objects.new) }
    ensures led { LedBy (outside depth) (table_of code.now) (send_op false selector.now count) at
        stack.old.own chain.old.own frame.now (O.seen objects.old) locals.old result why.new
        stack.new.own chain.new.own (O.seen objects.new) locals.new }
    ensures forward { IsForward at result }
    ensures stack { stack.new.below ≡ stack.old.below }
    ensures chain { chain.new.below ≡ chain.old.below }
{
    if stack.height() <= count {
        return Flow::Stuck;
    }
    let called = answer_found(
        alloc, objects, locals, stack, chain, cache, why, frame, selector, count, found, depth,
    );
    match called {
        Called::Answers => {
            let Ok(place) = next_of(at) else {
                *why = Stop::NoMemory;
                return Flow::Stopped;
            };
            Flow::Goes(place)
        }
        Called::Stopped => Flow::Stopped,
    }
}

/// The answer to a message: a unit, the look-up, and the method.
#[cycle(machine)]
#[tactic(auto, using(crate::proofs::Runs::runs), unfolding(gem_language::specs::Sends::send_by))]
fn answer_of<O: FindsMethods>(
    alloc: Global,
    objects: &mut O,
    locals: &mut Locals,
    stack: &mut Layers<Value>,
    chain: &mut Layers<Mark>,
    cache: &mut CodeCache,
    why: &mut Stop,
    frame: &Outline,
    to_super: bool,
    selector: &Text,
    count: usize,
    depth: u32,
) -> Called
    requires { count < length stack.old.own }
    ensures ran { Ran (send_by (callee depth) to_super selector.now (framed chain.old.own frame.now)
        (get_or stack.old.own count Nil) (take count stack.old.own))
        (O.seen objects.old) locals.old (called_as result why.new stack.new.own)
        (O.seen objects.new) locals.new }
    ensures own { IfAnswers result (IsAbove (drop (suc count) stack.old.own) stack.new.own) }
    ensures stack { stack.new.below ≡ stack.old.below }
    ensures chain { chain.new ≡ chain.old }
{
    let receiver = stack.at_depth(count);
    match take_unit(objects, locals) {
        Ok(()) => match target_of(
            alloc, objects, locals, chain, cache, to_super, frame, receiver, selector,
        ) {
            Ok(target) => call_target(
                alloc, objects, locals, stack, chain, cache, why, selector, target, count, depth,
            ),
            Err(stop) => {
                *why = stop;
                Called::Stopped
            }
        },
        Err(stop) => {
            *why = stop;
            Called::Stopped
        }
    }
}

/// The same where the place of what answers it is known.
#[cycle(machine)]
#[inline(always)]
fn answer_found<O: FindsMethods>(
    alloc: Global,
    objects: &mut O,
    locals: &mut Locals,
    stack: &mut Layers<Value>,
    chain: &mut Layers<Mark>,
    cache: &mut CodeCache,
    why: &mut Stop,
    frame: &Outline,
    selector: &Text,
    count: usize,
    found: usize,
    depth: u32,
) -> Called
    requires height { count < length stack.old.own }
    requires found { StandsAt (send_op false selector.now count) stack.old.own
        (framed chain.old.own frame.now) (O.seen objects.old) locals.old (O.founds objects.old)
        found }
    ensures ran { Ran (send_by (callee depth) false selector.now (framed chain.old.own frame.now)
        (get_or stack.old.own count Nil) (take count stack.old.own))
        (O.seen objects.old) locals.old (called_as result why.new stack.new.own)
        (O.seen objects.new) locals.new }
    ensures own { IfAnswers result (IsAbove (drop (suc count) stack.old.own) stack.new.own) }
    ensures stack { stack.new.below ≡ stack.old.below }
    ensures chain { chain.new ≡ chain.old }
{
    match kept_method(objects, found) {
        Some(method) => call_kept(
            alloc, objects, locals, stack, chain, cache, why, frame, selector, method, count,
            found, depth,
        ),
        None => answer_at(
            alloc, objects, locals, stack, chain, cache, why, frame, selector, count, found, depth,
        ),
    }
}

/// The same where this method with its code is kept there.
#[cycle(machine)]
#[inline(always)]
fn call_kept<O: FindsMethods>(
    alloc: Global,
    objects: &mut O,
    locals: &mut Locals,
    stack: &mut Layers<Value>,
    chain: &mut Layers<Mark>,
    cache: &mut CodeCache,
    why: &mut Stop,
    frame: &Outline,
    selector: &Text,
    method: KeptMethod,
    count: usize,
    found: usize,
    depth: u32,
) -> Called
    requires height { count < length stack.old.own }
    requires found { StandsAt (send_op false selector.now count) stack.old.own
        (framed chain.old.own frame.now) (O.seen objects.old) locals.old (O.founds objects.old)
        found }
    requires kept { Method method.code method.holder method.class_side
        ≡ target_for (held_at (O.founds objects.old) found) }
    requires callable { method.code.selector ≡ Some (selector_of method.code) }
    ensures ran { Ran (send_by (callee depth) false selector.now (framed chain.old.own frame.now)
        (get_or stack.old.own count Nil) (take count stack.old.own))
        (O.seen objects.old) locals.old (called_as result why.new stack.new.own)
        (O.seen objects.new) locals.new }
    ensures own { IfAnswers result (IsAbove (drop (suc count) stack.old.own) stack.new.own) }
    ensures stack { stack.new.below ≡ stack.old.below }
    ensures chain { chain.new ≡ chain.old }
{
    match objects.tick() {
        Ok(()) => call_method(
            alloc,
            objects,
            locals,
            stack,
            chain,
            cache,
            why,
            &method.code,
            method.holder,
            method.class_side,
            count,
            depth,
        ),
        Err(stop) => {
            *why = stop;
            Called::Stopped
        }
    }
}

/// The same where no code is kept there.
#[cycle(machine)]
#[inline(never)]
fn answer_at<O: FindsMethods>(
    alloc: Global,
    objects: &mut O,
    locals: &mut Locals,
    stack: &mut Layers<Value>,
    chain: &mut Layers<Mark>,
    cache: &mut CodeCache,
    why: &mut Stop,
    frame: &Outline,
    selector: &Text,
    count: usize,
    found: usize,
    depth: u32,
) -> Called
    requires height { count < length stack.old.own }
    requires found { StandsAt (send_op false selector.now count) stack.old.own
        (framed chain.old.own frame.now) (O.seen objects.old) locals.old (O.founds objects.old)
        found }
    ensures ran { Ran (send_by (callee depth) false selector.now (framed chain.old.own frame.now)
        (get_or stack.old.own count Nil) (take count stack.old.own))
        (O.seen objects.old) locals.old (called_as result why.new stack.new.own)
        (O.seen objects.new) locals.new }
    ensures own { IfAnswers result (IsAbove (drop (suc count) stack.old.own) stack.new.own) }
    ensures stack { stack.new.below ≡ stack.old.below }
    ensures chain { chain.new ≡ chain.old }
{
    match target_with_unit(alloc, objects, cache, found) {
        Ok(target) => call_target(
            alloc, objects, locals, stack, chain, cache, why, selector, target, count, depth,
        ),
        Err(stop) => {
            *why = stop;
            Called::Stopped
        }
    }
}

/// What answers the message is called: E1 where nothing does.
#[cycle(machine)]
#[inline(always)]
fn call_target<O: FindsMethods>(
    alloc: Global,
    objects: &mut O,
    locals: &mut Locals,
    stack: &mut Layers<Value>,
    chain: &mut Layers<Mark>,
    cache: &mut CodeCache,
    why: &mut Stop,
    selector: &Text,
    target: Target,
    count: usize,
    depth: u32,
) -> Called
    requires height { count < length stack.old.own }
    requires callable { IsCallable target }
    ensures ran { Ran (call_of (callee depth) selector.now target
        (get_or stack.old.own count Nil) (reverse (take count stack.old.own)))
        (O.seen objects.old) locals.old (called_as result why.new stack.new.own)
        (O.seen objects.new) locals.new }
    ensures own { IfAnswers result (IsAbove (drop (suc count) stack.old.own) stack.new.own) }
    ensures stack { stack.new.below ≡ stack.old.below }
    ensures chain { chain.new ≡ chain.old }
{
    match target {
        Target::Nothing => {
            *why = not_understood(selector);
            Called::Stopped
        }
        Target::Primitive(number) => call_primitive(
            alloc, objects, locals, stack, chain, cache, why, number, count, depth,
        ),
        Target::Method(code, holder, class_side) => call_method(
            alloc, objects, locals, stack, chain, cache, why, &code, holder, class_side, count,
            depth,
        ),
    }
}

/// E1 of this selector.
fn not_understood(selector: &Text) -> Stop
    ensures { IsNotUnderstood selector.now result }
{
    match selector.clone() {
        Ok(selector) => Stop::Fails(Fault::NotUnderstood(selector)),
        Err(_) => Stop::NoMemory,
    }
}

/// What a primitive comes to.
#[cycle(machine)]
fn call_primitive<O: FindsMethods>(
    alloc: Global,
    objects: &mut O,
    locals: &mut Locals,
    stack: &mut Layers<Value>,
    chain: &mut Layers<Mark>,
    cache: &mut CodeCache,
    why: &mut Stop,
    number: u8,
    count: usize,
    depth: u32,
) -> Called
    requires { count < length stack.old.own }
    ensures ran { Ran (and_then (rule_of number
        (get_or stack.old.own count Nil) (reverse (take count stack.old.own)))
        (λ answer. primitive_value (callee depth) answer))
        (O.seen objects.old) locals.old (called_as result why.new stack.new.own)
        (O.seen objects.new) locals.new }
    ensures own { IfAnswers result (IsAbove (drop (suc count) stack.old.own) stack.new.own) }
    ensures stack { stack.new.below ≡ stack.old.below }
    ensures chain { chain.new ≡ chain.old }
{
    let receiver = stack.at_depth(count);
    if let Some(block) = block_called(number, receiver, count) {
        return call_block(
            alloc,
            objects,
            locals,
            stack,
            chain,
            cache,
            why,
            block.number,
            count,
            depth,
        );
    }
    match primitive(alloc, objects, locals, number, receiver, stack.upper(count)) {
        Ok(answer) => {
            stack.drop_upper(count);
            value_of_primitive(
                alloc, objects, locals, stack, chain, cache, why, answer, depth,
            )
        }
        Err(stop) => {
            *why = stop;
            Called::Stopped
        }
    }
}

/// What a primitive's answer comes to: its value, or that of the block that it evaluates. The
/// primitive's receiver stands on the stack, and is taken from there.
#[cycle(machine)]
fn value_of_primitive<O: FindsMethods>(
    alloc: Global,
    objects: &mut O,
    locals: &mut Locals,
    stack: &mut Layers<Value>,
    chain: &mut Layers<Mark>,
    cache: &mut CodeCache,
    why: &mut Stop,
    answer: PrimitiveAnswer,
    depth: u32,
) -> Called
    requires { 0 < length stack.old.own }
    ensures ran { Ran (primitive_value (callee depth) answer)
        (O.seen objects.old) locals.old (called_as result why.new stack.new.own)
        (O.seen objects.new) locals.new }
    ensures own { IfAnswers result (IsAbove (drop 1 stack.old.own) stack.new.own) }
    ensures stack { stack.new.below ≡ stack.old.below }
    ensures chain { chain.new ≡ chain.old }
{
    match answer {
        PrimitiveAnswer::Gives(value) => {
            stack.put(0, value);
            Called::Answers
        }
        PrimitiveAnswer::Evaluates(block, arguments) => call_with(
            alloc,
            objects,
            locals,
            stack,
            chain,
            cache,
            why,
            block.number,
            arguments.into_items(),
            depth,
        ),
    }
}

/// The made block of this number is called with these arguments. The primitive's receiver stands on
/// the stack, and is taken from there.
#[cycle(machine)]
fn call_with<O: FindsMethods>(
    alloc: Global,
    objects: &mut O,
    locals: &mut Locals,
    stack: &mut Layers<Value>,
    chain: &mut Layers<Mark>,
    cache: &mut CodeCache,
    why: &mut Stop,
    number: u64,
    arguments: Vec<Value>,
    depth: u32,
) -> Called
    requires { 0 < length stack.old.own }
    ensures ran { Ran (call_block_at (callee depth).block number arguments.items)
        (O.seen objects.old) locals.old (called_as result why.new stack.new.own)
        (O.seen objects.new) locals.new }
    ensures own { IfAnswers result (IsAbove (drop 1 stack.old.own) stack.new.own) }
    ensures stack { stack.new.below ≡ stack.old.below }
    ensures chain { chain.new ≡ chain.old }
{
    let count = arguments.len();
    let Ok(()) = stack.push_all(arguments) else {
        *why = Stop::NoMemory;
        return Called::Stopped;
    };
    call_block(
        alloc, objects, locals, stack, chain, cache, why, number, count, depth,
    )
}

/// A method with code is called: E14 where no activation may begin.
#[cycle(machine)]
#[inline(always)]
fn call_method<O: FindsMethods>(
    alloc: Global,
    objects: &mut O,
    locals: &mut Locals,
    stack: &mut Layers<Value>,
    chain: &mut Layers<Mark>,
    cache: &mut CodeCache,
    why: &mut Stop,
    code: &SharedCode,
    holder: Oid,
    class_side: bool,
    count: usize,
    depth: u32,
) -> Called
    requires height { count < length stack.old.own }
    requires method { code.now.selector ≡ Some (selector_of code.now) }
    ensures ran { Ran ((callee depth).method code.now holder class_side
        (get_or stack.old.own count Nil) (reverse (take count stack.old.own)))
        (O.seen objects.old) locals.old (called_as result why.new stack.new.own)
        (O.seen objects.new) locals.new }
    ensures own { IfAnswers result (IsAbove (drop (suc count) stack.old.own) stack.new.own) }
    ensures stack { stack.new.below ≡ stack.old.below }
    ensures chain { chain.new ≡ chain.old }
{
    if depth == 0 {
        *why = Stop::Fails(Fault::Depth);
        return Called::Stopped;
    }
    match quick_instr(code) {
        Some(instr) => call_quickly(
            alloc,
            objects,
            locals,
            stack,
            why,
            code,
            instr,
            holder,
            class_side,
            count,
            depth - 1,
        ),
        None => activate(
            alloc,
            objects,
            locals,
            stack,
            chain,
            cache,
            why,
            code,
            holder,
            class_side,
            count,
            depth - 1,
        ),
    }
}

/// The activation of a method, in which so many more may begin.
#[cycle(machine)]
#[inline(never)]
fn activate<O: FindsMethods>(
    alloc: Global,
    objects: &mut O,
    locals: &mut Locals,
    stack: &mut Layers<Value>,
    chain: &mut Layers<Mark>,
    cache: &mut CodeCache,
    why: &mut Stop,
    code: &SharedCode,
    holder: Oid,
    class_side: bool,
    count: usize,
    depth: u32,
) -> Called
    requires height { count < length stack.old.own }
    requires method { code.now.selector ≡ Some (selector_of code.now) }
    ensures ran { Ran (activation (method_body (outside depth) code.now) (length code.now.temps)
        holder class_side (get_or stack.old.own count Nil) (reverse (take count stack.old.own)))
        (O.seen objects.old) locals.old (called_as result why.new stack.new.own)
        (O.seen objects.new) locals.new }
    ensures own { IfAnswers result (IsAbove (drop (suc count) stack.old.own) stack.new.own) }
    ensures stack { stack.new.below ≡ stack.old.below }
    ensures chain { chain.new ≡ chain.old }
{
    let mark = locals.mark();
    let Ok(()) = locals.begin_method(stack, count, code.temps_count()) else {
        *why = Stop::NoMemory;
        return Called::Stopped;
    };
    let Some(receiver) = stack.pop() else {
        unreachable!()
    };
    let frame = Outline::of(alloc, receiver, mark.living, holder, class_side);
    let ended = run_inside(
        alloc,
        objects,
        locals,
        stack,
        chain,
        cache,
        why,
        &frame,
        &[],
        mark,
        code,
        Part::Whole,
        depth,
    );
    end_method(objects, locals, stack, why, mark, ended)
}

/// Runs a part of a text with these scopes, the innermost one last, and the one of this mark inside
/// them, above what stands on the stack.
#[cycle(machine)]
#[inline(always)]
pub(crate) fn run_inside<O: FindsMethods>(
    alloc: Global,
    objects: &mut O,
    locals: &mut Locals,
    stack: &mut Layers<Value>,
    chain: &mut Layers<Mark>,
    cache: &mut CodeCache,
    why: &mut Stop,
    frame: &Outline,
    scopes: &[Mark],
    mark: Mark,
    code: &SharedCode,
    part: Part,
    depth: u32,
) -> Ended
    requires { HasPart code.now part }
    ensures ran { Ran (part_run (outside depth) code.now part
        (framed (mark ∷ reverse scopes.now) frame.now))
        (O.seen objects.old) locals.old
        (ended_as frame.now.home result why.new stack.new.own) (O.seen objects.new) locals.new }
    ensures own { LeftAs result stack.old.own stack.new.own }
    ensures stack { stack.new.below ≡ stack.old.below }
    ensures chain { chain.new ≡ chain.old }
{
    let values = stack.begin();
    let marks = chain.begin();
    let ended = run_with(
        alloc, objects, locals, stack, chain, cache, why, frame, scopes, mark, code, part, depth,
    );
    chain.end(marks);
    match ended {
        Ended::Answers => stack.end_keeping(values),
        Ended::Returns => stack.end_keeping(values),
        Ended::Stopped => stack.end(values),
    }
    ended
}

/// The same, where the activation that runs has no scopes and no values yet.
#[cycle(machine)]
#[inline(always)]
fn run_with<O: FindsMethods>(
    alloc: Global,
    objects: &mut O,
    locals: &mut Locals,
    stack: &mut Layers<Value>,
    chain: &mut Layers<Mark>,
    cache: &mut CodeCache,
    why: &mut Stop,
    frame: &Outline,
    scopes: &[Mark],
    mark: Mark,
    code: &SharedCode,
    part: Part,
    depth: u32,
) -> Ended
    requires part { HasPart code.now part }
    requires no_values { stack.old.own ≡ [] }
    requires no_scopes { chain.old.own ≡ [] }
    ensures ran { Ran (part_run (outside depth) code.now part
        (framed (mark ∷ reverse scopes.now) frame.now))
        (O.seen objects.old) locals.old
        (ended_as frame.now.home result why.new stack.new.own) (O.seen objects.new) locals.new }
    ensures own { IfEnds result (IsAbove [] stack.new.own) }
    ensures stack { stack.new.below ≡ stack.old.below }
    ensures chain { chain.new.below ≡ chain.old.below }
{
    let Ok(()) = put_scopes(chain, scopes, mark) else {
        *why = Stop::NoMemory;
        return Ended::Stopped;
    };
    execute(
        alloc, objects, locals, stack, chain, cache, why, frame, code, part, depth,
    )
}

/// The made block of this number is called: E9 unless it takes so many arguments. They stand on the
/// stack, and are taken from there with the value below them.
#[cycle(machine)]
#[tactic(auto, using(crate::proofs::Runs::runs), unfolding(tree_meaning::specs::Calls::call_block_at))]
fn call_block<O: FindsMethods>(
    alloc: Global,
    objects: &mut O,
    locals: &mut Locals,
    stack: &mut Layers<Value>,
    chain: &mut Layers<Mark>,
    cache: &mut CodeCache,
    why: &mut Stop,
    number: u64,
    count: usize,
    depth: u32,
) -> Called
    requires { count < length stack.old.own }
    ensures ran { Ran (call_block_at (callee depth).block number
        (reverse (take count stack.old.own)))
        (O.seen objects.old) locals.old (called_as result why.new stack.new.own)
        (O.seen objects.new) locals.new }
    ensures own { IfAnswers result (IsAbove (drop (suc count) stack.old.own) stack.new.own) }
    ensures stack { stack.new.below ≡ stack.old.below }
    ensures chain { chain.new ≡ chain.old }
{
    let Some(shared) = locals.block(number) else {
        *why = Stop::Fails(Fault::ArgumentKind);
        return Called::Stopped;
    };
    let Ok(shared) = shared.share() else {
        *why = Stop::NoMemory;
        return Called::Stopped;
    };
    let made = shared.block();
    if !takes(made, stack.upper(count)) {
        *why = Stop::Fails(Fault::BlockArgumentCount);
        return Called::Stopped;
    }
    call_made(
        alloc, objects, locals, stack, chain, cache, why, made, count, depth,
    )
}

/// Whether a block takes so many arguments.
fn takes(made: &CodeBlock, arguments: &[Value]) -> bool
    ensures { result ≡ nat_eq (length arguments.now) (params_count made.now.tree) }
{
    arguments.len() == made.params_count()
}

/// A made block is called: E14 where no activation may begin.
#[cycle(machine)]
fn call_made<O: FindsMethods>(
    alloc: Global,
    objects: &mut O,
    locals: &mut Locals,
    stack: &mut Layers<Value>,
    chain: &mut Layers<Mark>,
    cache: &mut CodeCache,
    why: &mut Stop,
    made: &CodeBlock,
    count: usize,
    depth: u32,
) -> Called
    requires { count < length stack.old.own }
    ensures ran { Ran ((callee depth).block made.now (reverse (take count stack.old.own)))
        (O.seen objects.old) locals.old (called_as result why.new stack.new.own)
        (O.seen objects.new) locals.new }
    ensures own { IfAnswers result (IsAbove (drop (suc count) stack.old.own) stack.new.own) }
    ensures stack { stack.new.below ≡ stack.old.below }
    ensures chain { chain.new ≡ chain.old }
{
    if depth == 0 {
        *why = Stop::Fails(Fault::Depth);
        return Called::Stopped;
    }
    evaluate(
        alloc,
        objects,
        locals,
        stack,
        chain,
        cache,
        why,
        made,
        count,
        depth - 1,
    )
}

/// The evaluation of a made block, in which so many activations more may begin.
#[cycle(machine)]
fn evaluate<O: FindsMethods>(
    alloc: Global,
    objects: &mut O,
    locals: &mut Locals,
    stack: &mut Layers<Value>,
    chain: &mut Layers<Mark>,
    cache: &mut CodeCache,
    why: &mut Stop,
    made: &CodeBlock,
    count: usize,
    depth: u32,
) -> Called
    requires { count < length stack.old.own }
    ensures ran { Ran (evaluation (block_body (outside depth) made.now.tree made.now.place)
        (temps_count made.now.tree) made.now.frame (reverse (take count stack.old.own)))
        (O.seen objects.old) locals.old (called_as result why.new stack.new.own)
        (O.seen objects.new) locals.new }
    ensures own { IfAnswers result (IsAbove (drop (suc count) stack.old.own) stack.new.own) }
    ensures stack { stack.new.below ≡ stack.old.below }
    ensures chain { chain.new ≡ chain.old }
{
    let mark = locals.mark();
    let Ok(()) = locals.open_taking(stack, count, made.temps_count()) else {
        *why = Stop::NoMemory;
        return Called::Stopped;
    };
    stack.drop_upper(1);
    let (code, number) = made.code();
    let frame = made.outline();
    let ended = run_inside(
        alloc,
        objects,
        locals,
        stack,
        chain,
        cache,
        why,
        frame,
        made.scopes(),
        mark,
        code,
        Part::Block(number),
        depth,
    );
    end_block(objects, locals, stack, why, mark, frame.home(), ended)
}
