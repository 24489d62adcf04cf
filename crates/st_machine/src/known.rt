//! Messages whose answers are known: the method that answers is remembered, and it is a primitive
//! that is ready, or its code is remembered too and answers by one push that asks no objects.
ghost use Rattle.std.specs.Prelude.{◌≡◌, ◌<◌, ◌∷◌, ℤ, true, false, suc, length, get_or, take, drop, reverse, IfOk, IfSome};
ghost use Rattle.gem_object.specs.declared.value.Value.TheVariants.{Nil, Int};
ghost use Rattle.tree_meaning.specs.object_programs.Budget.{Budget};
ghost use Rattle.gem_language.specs.Sends.{outside, callee};
ghost use Rattle.running_objects.specs.Seen.{Keeps};
ghost use Rattle.look_up_cache.specs.Memory.{with_budget};
ghost use Rattle.look_up_cache.specs.Operators.{operator_selector};
ghost use Rattle.look_up_cache.specs.Table.{held_at};
ghost use Rattle.st_compiler.specs.Emitted.{instruction_of};
ghost use Rattle.st_compiler.specs.Instruction.{PushName, Send};
ghost use Rattle.st_machine.specs.AtOnce.{IsReady};
ghost use Rattle.st_machine.specs.Led.{TurnedBy, TurnsForward, IfDone, IfLeft};
ghost use Rattle.st_machine.specs.Parts.{framed, table_of};
ghost use Rattle.look_up_cache.specs.Variables.{bare_frame};
ghost use Rattle.st_machine.specs.Quick.{constant_put, Replaced, AnswersQuickly, PushedAtOnce};
ghost use Rattle.st_machine.specs.Ready.{PutBy, ReadyPut};
ghost use Rattle.st_machine.specs.Targets.{found_by, Answered, AnswersAt};

use crate::border::known_place;
use crate::changing::send_changing;
use crate::elements::{answer_element, keep_element, put_element};
use crate::finds::FindsMethods;
use crate::flow::Turned;
use crate::layers::Layers;
use crate::locals::Locals;
use crate::outline::Outline;
use crate::quick::quick_instr;
use crate::shared_code::SharedCode;
use crate::units::spend_unit;
use gem_object::{MethodCode, Oid, Text, Value};
use look_up_cache::{ElementMessage, IntegerOperator};
use st_compiler::Instr;
use tree_meaning::Mark;

/// Sends a message with so many arguments, where its answer is known. Else it is left, with the
/// place of what answers it, where that is known. It takes no memory, but for the copy of a symbol.
pub(crate) fn send_known<O: FindsMethods>(
    objects: &mut O,
    locals: &Locals,
    stack: &mut Layers<Value>,
    chain: &Layers<Mark>,
    frame: &Outline,
    code: &SharedCode,
    selector: &Text,
    count: usize,
    place: usize,
    depth: u32,
) -> Turned
    ensures keeps { Keeps (O.seen objects.old) (O.seen objects.new) }
    ensures led { IfDone result (λ turned. TurnedBy (outside depth) (table_of code.now)
        (Send selector.now count) place stack.old.own chain.now.own frame.now (O.seen objects.old)
        locals.now turned stack.new.own chain.now.own (O.seen objects.new) locals.now) }
    ensures forward { IfDone result (λ turned. IfOk turned (TurnsForward place)) }
    ensures place { IfLeft result (λ at. AnswersAt (Send selector.now count) stack.old.own
        (framed chain.now.own frame.now) (O.seen objects.new) locals.now (O.founds objects.new)
        at) }
    ensures seen { IfLeft result (λ _. O.seen objects.new ≡ O.seen objects.old) }
    ensures own { IfLeft result (λ _. stack.new.own ≡ stack.old.own) }
    ensures below { stack.new.below ≡ stack.old.below }
{
    if stack.height() <= count {
        return Turned::Left(None);
    }
    if answer_at_once(objects, locals, stack, chain, frame, selector, count, depth) {
        return Turned::Done(spend_unit(objects, place));
    }
    let put = send_element_put(
        objects, locals, stack, chain, frame, code, selector, count, place, depth,
    );
    match put {
        Turned::Done(turned) => Turned::Done(turned),
        Turned::Left(_) => send_looked_up(
            objects, locals, stack, chain, frame, code, selector, count, place, depth,
        ),
    }
}

/// Puts the answer to a message in place of its receiver and its argument, where it is an operator
/// of integers or `at:`, and what it answers is known without a look-up. Its unit isn't taken yet.
/// Else false, and all is as before.
#[inline(always)]
fn answer_at_once<O: FindsMethods>(
    objects: &O,
    locals: &Locals,
    stack: &mut Layers<Value>,
    chain: &Layers<Mark>,
    frame: &Outline,
    selector: &Text,
    count: usize,
    depth: u32,
) -> bool
    requires { count < length stack.old.own }
    ensures answered { result ≡ true → (budget : Budget) → Answered
        (found_by (callee depth) selector.now (framed chain.now.own frame.now)
        (get_or stack.old.own count Nil) (take count stack.old.own))
        (with_budget budget (O.seen objects.now)) locals.now (drop (suc count) stack.old.own)
        stack.new.own }
    ensures unchanged { result ≡ false → stack.new.own ≡ stack.old.own }
    ensures below { stack.new.below ≡ stack.old.below }
{
    answer_integers(objects, locals, stack, chain, frame, selector, count, depth)
        || answer_element(objects, locals, stack, chain, frame, selector, count, depth)
}

/// Sends `at:put:`, where it is known without a look-up that it ends well unless something is lacking
/// for it. Any other message is left, and all is as before.
#[inline(always)]
fn send_element_put<O: FindsMethods>(
    objects: &mut O,
    locals: &Locals,
    stack: &mut Layers<Value>,
    chain: &Layers<Mark>,
    frame: &Outline,
    code: &SharedCode,
    selector: &Text,
    count: usize,
    place: usize,
    depth: u32,
) -> Turned
    requires { count < length stack.old.own }
    ensures keeps { Keeps (O.seen objects.old) (O.seen objects.new) }
    ensures led { IfDone result (λ turned. TurnedBy (outside depth) (table_of code.now)
        (Send selector.now count) place stack.old.own chain.now.own frame.now (O.seen objects.old)
        locals.now turned stack.new.own chain.now.own (O.seen objects.new) locals.now) }
    ensures forward { IfDone result (λ turned. IfOk turned (TurnsForward place)) }
    ensures unchanged { IfLeft result (λ _. objects.new ≡ objects.old) }
    ensures own { IfLeft result (λ _. stack.new.own ≡ stack.old.own) }
    ensures below { stack.new.below ≡ stack.old.below }
{
    if count != 2 {
        return Turned::Left(None);
    }
    let Some(ElementMessage::AtPut) = ElementMessage::of(selector) else {
        return Turned::Left(None);
    };
    let put = put_element(
        objects, locals, stack, chain, frame, code, selector, place, depth,
    );
    put.turned(place, None)
}

/// The same of a message that isn't one of the operators of integers. What it keeps is not kept for
/// these.
#[inline(always)]
fn send_looked_up<O: FindsMethods>(
    objects: &mut O,
    locals: &Locals,
    stack: &mut Layers<Value>,
    chain: &Layers<Mark>,
    frame: &Outline,
    code: &SharedCode,
    selector: &Text,
    count: usize,
    place: usize,
    depth: u32,
) -> Turned
    requires { count < length stack.old.own }
    ensures keeps { Keeps (O.seen objects.old) (O.seen objects.new) }
    ensures led { IfDone result (λ turned. TurnedBy (outside depth) (table_of code.now)
        (Send selector.now count) place stack.old.own chain.now.own frame.now (O.seen objects.old)
        locals.now turned stack.new.own chain.now.own (O.seen objects.new) locals.now) }
    ensures forward { IfDone result (λ turned. IfOk turned (TurnsForward place)) }
    ensures place { IfLeft result (λ at. AnswersAt (Send selector.now count) stack.old.own
        (framed chain.now.own frame.now) (O.seen objects.new) locals.now (O.founds objects.new)
        at) }
    ensures seen { IfLeft result (λ _. O.seen objects.new ≡ O.seen objects.old) }
    ensures own { IfLeft result (λ _. stack.new.own ≡ stack.old.own) }
    ensures below { stack.new.below ≡ stack.old.below }
{
    let Some(at) = place_of_answer(objects, locals, stack, chain, frame, selector, count) else {
        return Turned::Left(None);
    };
    if count == 2 {
        let changed = send_changing(
            objects, locals, stack, chain, frame, code, selector, count, at, place, depth,
        );
        return changed.turned(place, Some(at));
    }
    if depth == 0 {
        return Turned::Left(Some(at));
    }
    if put_at(objects, stack, at, count) {
        return Turned::Done(spend_unit(objects, place));
    }
    Turned::Left(Some(at))
}

/// Puts the answer to an operator in place of its receiver and its argument, where it is known that
/// integers answer it by a primitive that is ready. Its unit isn't taken yet. Else false, and all is
/// as before.
#[inline(always)]
fn answer_integers<O: FindsMethods>(
    objects: &O,
    locals: &Locals,
    stack: &mut Layers<Value>,
    chain: &Layers<Mark>,
    frame: &Outline,
    selector: &Text,
    count: usize,
    depth: u32,
) -> bool
    requires { count < length stack.old.own }
    ensures answered { result ≡ true → (budget : Budget) → Answered
        (found_by (callee depth) selector.now (framed chain.now.own frame.now)
        (get_or stack.old.own count Nil) (take count stack.old.own))
        (with_budget budget (O.seen objects.now)) locals.now (drop (suc count) stack.old.own)
        stack.new.own }
    ensures unchanged { result ≡ false → stack.new.own ≡ stack.old.own }
    ensures below { stack.new.below ≡ stack.old.below }
{
    if count != 1 || depth == 0 {
        return false;
    }
    let Some(operator) = operator_for(stack, selector, count) else {
        return false;
    };
    if !objects.answers_integers(operator) {
        return false;
    }
    put_computed(objects, stack, operator.number(), count)
}

/// The operator with this selector, where its receiver, below so many arguments, is an integer.
#[inline(always)]
fn operator_for(stack: &Layers<Value>, selector: &Text, count: usize) -> Option<IntegerOperator>
    requires { count < length stack.now.own }
    ensures selector { IfSome result (λ operator. operator_selector operator ≡ selector.now) }
    ensures receiver { IfSome result (λ _. (number : ℤ)
        × (get_or stack.now.own count Nil ≡ Int number)) }
{
    match stack.at_depth(count) {
        Value::Int(_) => IntegerOperator::of(selector),
        _ => None,
    }
}

/// The place at which what answers a message with so many arguments stands, where that is known.
#[inline(always)]
fn place_of_answer<O: FindsMethods>(
    objects: &O,
    locals: &Locals,
    stack: &Layers<Value>,
    chain: &Layers<Mark>,
    frame: &Outline,
    selector: &Text,
    count: usize,
) -> Option<usize>
    requires { count < length stack.now.own }
    ensures { AnswersAt (Send selector.now count) stack.now.own (framed chain.now.own frame.now)
        (O.seen objects.now) locals.now (O.founds objects.now) result }
{
    known_place(
        objects,
        locals,
        chain,
        frame,
        stack.at_depth(count),
        selector,
    )
}

/// Puts the answer of the method that stands at a place in place of the receiver and of so many
/// arguments above it, where it answers by one push or is a primitive that is ready. Else false,
/// and all is as before.
#[inline(never)]
fn put_at<O: FindsMethods>(
    objects: &mut O,
    stack: &mut Layers<Value>,
    at: usize,
    count: usize,
) -> bool
    requires { count < length stack.old.own }
    ensures objects { objects.new ≡ objects.old }
    ensures put { result ≡ true → PutBy (held_at (O.founds objects.old) at)
        (get_or stack.old.own count Nil) (reverse (take count stack.old.own))
        (O.seen objects.old) (drop (suc count) stack.old.own) stack.new.own }
    ensures unchanged { result ≡ false → stack.new.own ≡ stack.old.own }
    ensures below { stack.new.below ≡ stack.old.below }
{
    let Some(found) = objects.found(at) else {
        return false;
    };
    match &found.code {
        MethodCode::Primitive(number) => {
            let number = *number;
            keep_element(objects, stack, number, at, count);
            put_ready(objects, stack, number, count)
        }
        MethodCode::Source(_) => match quick_at(objects, at) {
            Some(instr) => put_push(objects, stack, instr, found.holder, found.class_side, count),
            None => false,
        },
    }
}

/// Puts the answer of a primitive in place of the receiver and of so many arguments above it, where
/// it is ready. Else false, and all is as before.
#[inline(always)]
fn put_ready<O: FindsMethods>(
    objects: &O,
    stack: &mut Layers<Value>,
    number: u8,
    count: usize,
) -> bool
    requires { count < length stack.old.own }
    ensures put { result ≡ true → ReadyPut number (get_or stack.old.own count Nil)
        (reverse (take count stack.old.own)) (O.seen objects.now)
        (drop (suc count) stack.old.own) stack.new.own }
    ensures unchanged { result ≡ false → stack.new.own ≡ stack.old.own }
    ensures below { stack.new.below ≡ stack.old.below }
{
    match answer_ready(objects, number, stack.at_depth(count), stack.upper(count)) {
        Some(value) => put_over(stack, count, value),
        None => false,
    }
}

/// The answer of a primitive, where it is ready: of integers it is computed, and of the parts of an
/// object it may be known.
#[inline(always)]
fn answer_ready<O: FindsMethods>(
    objects: &O,
    number: u8,
    receiver: &Value,
    arguments: &[Value],
) -> Option<Value>
    ensures { IfSome result (λ value.
        IsReady number receiver.now arguments.now (O.seen objects.now) value) }
{
    if number == 33 || number == 34 {
        known_part(objects, number, receiver, arguments)
    } else {
        computed(objects, number, receiver, arguments)
    }
}

/// Puts the answer of a primitive in place of the receiver and of so many arguments above it, where
/// it is computed from them alone. Else false, and all is as before. Each kind of value is put by
/// itself, so that none of them needs a place in memory.
#[inline(always)]
fn put_computed<O: FindsMethods>(
    objects: &O,
    stack: &mut Layers<Value>,
    number: u8,
    count: usize,
) -> bool
    requires { count < length stack.old.own }
    ensures put { result ≡ true → ReadyPut number (get_or stack.old.own count Nil)
        (reverse (take count stack.old.own)) (O.seen objects.now)
        (drop (suc count) stack.old.own) stack.new.own }
    ensures unchanged { result ≡ false → stack.new.own ≡ stack.old.own }
    ensures below { stack.new.below ≡ stack.old.below }
{
    match computed(objects, number, stack.at_depth(count), stack.upper(count)) {
        Some(Value::Int(answer)) => put_over(stack, count, Value::Int(answer)),
        Some(Value::True) => put_over(stack, count, Value::True),
        Some(Value::False) => put_over(stack, count, Value::False),
        _ => false,
    }
}

/// The answer of a primitive, where it is computed from these values alone.
#[inline(always)]
fn computed<O: FindsMethods>(
    objects: &O,
    number: u8,
    receiver: &Value,
    arguments: &[Value],
) -> Option<Value>
    ensures { IfSome result (λ value.
        IsReady number receiver.now arguments.now (O.seen objects.now) value) }
{
    prim_calls::ready(number, receiver, arguments)
}

/// The answer of `size` or `at:`, where it is known.
#[inline(always)]
fn known_part<O: FindsMethods>(
    objects: &O,
    number: u8,
    receiver: &Value,
    arguments: &[Value],
) -> Option<Value>
    ensures { IfSome result (λ value.
        IsReady number receiver.now arguments.now (O.seen objects.now) value) }
{
    objects.known_answer(number, receiver, arguments)
}

/// What puts the answer of the method that stands at a place, where its code is kept and it answers
/// by one push.
fn quick_at<O: FindsMethods>(objects: &O, at: usize) -> Option<&Instr>
    ensures { IfSome result (λ one. IfSome (held_at (O.founds objects.now) at) (λ found.
        AnswersQuickly (held_at (O.founds objects.now) at) found.holder found.class_side
        (instruction_of one.now))) }
{
    let found = objects.found(at)?;
    match &found.code {
        MethodCode::Source(_) => {
            let code = objects.code(at)?;
            let instr = quick_instr(code)?;
            Some(instr)
        }
        MethodCode::Primitive(_) => None,
    }
}

/// Puts what the instruction puts in place of the receiver and of so many arguments above it, in a
/// method that this class holds, on its class side or not: where it is known without a look at any
/// object. Else false, and all is as before.
fn put_push<O: FindsMethods>(
    objects: &O,
    stack: &mut Layers<Value>,
    instr: &Instr,
    holder: Oid,
    class_side: bool,
    count: usize,
) -> bool
    requires { count < length stack.old.own }
    ensures put { result ≡ true → PushedAtOnce (instruction_of instr.now)
        (bare_frame (get_or stack.old.own count Nil) holder class_side) (O.seen objects.now)
        (drop (suc count) stack.old.own) stack.new.own }
    ensures unchanged { result ≡ false → stack.new.own ≡ stack.old.own }
    ensures below { stack.new.below ≡ stack.old.below }
{
    match instr {
        Instr::PushName(name) => put_variable(objects, stack, name, holder, class_side, count),
        _ => put_constant(stack, instr, count),
    }
}

/// Puts what this name stands for, which is no variable in scope.
#[inline(never)]
fn put_variable<O: FindsMethods>(
    objects: &O,
    stack: &mut Layers<Value>,
    name: &Text,
    holder: Oid,
    class_side: bool,
    count: usize,
) -> bool
    requires { count < length stack.old.own }
    ensures put { result ≡ true → PushedAtOnce (PushName name.now)
        (bare_frame (get_or stack.old.own count Nil) holder class_side) (O.seen objects.now)
        (drop (suc count) stack.old.own) stack.new.own }
    ensures unchanged { result ≡ false → stack.new.own ≡ stack.old.own }
    ensures below { stack.new.below ≡ stack.old.below }
{
    match objects.known_variable(name, stack.at_depth(count), holder, class_side) {
        Some(value) => put_over(stack, count, value),
        None => false,
    }
}

/// Puts what the instruction puts in place of the receiver and of so many arguments above it, where
/// it asks no objects. Else false, and all is as before.
fn put_constant(stack: &mut Layers<Value>, instr: &Instr, count: usize) -> bool
    requires { count < length stack.old.own }
    ensures put { result ≡ true → Replaced (constant_put (instruction_of instr.now)
        (get_or stack.old.own count Nil)) (drop (suc count) stack.old.own) stack.new.own }
    ensures unchanged { result ≡ false → stack.new.own ≡ stack.old.own }
    ensures below { stack.new.below ≡ stack.old.below }
{
    match instr {
        Instr::PushSelf => {
            stack.drop_upper(count);
            true
        }
        Instr::PushNil => put_over(stack, count, Value::Nil),
        Instr::PushTrue => put_over(stack, count, Value::True),
        Instr::PushFalse => put_over(stack, count, Value::False),
        Instr::PushLit(value) => match value.clone() {
            Ok(value) => put_over(stack, count, value),
            Err(_) => false,
        },
        _ => false,
    }
}

/// Puts a value in place of the receiver and of so many arguments above it. Always true.
#[inline(always)]
pub(crate) fn put_over(stack: &mut Layers<Value>, count: usize, value: Value) -> bool
    requires { count < length stack.old.own }
    ensures done { result ≡ true }
    ensures own { stack.new.own ≡ value ∷ drop (suc count) stack.old.own }
    ensures below { stack.new.below ≡ stack.old.below }
{
    stack.put(count, value);
    stack.drop_upper(count);
    true
}
