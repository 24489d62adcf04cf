//! `at:` and `at:put:`, where it is known from the receiver alone that the primitives of sequences
//! answer them.
ghost use Rattle.std.specs.Prelude.{◌≡◌, ◌<◌, [], ◌∷◌, None, IfSome, codes, suc, true, false, length, get_or, take, drop, reverse};
ghost use Rattle.gem_object.specs.declared.value.Value.TheVariants.{Nil};
ghost use Rattle.tree_meaning.specs.object_programs.Budget.{Budget};
ghost use Rattle.gem_language.specs.Sends.{outside, callee};
ghost use Rattle.prim_parts.specs.Does.{Does};
ghost use Rattle.running_objects.specs.Seen.{Keeps};
ghost use Rattle.look_up_cache.specs.Memory.{with_budget};
ghost use Rattle.look_up_cache.specs.Answering.{AnswersBy};
ghost use Rattle.st_compiler.specs.Instruction.{Send};
ghost use Rattle.st_machine.specs.AtOnce.{with_unit, giving, answering};
ghost use Rattle.st_machine.specs.Changed.{IfChanged};
ghost use Rattle.st_machine.specs.Led.{TurnedBy};
ghost use Rattle.st_machine.specs.Parts.{framed, table_of};
ghost use Rattle.st_machine.specs.Ready.{ReadyPut};
ghost use Rattle.st_machine.specs.Targets.{found_by, Answered};
ghost use Rattle.st_machine.specs.declared.changed.Changed.TheVariants.{Unknown};

use crate::changed::Changed;
use crate::finds::FindsMethods;
use crate::known::put_over;
use crate::lack::Lack;
use crate::layers::Layers;
use crate::locals::Locals;
use crate::outline::Outline;
use crate::shared_code::SharedCode;
use gem_object::{Text, Value};
use look_up_cache::ElementMessage;
use tree_meaning::Mark;

/// Puts the answer to a message in place of its receiver and its argument, where it is `at:` and it
/// is known what it answers. Its unit isn't taken yet. Else false, and all is as before.
#[inline(always)]
pub(crate) fn answer_element<O: FindsMethods>(
    objects: &O,
    locals: &Locals,
    stack: &mut Layers<Value>,
    chain: &Layers<Mark>,
    frame: &Outline,
    selector: &Text,
    count: usize,
    depth: u32,
) -> bool
    requires { count < length stack.old.own }
    ensures answered { result ≡ true → (budget : Budget) → Answered
        (found_by (callee depth) selector.now (framed chain.now.own frame.now)
        (get_or stack.old.own count Nil) (take count stack.old.own))
        (with_budget budget (O.seen objects.now)) locals.now (drop (suc count) stack.old.own)
        stack.new.own }
    ensures unchanged { result ≡ false → stack.new.own ≡ stack.old.own }
    ensures below { stack.new.below ≡ stack.old.below }
{
    if count != 1 || depth == 0 {
        return false;
    }
    match ElementMessage::of(selector) {
        Some(ElementMessage::At) => put_element_over(objects, stack),
        _ => false,
    }
}

// The same of `at:`.
#[inline(never)]
fn put_element_over<O: FindsMethods>(objects: &O, stack: &mut Layers<Value>) -> bool
    requires { 1 < length stack.old.own }
    ensures answers { result ≡ true
        → AnswersBy 34 (get_or stack.old.own 1 Nil) (codes "at:") (O.seen objects.now) }
    ensures put { result ≡ true → ReadyPut 34 (get_or stack.old.own 1 Nil)
        (reverse (take 1 stack.old.own)) (O.seen objects.now) (drop 2 stack.old.own)
        stack.new.own }
    ensures unchanged { result ≡ false → stack.new.own ≡ stack.old.own }
    ensures below { stack.new.below ≡ stack.old.below }
{
    match objects.known_element(stack.at_depth(1), stack.at_depth(0)) {
        Some(value) => put_over(stack, 1, value),
        None => false,
    }
}

/// Sends `at:put:`, where it is known that it ends well unless something is lacking for it.
#[inline(never)]
pub(crate) fn put_element<O: FindsMethods>(
    objects: &mut O,
    locals: &Locals,
    stack: &mut Layers<Value>,
    chain: &Layers<Mark>,
    frame: &Outline,
    code: &SharedCode,
    selector: &Text,
    place: usize,
    depth: u32,
) -> Changed
    requires height { 2 < length stack.old.own }
    requires selector { selector.now ≡ codes "at:put:" }
    ensures keeps { Keeps (O.seen objects.old) (O.seen objects.new) }
    ensures led { IfChanged result place (λ turned. TurnedBy (outside depth) (table_of code.now)
        (Send selector.now 2) place stack.old.own chain.now.own frame.now (O.seen objects.old)
        locals.now turned stack.new.own chain.now.own (O.seen objects.new) locals.now) }
    ensures unchanged { result ≡ Unknown → objects.new ≡ objects.old }
    ensures own { result ≡ Unknown → stack.new.own ≡ stack.old.own }
    ensures below { stack.new.below ≡ stack.old.below }
{
    match put_copy(
        objects,
        stack.at_depth(2),
        stack.at_depth(1),
        stack.at_depth(0),
    ) {
        Some(Ok(())) => {
            keep_top(stack);
            Changed::Stands
        }
        Some(Err(lack)) => Changed::lacking(lack),
        None => Changed::Unknown,
    }
}

// Takes the unit of `at:put:` and does that, as `do_known_put` does. An integer is put without a look
// at what other values there are.
#[inline(always)]
fn put_copy<O: FindsMethods>(
    objects: &mut O,
    receiver: &Value,
    index: &Value,
    value: &Value,
) -> Option<Result<(), Lack>>
    ensures answers { IfSome result (λ _.
        AnswersBy 35 receiver.now (codes "at:put:") (O.seen objects.old)) }
    ensures done { IfSome result (λ ended. Does
        (with_unit 35 receiver.now (index.now ∷ value.now ∷ [])) (O.seen objects.old)
        (giving (answering value.now ended)) (O.seen objects.new)) }
    ensures unchanged { result ≡ None → objects.new ≡ objects.old }
{
    match value {
        Value::Int(number) => objects.do_known_put(receiver, index, &Value::Int(*number)),
        _ => objects.do_known_put(receiver, index, value),
    }
}

// Drops the two values below the uppermost one, which is the answer.
#[inline(always)]
fn keep_top(stack: &mut Layers<Value>)
    requires { 2 < length stack.old.own }
    ensures own { stack.new.own ≡ get_or stack.old.own 0 Nil ∷ drop 3 stack.old.own }
    ensures below { stack.new.below ≡ stack.old.below }
{
    let Some(answer) = stack.pop() else {
        unreachable!()
    };
    stack.drop_upper(1);
    stack.put(0, answer);
}

/// Remembers with the receiver, below so many arguments, that the primitive of this number, which
/// stands at a place, answers its `at:` or its `at:put:`, if it is one of these.
#[inline(always)]
pub(crate) fn keep_element<O: FindsMethods>(
    objects: &mut O,
    stack: &Layers<Value>,
    number: u8,
    at: usize,
    count: usize,
)
    requires { count < length stack.now.own }
    ensures { objects.new ≡ objects.old }
{
    let receiver = stack.at_depth(count);
    if number == ElementMessage::At.number() {
        objects.keep_element(receiver, ElementMessage::At, at);
    } else if number == ElementMessage::AtPut.number() {
        objects.keep_element(receiver, ElementMessage::AtPut, at);
    }
}
