//! Methods that answer by one push: their first instruction puts a value, and the second returns
//! it. They are answered without an activation.
ghost use Rattle.std.specs.Prelude.{◌≡◌, ◌<◌, true, suc, length, get_or, reverse, take, drop, IfSome};
ghost use Rattle.gem_object.specs.declared.value.Value.TheVariants.{Nil};
ghost use Rattle.tree_meaning.specs.Bodies.{method_body};
ghost use Rattle.tree_meaning.specs.Calls.{activation};
ghost use Rattle.gem_language.specs.Commands.{selector_of};
ghost use Rattle.gem_language.specs.Sends.{outside};
ghost use Rattle.prim_parts.specs.Does.{Does};
ghost use Rattle.running_objects.specs.Ran.{Ran};
ghost use Rattle.st_compiler.specs.Emitted.{instruction_of};
ghost use Rattle.st_compiler.specs.Instruction.{ReturnMethod};
ghost use Rattle.look_up_cache.specs.Variables.{bare_frame};
ghost use Rattle.st_machine.specs.Called.{called_as, IfAnswers, IsAbove};
ghost use Rattle.st_machine.specs.Quick.{IsPut, put_value, IsQuick, at_home};

use crate::ended::Called;
use crate::finds::FindsMethods;
use crate::layers::Layers;
use crate::locals::Locals;
use crate::outline::Outline;
use crate::shared_code::{Part, SharedCode};
use gem_object::{Oid, Value};
use running_objects::Stop;
use st_compiler::Instr;
use std::alloc::Global;

/// What puts the answer of a method that answers by one push. Where there is none the method has to
/// be activated.
pub(crate) fn quick_instr(code: &SharedCode) -> Option<&Instr>
    ensures { IfSome result (λ one. IsQuick code.now (instruction_of one.now)) }
{
    let instrs = code.code_of(Part::Whole);
    let (Some(first), Some(second)) = (instrs.first(), instrs.get(1)) else {
        return None;
    };
    if is_put(first) && is_return(second) {
        Some(first)
    } else {
        None
    }
}

fn is_return(instr: &Instr) -> bool
    ensures { result ≡ true → instruction_of instr.now ≡ ReturnMethod }
{
    matches!(instr, Instr::ReturnMethod)
}

fn is_put(instr: &Instr) -> bool
    ensures { result ≡ true → IsPut (instruction_of instr.now) }
{
    match instr {
        Instr::PushSelf
        | Instr::PushNil
        | Instr::PushTrue
        | Instr::PushFalse
        | Instr::PushLit(_)
        | Instr::PushName(_) => true,
        _ => false,
    }
}

/// Calls such a method: its receiver and so many arguments stand on the stack, and its answer comes
/// in their place.
#[inline(never)]
pub(crate) fn call_quickly<O: FindsMethods>(
    alloc: Global,
    objects: &mut O,
    locals: &Locals,
    stack: &mut Layers<Value>,
    why: &mut Stop,
    code: &SharedCode,
    instr: &Instr,
    holder: Oid,
    class_side: bool,
    count: usize,
    depth: u32,
) -> Called
    requires height { count < length stack.old.own }
    requires method { code.now.selector ≡ Some (selector_of code.now) }
    requires quick { IsQuick code.now (instruction_of instr.now) }
    ensures ran { Ran (activation (method_body (outside depth) code.now) (length code.now.temps)
        holder class_side (get_or stack.old.own count Nil) (reverse (take count stack.old.own)))
        (O.seen objects.old) locals.now (called_as result why.new stack.new.own)
        (O.seen objects.new) locals.now }
    ensures own { IfAnswers result (IsAbove (drop (suc count) stack.old.own) stack.new.own) }
    ensures below { stack.new.below ≡ stack.old.below }
{
    let answered = answer_quickly(
        alloc, objects, locals, stack, code, instr, holder, class_side, count, depth,
    );
    match answered {
        Ok(answer) => match stack.push(answer) {
            Ok(()) => Called::Answers,
            Err(_) => {
                *why = Stop::NoMemory;
                Called::Stopped
            }
        },
        Err(stop) => {
            *why = stop;
            Called::Stopped
        }
    }
}

/// The answer of such a method, which is called: its receiver and so many arguments stand on the
/// stack, and are taken from there.
fn answer_quickly<O: FindsMethods>(
    alloc: Global,
    objects: &mut O,
    locals: &Locals,
    stack: &mut Layers<Value>,
    code: &SharedCode,
    instr: &Instr,
    holder: Oid,
    class_side: bool,
    count: usize,
    depth: u32,
) -> Result<Value, Stop>
    requires height { count < length stack.old.own }
    requires method { code.now.selector ≡ Some (selector_of code.now) }
    requires quick { IsQuick code.now (instruction_of instr.now) }
    ensures ran { Ran (activation (method_body (outside depth) code.now) (length code.now.temps)
        holder class_side (get_or stack.old.own count Nil) (reverse (take count stack.old.own)))
        (O.seen objects.old) locals.now result (O.seen objects.new) locals.now }
    ensures own { stack.new.own ≡ drop (suc count) stack.old.own }
    ensures below { stack.new.below ≡ stack.old.below }
{
    let ended = value_put(
        alloc,
        objects,
        instr,
        stack.at_depth(count),
        holder,
        class_side,
    );
    stack.drop_upper(count);
    let Some(_) = stack.pop() else { unreachable!() };
    answer_at(locals.mark().living, ended)
}

/// What such an instruction puts.
fn value_put<O: FindsMethods>(
    alloc: Global,
    objects: &mut O,
    instr: &Instr,
    receiver: &Value,
    holder: Oid,
    class_side: bool,
) -> Result<Value, Stop>
    requires { IsPut (instruction_of instr.now) }
    ensures { Does (put_value (instruction_of instr.now)
        (bare_frame receiver.now holder class_side)) (O.seen objects.old) result
        (O.seen objects.new) }
{
    match instr {
        Instr::PushSelf => Ok(receiver.clone()?),
        Instr::PushNil => Ok(Value::Nil),
        Instr::PushTrue => Ok(Value::True),
        Instr::PushFalse => Ok(Value::False),
        Instr::PushLit(value) => Ok(value.clone()?),
        Instr::PushName(name) => {
            let frame = Outline::of(alloc, receiver.clone()?, 0, holder, class_side);
            objects.read_name(frame.frame(), name)
        }
        _ => unreachable!(),
    }
}

/// The answer of the activation of this number, to which a value may return. No such instruction
/// returns one, but its clause doesn't say so.
fn answer_at(home: u64, ended: Result<Value, Stop>) -> Result<Value, Stop>
    ensures { result ≡ at_home home ended }
{
    match ended {
        Err(Stop::Returns(answer, number)) => {
            if number == home {
                return Ok(answer);
            }
            Err(Stop::Returns(answer, number))
        }
        _ => ended,
    }
}
