//! Instructions that are put out together, whatever part of a tree they come from.
ghost use Rattle.std.specs.Prelude.{◌≡◌, ◌<◌, ◌+◌, ◌++◌, ◌∷◌, [], suc, length, replicate, slice_set, IfOk, OnOk};
ghost use Rattle.st_tree.specs.Views.{constant_of};
ghost use Rattle.tree_meaning.specs.Names.{where_is};
ghost use Rattle.tree_meaning.specs.Meaning.{plain_constant};
ghost use Rattle.st_compiler.specs.Instruction as instruction;
ghost use Rattle.st_compiler.specs.Code.{jump_unless, begin_repeating};
ghost use Rattle.st_compiler.specs.TreeCode.{drop_handed, hand_code, return_op, literal_op, singleton_op, push_op, store_op, send_op};
ghost use Rattle.st_compiler.specs.Emitted.{instruction_of, instructions, Puts, assigned};

use crate::instr::{BlockBody, Instr};
use gem_object::{Text, Value};
use st_locals::{Place, plain_constant, where_is};
use st_tree::Literal;
use std::alloc::AllocError;
use tree_meaning::{Singleton, Where};

/// One instruction more.
pub(crate) fn put(code: &mut Vec<Instr>, one: Instr) -> Result<(), AllocError>
    ensures { OnOk result (Puts (instruction_of one ∷ []) code.old.items code.new.items) }
{
    code.push(one)?;
    Ok(())
}

pub(crate) fn put_pops(code: &mut Vec<Instr>, count: usize) -> Result<(), AllocError>
    ensures { OnOk result
        (Puts (replicate count instruction.Pop) code.old.items code.new.items) }
{
    for _value in 0..count {
        put(code, Instr::Pop)?;
    }
    Ok(())
}

pub(crate) fn return_op(in_block: bool) -> Instr
    ensures { instruction_of result ≡ return_op in_block }
{
    if in_block {
        Instr::ReturnHome
    } else {
        Instr::ReturnMethod
    }
}

pub(crate) fn literal_op(literal: &Literal) -> Result<Instr, AllocError>
    ensures { IfOk result (λ one. instruction_of one
        ≡ literal_op (plain_constant (constant_of literal.now)) (constant_of literal.now)) }
{
    match plain_constant(literal)? {
        Some(answer) => Ok(Instr::PushLit(answer)),
        None => Ok(Instr::MakeLit(literal.clone()?)),
    }
}

pub(crate) fn singleton_op(singleton: Singleton) -> Instr
    ensures { instruction_of result ≡ singleton_op singleton }
{
    match singleton {
        Singleton::Nil => Instr::PushNil,
        Singleton::True => Instr::PushTrue,
        Singleton::False => Instr::PushFalse,
    }
}

pub(crate) fn push_op(name: &Text, place: &Place) -> Result<Instr, AllocError>
    ensures { IfOk result (λ one. instruction_of one
        ≡ push_op (where_is name.now place.now.names) name.now) }
{
    match where_is(name, place) {
        Where::Receiver => Ok(Instr::PushSelf),
        Where::Fixed(singleton) => Ok(singleton_op(singleton)),
        Where::Variable(depth, index) => Ok(Instr::PushLocal(depth, index)),
        Where::OutOfScope => Ok(Instr::PushName(name.clone()?)),
    }
}

fn store_op(name: &Text, place: &Place) -> Result<Instr, AllocError>
    ensures { IfOk result (λ one. instruction_of one
        ≡ store_op (where_is name.now place.now.names) name.now) }
{
    match where_is(name, place) {
        Where::Variable(depth, index) => Ok(Instr::StoreLocal(depth, index)),
        Where::Receiver => Ok(Instr::StoreName(name.clone()?)),
        Where::Fixed(_) => Ok(Instr::StoreName(name.clone()?)),
        Where::OutOfScope => Ok(Instr::StoreName(name.clone()?)),
    }
}

/// The value goes to each of these, the last one first.
pub(crate) fn put_assigned(
    code: &mut Vec<Instr>,
    names: &[Text],
    place: &Place,
) -> Result<(), AllocError>
    ensures { OnOk result (Puts (assigned names.now place.now) code.old.items code.new.items) }
{
    let mut left = names.len();
    while left > 0 {
        left -= 1;
        let one = store_op(&names[left], place)?;
        put(code, one)?;
    }
    Ok(())
}

pub(crate) fn send_op(to_super: bool, selector: &Text, count: usize) -> Result<Instr, AllocError>
    ensures { IfOk result (λ one. instruction_of one ≡ send_op to_super selector.now count) }
{
    let selector = selector.clone()?;
    if to_super {
        return Ok(Instr::SuperSend(selector, count));
    }
    Ok(Instr::Send(selector, count))
}

/// What a block that isn't there is handed is dropped.
pub(crate) fn put_no_block(code: &mut Vec<Instr>, handed: bool) -> Result<(), AllocError>
    ensures { OnOk result (Puts (drop_handed handed ++ instruction.PushNil ∷ [])
        code.old.items code.new.items) }
{
    if !handed {
        return put(code, Instr::PushNil);
    }
    put(code, Instr::Pop)?;
    put(code, Instr::PushNil)
}

/// What a block is handed goes to its first parameter.
pub(crate) fn put_hand(
    code: &mut Vec<Instr>,
    params: &[Text],
    handed: bool,
) -> Result<(), AllocError>
    ensures { OnOk result (Puts (hand_code params.now handed) code.old.items code.new.items) }
{
    if !handed {
        return Ok(());
    }
    if params.is_empty() {
        return put(code, Instr::Pop);
    }
    put(code, Instr::StoreLocal(0, 0))?;
    put(code, Instr::Pop)
}

fn jump_unless(when: bool, ahead: usize) -> Instr
    ensures { instruction_of result ≡ jump_unless when ahead }
{
    if when {
        Instr::JumpFalse(ahead)
    } else {
        Instr::JumpTrue(ahead)
    }
}

fn put_all(code: &mut Vec<Instr>, more: Vec<Instr>) -> Result<(), AllocError>
    ensures { OnOk result (Puts (instructions more.items) code.old.items code.new.items) }
{
    let mut more = more;
    code.append(&mut more)
}

/// A block's code stands at its number from now on, and the block is put.
pub(crate) fn put_block(
    code: &mut Vec<Instr>,
    blocks: &mut Vec<BlockBody>,
    number: usize,
    own: BlockBody,
) -> Result<(), AllocError>
    requires { number < length blocks.old.items }
    ensures blocks { blocks.new.items ≡ slice_set blocks.old.items number own }
    ensures puts { OnOk result (Puts (instruction.PushBlock number ∷ [])
        code.old.items code.new.items) }
{
    blocks[number] = own;
    put(code, Instr::PushBlock(number))
}

/// One of two parts: the first where the uppermost value is this truth value.
pub(crate) fn put_choice(
    code: &mut Vec<Instr>,
    when: bool,
    first: Vec<Instr>,
    second: Vec<Instr>,
) -> Result<(), AllocError>
    ensures { OnOk result (Puts (jump_unless when (suc (length first.items))
        ∷ (instructions first.items
        ++ instruction.Jump (length second.items) ∷ instructions second.items))
        code.old.items code.new.items) }
{
    put(code, jump_unless(when, first.len() + 1))?;
    put_all(code, first)?;
    put(code, Instr::Jump(second.len()))?;
    put_all(code, second)
}

// What follows the condition of a while loop.
fn put_turn(
    code: &mut Vec<Instr>,
    when: bool,
    body: Vec<Instr>,
    back: usize,
) -> Result<(), AllocError>
    ensures { OnOk result (Puts (jump_unless when (length body.items + 3)
        ∷ instruction.TakeUnit ∷ (instructions body.items ++ instruction.Pop
        ∷ instruction.JumpBack back ∷ instruction.PushNil ∷ []))
        code.old.items code.new.items) }
{
    let ahead = body.len() + 3;
    put(code, jump_unless(when, ahead))?;
    put(code, Instr::TakeUnit)?;
    put_all(code, body)?;
    put(code, Instr::Pop)?;
    put(code, Instr::JumpBack(back))?;
    put(code, Instr::PushNil)
}

/// The turns of a while loop, and nil at the end.
pub(crate) fn put_while(
    code: &mut Vec<Instr>,
    when: bool,
    condition: Vec<Instr>,
    body: Vec<Instr>,
) -> Result<(), AllocError>
    ensures { OnOk result (Puts (instructions condition.items
        ++ jump_unless when (length body.items + 3) ∷ instruction.TakeUnit
        ∷ (instructions body.items ++ instruction.Pop
        ∷ instruction.JumpBack (length condition.items + length body.items + 3)
        ∷ instruction.PushNil ∷ []))
        code.old.items code.new.items) }
{
    let back = condition.len() + body.len() + 3;
    put_all(code, condition)?;
    put_turn(code, when, body, back)
}

/// A counting loop between the two uppermost values.
pub(crate) fn put_count(code: &mut Vec<Instr>, body: Vec<Instr>) -> Result<(), AllocError>
    ensures { OnOk result (Puts (instruction.LoopStart
        ∷ instruction.LoopNext (length body.items + 3) ∷ instruction.TakeUnit
        ∷ (instructions body.items ++ instruction.Pop
        ∷ instruction.LoopStep (length body.items + 3) ∷ []))
        code.old.items code.new.items) }
{
    let past = body.len() + 3;
    put(code, Instr::LoopStart)?;
    put(code, Instr::LoopNext(past))?;
    put(code, Instr::TakeUnit)?;
    put_all(code, body)?;
    put(code, Instr::Pop)?;
    put(code, Instr::LoopStep(past))
}

/// The number of turns stays on the stack, with the ends of a counting loop above it.
pub(crate) fn put_begin_repeating(code: &mut Vec<Instr>) -> Result<(), AllocError>
    ensures { OnOk result (Puts begin_repeating code.old.items code.new.items) }
{
    put(code, Instr::Enter(1))?;
    put(code, Instr::StoreLocal(0, 0))?;
    put(code, Instr::PushLit(Value::Int(1)))?;
    put(code, Instr::PushLocal(0, 0))?;
    put(code, Instr::Leave)
}
