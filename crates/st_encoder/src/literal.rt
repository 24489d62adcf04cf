//! The literals of instructions.
ghost use Rattle.std.specs.Prelude.{◌≡◌, IfOk, option_to_list};
ghost use Rattle.st_compiler.specs.Emitted.{instruction_of};
ghost use Rattle.st_encoder.specs.Bytes.{value_literal, literals_in};

use gem_object::Value;
use st_compiler::Instr;
use st_tree::Literal;
use std::alloc::AllocError;

// A value that no literal stands for is in no code of a tree.
fn value_literal(answer: &Value) -> Result<Literal, AllocError>
    ensures { IfOk result (λ literal. literal ≡ value_literal answer.now) }
{
    Ok(match answer {
        Value::Nil => Literal::Nil,
        Value::False => Literal::False,
        Value::True => Literal::True,
        Value::Int(number) => Literal::Int(*number),
        Value::Char(code) => Literal::Char(*code),
        Value::Sym(name) => Literal::Sym(name.clone()?),
        Value::Ref(_) => Literal::Nil,
        Value::Block(_) => Literal::Nil,
    })
}

/// The literal of an instruction, where it has one.
pub(crate) fn literal_in(one: &Instr) -> Result<Option<Literal>, AllocError>
    ensures { IfOk result (λ found. option_to_list found ≡ literals_in (instruction_of one.now)) }
{
    Ok(match one {
        Instr::PushLit(answer) => Some(value_literal(answer)?),
        Instr::MakeLit(literal) => Some(literal.clone()?),
        Instr::PushName(name) => Some(Literal::Sym(name.clone()?)),
        Instr::StoreName(name) => Some(Literal::Sym(name.clone()?)),
        Instr::Send(selector, _) => Some(Literal::Sym(selector.clone()?)),
        Instr::SuperSend(selector, _) => Some(Literal::Sym(selector.clone()?)),
        _ => None,
    })
}
