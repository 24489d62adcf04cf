//! The instructions of each part of a tree, in one cycle.
//!
//! Each function adds the code of a part to `code`, and the blocks that are pushed in it to
//! `blocks`. `height` is how many values stand on the stack beneath what the part puts there.
#![tactic(auto, using(crate::proofs::Emits::emits))]

ghost use Rattle.std.specs.Prelude.{◌≡◌, ◌+◌, ◌*◌, ◌≤◌, ◌^◌, ◌∷◌, ◌++◌, [], suc, zero, false, true, length, IfOk, OnOk};
ghost use Rattle.st_tree.specs.Trees.{sends, expressions, statements};
ghost use Rattle.st_tree.specs.Falls.{size_head, size_closure, size_expression, size_send, size_statement, size_statements, size_sends, size_expressions};
ghost use Rattle.st_tree.specs.Views.{head_of};
ghost use Rattle.tree_meaning.specs.Meaning.{is_super_head};
ghost use Rattle.tree_meaning.specs.Parts.{with_variables};
ghost use Rattle.tree_meaning.specs.declared.form.Form.TheVariants as form;
ghost use Rattle.st_compiler.specs.Instruction as instruction;
ghost use Rattle.st_compiler.specs.Code.{only, seq, prefixed, choice, while_code, count_code, begin_repeating};
ghost use Rattle.st_compiler.specs.TreeCode.{hand_code, block_in_place_code, first_argument_code, rest_argument_codes, first_body_code, rest_message_codes, argument_values_code, cascade_code, messages_in_turn_code, head_and_messages_code, statements_in_turn_code, message_code, head_code, head_in_place_code, closure_in_place_code, closure_code, pushed, expression_code, message_codes, message_code_of, argument_codes, statement_code, statement_codes, singleton_op};
ghost use Rattle.st_compiler.specs.Emitted.{instructions, body_of, tree_body, Puts, Adds};

use crate::instr::{BlockBody, Instr};
use crate::parts::{
    literal_op, push_op, put, put_assigned, put_begin_repeating, put_block, put_choice, put_count,
    put_hand, put_no_block, put_pops, put_while, return_op, send_op, singleton_op,
};
use gem_object::Text;
use st_locals::{Place, block_place, first_loop, form_under, is_super_head};
use st_tree::{BlockTree, Expr, Message, Primary, Stat};
use std::alloc::{AllocError, Global};
use tree_meaning::{Form, Singleton};

// An expression: what begins it, its messages, and then its assignments.
#[cycle(emission)]
fn emit_expression(
    alloc: Global,
    code: &mut Vec<Instr>,
    blocks: &mut Vec<BlockBody>,
    place: &Place,
    expression: &Expr,
    height: usize,
) -> Result<(), AllocError>
    requires { height + 4 * size_expression expression.now ≤ 2 ^ 50 }
    ensures { OnOk result (Adds (expression_code expression.now place.now height)
        code.old.items blocks.old.items code.new.items blocks.new.items) }
{
    let when = first_loop(&expression.head, &expression.messages, &expression.cascade);
    emit_whole(
        alloc,
        code,
        blocks,
        place,
        when,
        &expression.head,
        &expression.messages,
        &expression.cascade,
        height,
    )?;
    put_assigned(code, &expression.assigns, place)
}

// What begins an expression, and its messages. Where the first message is a loop, what begins
// the expression is the loop's condition.
#[cycle(emission)]
fn emit_whole(
    alloc: Global,
    code: &mut Vec<Instr>,
    blocks: &mut Vec<BlockBody>,
    place: &Place,
    when: Option<bool>,
    head: &Primary,
    messages: &[Message],
    cascade: &[Message],
    height: usize,
) -> Result<(), AllocError>
    requires { height + 4 * (size_head (head_of head.now) + size_sends (sends messages.now)
        + size_sends (sends cascade.now)) ≤ 2 ^ 50 }
    ensures { OnOk result (Adds (head_and_messages_code when (is_super_head (head_of head.now))
        (head_code (head_of head.now)) (head_in_place_code (head_of head.now))
        (message_codes (sends messages.now)) (message_codes (sends cascade.now)) place.now height)
        code.old.items blocks.old.items code.new.items blocks.new.items) }
{
    let Some(when) = when else {
        emit_head(alloc, code, blocks, place, head, height)?;
        let to_super = is_super_head(head);
        return emit_messages(
            alloc, code, blocks, place, messages, cascade, to_super, height,
        );
    };
    emit_while(alloc, code, blocks, place, when, head, messages, height)?;
    let Some((_, rest)) = messages.split_first() else {
        return Ok(());
    };
    emit_messages(alloc, code, blocks, place, rest, cascade, false, height)
}

// What begins an expression.
#[cycle(emission)]
fn emit_head(
    alloc: Global,
    code: &mut Vec<Instr>,
    blocks: &mut Vec<BlockBody>,
    place: &Place,
    head: &Primary,
    height: usize,
) -> Result<(), AllocError>
    requires { height + 4 * size_head (head_of head.now) ≤ 2 ^ 50 }
    ensures { OnOk result (Adds (head_code (head_of head.now) place.now height)
        code.old.items blocks.old.items code.new.items blocks.new.items) }
{
    match head {
        Primary::Name(name) => put(code, push_op(name, place)?),
        Primary::Lit(literal) => put(code, literal_op(literal)?),
        Primary::Block(block) => emit_block(alloc, code, blocks, place, block),
        Primary::Paren(inner) => emit_expression(alloc, code, blocks, place, inner, height),
    }
}

// A block that is pushed: its number is taken before its own code is put out.
#[cycle(emission)]
fn emit_block(
    alloc: Global,
    code: &mut Vec<Instr>,
    blocks: &mut Vec<BlockBody>,
    place: &Place,
    block: &BlockTree,
) -> Result<(), AllocError>
    requires { 4 * size_closure block.now ≤ 2 ^ 50 }
    ensures { OnOk result (Adds (λ number. pushed number block.now place.now
        (closure_code block.now place.now (suc number)))
        code.old.items blocks.old.items code.new.items blocks.new.items) }
{
    let number = blocks.len();
    blocks.push(empty_body(alloc, 0, 0))?;
    let own = closure_apart(alloc, blocks, place, block)?;
    put_block(code, blocks, number, block_body(block, own))
}

// What is kept of a block.
fn block_body(block: &BlockTree, code: Vec<Instr>) -> BlockBody
    ensures body { body_of result ≡ tree_body block.now (instructions code.items) }
    ensures code { result.code.items ≡ code.items }
{
    BlockBody {
        params: block.params.len(),
        temps: block.temps.len(),
        code,
    }
}

fn empty_body(alloc: Global, params: usize, temps: usize) -> BlockBody {
    BlockBody {
        params,
        temps,
        code: Vec::new(alloc),
    }
}

// The code of a block that is made.
#[cycle(emission)]
fn closure_apart(
    alloc: Global,
    blocks: &mut Vec<BlockBody>,
    place: &Place,
    block: &BlockTree,
) -> Result<Vec<Instr>, AllocError>
    requires { 4 * size_closure block.now ≤ 2 ^ 50 }
    ensures { IfOk result (λ own. Adds (closure_code block.now place.now)
        [] blocks.old.items own.items blocks.new.items) }
{
    let inner = block_place(block, place)?;
    let mut own = Vec::new(alloc);
    emit_statements(alloc, &mut own, blocks, &inner, &block.body, 0)?;
    put(&mut own, Instr::ReturnBlock)?;
    Ok(own)
}

// What begins an expression, as a block in its place.
#[cycle(emission)]
fn emit_in_place(
    alloc: Global,
    code: &mut Vec<Instr>,
    blocks: &mut Vec<BlockBody>,
    place: &Place,
    head: &Primary,
    handed: bool,
    height: usize,
) -> Result<(), AllocError>
    requires { height + 4 * size_head (head_of head.now) ≤ 2 ^ 50 }
    ensures { OnOk result (Adds (head_in_place_code (head_of head.now) place.now handed height)
        code.old.items blocks.old.items code.new.items blocks.new.items) }
{
    match head {
        Primary::Block(block) => {
            let (params, temps) = (&block.params, &block.temps);
            emit_block_in_place(
                alloc,
                code,
                blocks,
                place,
                params,
                temps,
                &block.body,
                handed,
                height,
            )
        }
        Primary::Name(_) => put_no_block(code, handed),
        Primary::Lit(_) => put_no_block(code, handed),
        Primary::Paren(_) => put_no_block(code, handed),
    }
}

// A block in its place, in a scope of its own if it has variables.
#[cycle(emission)]
fn emit_block_in_place(
    alloc: Global,
    code: &mut Vec<Instr>,
    blocks: &mut Vec<BlockBody>,
    place: &Place,
    params: &Vec<Text>,
    temps: &Vec<Text>,
    body: &[Stat],
    handed: bool,
    height: usize,
) -> Result<(), AllocError>
    requires { height + 4 * size_statements (statements body.now) ≤ 2 ^ 50 }
    ensures { OnOk result (Adds (block_in_place_code params.now.items temps.now.items
        (statements_in_turn_code (statement_codes (statements body.now))) place.now handed height)
        code.old.items blocks.old.items code.new.items blocks.new.items) }
{
    let variables = params.len() + temps.len();
    if variables == 0 {
        return emit_body(
            alloc, code, blocks, place, params, temps, body, handed, height,
        );
    }
    put(code, Instr::Enter(variables))?;
    emit_body(
        alloc, code, blocks, place, params, temps, body, handed, height,
    )?;
    put(code, Instr::Leave)
}

// The statements of a block in its place, behind what it is handed.
#[cycle(emission)]
fn emit_body(
    alloc: Global,
    code: &mut Vec<Instr>,
    blocks: &mut Vec<BlockBody>,
    place: &Place,
    params: &Vec<Text>,
    temps: &Vec<Text>,
    body: &[Stat],
    handed: bool,
    height: usize,
) -> Result<(), AllocError>
    requires { height + 4 * size_statements (statements body.now) ≤ 2 ^ 50 }
    ensures { OnOk result (Adds (prefixed (hand_code params.now.items handed)
        (statements_in_turn_code (statement_codes (statements body.now))
        (with_variables (params.now.items ++ temps.now.items) place.now) height))
        code.old.items blocks.old.items code.new.items blocks.new.items) }
{
    let inner = place.with_variables(params, temps)?;
    put_hand(code, params, handed)?;
    emit_statements(alloc, code, blocks, &inner, body, height)
}

// Statements, with the value of the last one as that of all.
#[cycle(emission)]
pub(crate) fn emit_statements(
    alloc: Global,
    code: &mut Vec<Instr>,
    blocks: &mut Vec<BlockBody>,
    place: &Place,
    body: &[Stat],
    height: usize,
) -> Result<(), AllocError>
    requires { height + 4 * size_statements (statements body.now) ≤ 2 ^ 50 }
    ensures { OnOk result (Adds
        (statements_in_turn_code (statement_codes (statements body.now)) place.now height)
        code.old.items blocks.old.items code.new.items blocks.new.items) }
{
    let Some((first, rest)) = body.split_first() else {
        return put(code, Instr::PushNil);
    };
    if rest.is_empty() {
        return emit_statement(alloc, code, blocks, place, first, height);
    }
    emit_statement(alloc, code, blocks, place, first, height)?;
    put(code, Instr::Pop)?;
    emit_statements(alloc, code, blocks, place, rest, height)
}

// A statement. What stands on the stack is dropped before a return.
#[cycle(emission)]
fn emit_statement(
    alloc: Global,
    code: &mut Vec<Instr>,
    blocks: &mut Vec<BlockBody>,
    place: &Place,
    statement: &Stat,
    height: usize,
) -> Result<(), AllocError>
    requires { height + 4 * size_statement statement.now ≤ 2 ^ 50 }
    ensures { OnOk result (Adds (statement_code statement.now place.now height)
        code.old.items blocks.old.items code.new.items blocks.new.items) }
{
    if !statement.returns {
        return emit_expression(alloc, code, blocks, place, &statement.expr, height);
    }
    put_pops(code, height)?;
    emit_expression(alloc, code, blocks, place, &statement.expr, 0)?;
    put(code, return_op(place.is_in_block()))
}

// The messages of an expression; the last one belongs to the cascade.
#[cycle(emission)]
fn emit_messages(
    alloc: Global,
    code: &mut Vec<Instr>,
    blocks: &mut Vec<BlockBody>,
    place: &Place,
    messages: &[Message],
    cascade: &[Message],
    to_super: bool,
    height: usize,
) -> Result<(), AllocError>
    requires { height + 4 * (size_sends (sends messages.now) + size_sends (sends cascade.now))
        ≤ 2 ^ 50 }
    ensures { OnOk result (Adds (messages_in_turn_code (message_codes (sends messages.now))
        (message_codes (sends cascade.now)) to_super place.now height)
        code.old.items blocks.old.items code.new.items blocks.new.items) }
{
    let Some((message, rest)) = messages.split_first() else {
        return Ok(());
    };
    if rest.is_empty() {
        return emit_last(
            alloc, code, blocks, place, message, cascade, to_super, height,
        );
    }
    emit_by_form(alloc, code, blocks, place, message, to_super, height)?;
    emit_messages(alloc, code, blocks, place, rest, cascade, false, height)
}

// The last message, with its cascade.
#[cycle(emission)]
fn emit_last(
    alloc: Global,
    code: &mut Vec<Instr>,
    blocks: &mut Vec<BlockBody>,
    place: &Place,
    message: &Message,
    cascade: &[Message],
    to_super: bool,
    height: usize,
) -> Result<(), AllocError>
    requires { height + 4 * (size_send message.now + size_sends (sends cascade.now)) ≤ 2 ^ 50 }
    ensures { OnOk result (Adds (messages_in_turn_code (message_code_of message.now ∷ [])
        (message_codes (sends cascade.now)) to_super place.now height)
        code.old.items blocks.old.items code.new.items blocks.new.items) }
{
    if cascade.is_empty() {
        return emit_by_form(alloc, code, blocks, place, message, to_super, height);
    }
    emit_cascade(
        alloc, code, blocks, place, message, cascade, to_super, height,
    )
}

// The messages of a cascade, each to the same receiver.
#[cycle(emission)]
fn emit_cascade(
    alloc: Global,
    code: &mut Vec<Instr>,
    blocks: &mut Vec<BlockBody>,
    place: &Place,
    message: &Message,
    rest: &[Message],
    to_super: bool,
    height: usize,
) -> Result<(), AllocError>
    requires { height + 4 * (size_send message.now + size_sends (sends rest.now)) ≤ 2 ^ 50 }
    ensures { OnOk result (Adds (cascade_code (message_code_of message.now)
        (message_codes (sends rest.now)) to_super place.now height)
        code.old.items blocks.old.items code.new.items blocks.new.items) }
{
    let Some((next, others)) = rest.split_first() else {
        return emit_as_sent(
            alloc,
            code,
            blocks,
            place,
            &message.selector,
            &message.args,
            to_super,
            height,
        );
    };
    put(code, Instr::Dup)?;
    emit_as_sent(
        alloc,
        code,
        blocks,
        place,
        &message.selector,
        &message.args,
        to_super,
        height + 1,
    )?;
    put(code, Instr::Pop)?;
    emit_cascade(alloc, code, blocks, place, next, others, to_super, height)
}

// A message as one that is sent.
#[cycle(emission)]
fn emit_as_sent(
    alloc: Global,
    code: &mut Vec<Instr>,
    blocks: &mut Vec<BlockBody>,
    place: &Place,
    selector: &Text,
    arguments: &[Expr],
    to_super: bool,
    height: usize,
) -> Result<(), AllocError>
    requires { height + 4 * (size_expressions (expressions arguments.now) + 1) ≤ 2 ^ 50 }
    ensures { OnOk result (Adds (message_code form.Plain selector.now
        (argument_codes (expressions arguments.now)) to_super place.now height)
        code.old.items blocks.old.items code.new.items blocks.new.items) }
{
    emit_arguments(alloc, code, blocks, place, arguments, height + 1)?;
    put(code, send_op(to_super, selector, arguments.len())?)
}

// The values of arguments, from left to right.
#[cycle(emission)]
fn emit_arguments(
    alloc: Global,
    code: &mut Vec<Instr>,
    blocks: &mut Vec<BlockBody>,
    place: &Place,
    arguments: &[Expr],
    height: usize,
) -> Result<(), AllocError>
    requires { height + 4 * size_expressions (expressions arguments.now) ≤ 2 ^ 50 }
    ensures { OnOk result (Adds (argument_values_code
        (argument_codes (expressions arguments.now)) place.now height (only []))
        code.old.items blocks.old.items code.new.items blocks.new.items) }
{
    let Some((first, rest)) = arguments.split_first() else {
        return Ok(());
    };
    emit_expression(alloc, code, blocks, place, first, height)?;
    emit_arguments(alloc, code, blocks, place, rest, height + 1)
}

// A message by its special form, if it has one.
#[cycle(emission)]
fn emit_by_form(
    alloc: Global,
    code: &mut Vec<Instr>,
    blocks: &mut Vec<BlockBody>,
    place: &Place,
    message: &Message,
    to_super: bool,
    height: usize,
) -> Result<(), AllocError>
    requires { height + 4 * size_send message.now ≤ 2 ^ 50 }
    ensures { OnOk result (Adds ((message_code_of message.now).by_form to_super place.now height)
        code.old.items blocks.old.items code.new.items blocks.new.items) }
{
    let form = form_under(to_super, &message.selector, &message.args);
    emit_form(
        alloc,
        code,
        blocks,
        place,
        form,
        &message.selector,
        &message.args,
        to_super,
        height,
    )
}

// A message of this form.
#[cycle(emission)]
fn emit_form(
    alloc: Global,
    code: &mut Vec<Instr>,
    blocks: &mut Vec<BlockBody>,
    place: &Place,
    form: Form,
    selector: &Text,
    arguments: &[Expr],
    to_super: bool,
    height: usize,
) -> Result<(), AllocError>
    requires { height + 4 * (size_expressions (expressions arguments.now) + 1) ≤ 2 ^ 50 }
    ensures { OnOk result (Adds (message_code form selector.now
        (argument_codes (expressions arguments.now)) to_super place.now height)
        code.old.items blocks.old.items code.new.items blocks.new.items) }
{
    match form {
        Form::Plain => {
            emit_as_sent(
                alloc, code, blocks, place, selector, arguments, to_super, height,
            )
        }
        Form::OneArm(when, otherwise) => {
            emit_one_arm(
                alloc, code, blocks, place, arguments, when, otherwise, height,
            )
        }
        Form::TwoArms(when) => {
            emit_two_arms(alloc, code, blocks, place, arguments, when, height)
        }
        Form::Counting => emit_counting(alloc, code, blocks, place, arguments, height),
        Form::Repeating => emit_repeating(alloc, code, blocks, place, arguments, height),
    }
}

// A block where the receiver is this truth value, and else an object.
#[cycle(emission)]
fn emit_one_arm(
    alloc: Global,
    code: &mut Vec<Instr>,
    blocks: &mut Vec<BlockBody>,
    place: &Place,
    arguments: &[Expr],
    when: bool,
    otherwise: Singleton,
    height: usize,
) -> Result<(), AllocError>
    requires { height + 4 * (size_expressions (expressions arguments.now) + 1) ≤ 2 ^ 50 }
    ensures { OnOk result (Adds (prefixed (instruction.TakeUnit ∷ [])
        (choice when ((first_argument_code (argument_codes (expressions arguments.now))).in_place
        place.now false height) (only (singleton_op otherwise ∷ []))))
        code.old.items blocks.old.items code.new.items blocks.new.items) }
{
    put(code, Instr::TakeUnit)?;
    let first = first_apart(alloc, blocks, place, arguments, false, height)?;
    let second = vec![in alloc; singleton_op(otherwise)]?;
    put_choice(code, when, first, second)
}

// One of two blocks.
#[cycle(emission)]
fn emit_two_arms(
    alloc: Global,
    code: &mut Vec<Instr>,
    blocks: &mut Vec<BlockBody>,
    place: &Place,
    arguments: &[Expr],
    when: bool,
    height: usize,
) -> Result<(), AllocError>
    requires { height + 4 * (size_expressions (expressions arguments.now) + 1) ≤ 2 ^ 50 }
    ensures { OnOk result (Adds (prefixed (instruction.TakeUnit ∷ [])
        (choice when ((first_argument_code (argument_codes (expressions arguments.now))).in_place
        place.now false height)
        ((first_argument_code (rest_argument_codes (argument_codes
        (expressions arguments.now)))).in_place place.now false height)))
        code.old.items blocks.old.items code.new.items blocks.new.items) }
{
    put(code, Instr::TakeUnit)?;
    let first = first_apart(alloc, blocks, place, arguments, false, height)?;
    let second = second_apart(alloc, blocks, place, arguments, false, height)?;
    put_choice(code, when, first, second)
}

// A counting loop from the receiver to the first argument.
#[cycle(emission)]
fn emit_counting(
    alloc: Global,
    code: &mut Vec<Instr>,
    blocks: &mut Vec<BlockBody>,
    place: &Place,
    arguments: &[Expr],
    height: usize,
) -> Result<(), AllocError>
    requires { height + 4 * (size_expressions (expressions arguments.now) + 1) ≤ 2 ^ 50 }
    ensures { OnOk result (Adds (prefixed (instruction.Dup ∷ [])
        (seq ((first_argument_code (argument_codes (expressions arguments.now))).value place.now
        (suc (suc height)))
        (prefixed (instruction.TakeUnit ∷ [])
        (count_code ((first_argument_code (rest_argument_codes (argument_codes
        (expressions arguments.now)))).in_place place.now true (suc (suc (suc height))))))))
        code.old.items blocks.old.items code.new.items blocks.new.items) }
{
    put(code, Instr::Dup)?;
    emit_first_value(alloc, code, blocks, place, arguments, height + 2)?;
    put(code, Instr::TakeUnit)?;
    let body = second_apart(alloc, blocks, place, arguments, true, height + 3)?;
    put_count(code, body)
}

// A block as many times as the receiver says.
#[cycle(emission)]
fn emit_repeating(
    alloc: Global,
    code: &mut Vec<Instr>,
    blocks: &mut Vec<BlockBody>,
    place: &Place,
    arguments: &[Expr],
    height: usize,
) -> Result<(), AllocError>
    requires { height + 4 * (size_expressions (expressions arguments.now) + 1) ≤ 2 ^ 50 }
    ensures { OnOk result (Adds (prefixed (instruction.TakeUnit ∷ [])
        (prefixed begin_repeating
        (count_code (prefixed (instruction.Pop ∷ [])
        ((first_argument_code (argument_codes (expressions arguments.now))).in_place place.now
        false (suc (suc (suc height))))))))
        code.old.items blocks.old.items code.new.items blocks.new.items) }
{
    put(code, Instr::TakeUnit)?;
    put_begin_repeating(code)?;
    let body = repeated_apart(alloc, blocks, place, arguments, height + 3)?;
    put_count(code, body)
}

// The body of such a loop, which drops the counter.
#[cycle(emission)]
fn repeated_apart(
    alloc: Global,
    blocks: &mut Vec<BlockBody>,
    place: &Place,
    arguments: &[Expr],
    height: usize,
) -> Result<Vec<Instr>, AllocError>
    requires { height + 4 * size_expressions (expressions arguments.now) ≤ 2 ^ 50 }
    ensures { IfOk result (λ own. Adds (prefixed (instruction.Pop ∷ [])
        ((first_argument_code (argument_codes (expressions arguments.now))).in_place place.now
        false height))
        [] blocks.old.items own.items blocks.new.items) }
{
    let mut own = Vec::new(alloc);
    put(&mut own, Instr::Pop)?;
    emit_first_in_place(alloc, &mut own, blocks, place, arguments, false, height)?;
    Ok(own)
}

// The value of the first argument.
#[cycle(emission)]
fn emit_first_value(
    alloc: Global,
    code: &mut Vec<Instr>,
    blocks: &mut Vec<BlockBody>,
    place: &Place,
    arguments: &[Expr],
    height: usize,
) -> Result<(), AllocError>
    requires { height + 4 * size_expressions (expressions arguments.now) ≤ 2 ^ 50 }
    ensures { OnOk result (Adds
        ((first_argument_code (argument_codes (expressions arguments.now))).value place.now height)
        code.old.items blocks.old.items code.new.items blocks.new.items) }
{
    let Some((first, _)) = arguments.split_first() else {
        return put(code, Instr::PushNil);
    };
    emit_expression(alloc, code, blocks, place, first, height)
}

// The first argument as a block in its place.
#[cycle(emission)]
fn emit_first_in_place(
    alloc: Global,
    code: &mut Vec<Instr>,
    blocks: &mut Vec<BlockBody>,
    place: &Place,
    arguments: &[Expr],
    handed: bool,
    height: usize,
) -> Result<(), AllocError>
    requires { height + 4 * size_expressions (expressions arguments.now) ≤ 2 ^ 50 }
    ensures { OnOk result (Adds
        ((first_argument_code (argument_codes (expressions arguments.now))).in_place place.now
        handed height)
        code.old.items blocks.old.items code.new.items blocks.new.items) }
{
    let Some((first, _)) = arguments.split_first() else {
        return put_no_block(code, handed);
    };
    emit_in_place(alloc, code, blocks, place, &first.head, handed, height)
}

#[cycle(emission)]
fn first_apart(
    alloc: Global,
    blocks: &mut Vec<BlockBody>,
    place: &Place,
    arguments: &[Expr],
    handed: bool,
    height: usize,
) -> Result<Vec<Instr>, AllocError>
    requires { height + 4 * size_expressions (expressions arguments.now) ≤ 2 ^ 50 }
    ensures { IfOk result (λ own. Adds
        ((first_argument_code (argument_codes (expressions arguments.now))).in_place place.now
        handed height)
        [] blocks.old.items own.items blocks.new.items) }
{
    let mut own = Vec::new(alloc);
    emit_first_in_place(alloc, &mut own, blocks, place, arguments, handed, height)?;
    Ok(own)
}

#[cycle(emission)]
fn second_apart(
    alloc: Global,
    blocks: &mut Vec<BlockBody>,
    place: &Place,
    arguments: &[Expr],
    handed: bool,
    height: usize,
) -> Result<Vec<Instr>, AllocError>
    requires { height + 4 * size_expressions (expressions arguments.now) ≤ 2 ^ 50 }
    ensures { IfOk result (λ own. Adds
        ((first_argument_code (rest_argument_codes (argument_codes
        (expressions arguments.now)))).in_place place.now handed height)
        [] blocks.old.items own.items blocks.new.items) }
{
    let Some((_, rest)) = arguments.split_first() else {
        return first_apart(alloc, blocks, place, arguments, handed, height);
    };
    first_apart(alloc, blocks, place, rest, handed, height)
}

// A while loop, whose condition is what begins the expression.
#[cycle(emission)]
fn emit_while(
    alloc: Global,
    code: &mut Vec<Instr>,
    blocks: &mut Vec<BlockBody>,
    place: &Place,
    when: bool,
    head: &Primary,
    messages: &[Message],
    height: usize,
) -> Result<(), AllocError>
    requires { height + 4 * (size_head (head_of head.now) + size_sends (sends messages.now))
        ≤ 2 ^ 50 }
    ensures { OnOk result (Adds (prefixed (instruction.TakeUnit ∷ [])
        (while_code when (head_in_place_code (head_of head.now) place.now false height)
        (first_body_code (message_codes (sends messages.now)) place.now height)))
        code.old.items blocks.old.items code.new.items blocks.new.items) }
{
    put(code, Instr::TakeUnit)?;
    let condition = head_apart(alloc, blocks, place, head, height)?;
    let body = body_apart(alloc, blocks, place, messages, height)?;
    put_while(code, when, condition, body)
}

#[cycle(emission)]
fn head_apart(
    alloc: Global,
    blocks: &mut Vec<BlockBody>,
    place: &Place,
    head: &Primary,
    height: usize,
) -> Result<Vec<Instr>, AllocError>
    requires { height + 4 * size_head (head_of head.now) ≤ 2 ^ 50 }
    ensures { IfOk result (λ own. Adds
        (head_in_place_code (head_of head.now) place.now false height)
        [] blocks.old.items own.items blocks.new.items) }
{
    let mut own = Vec::new(alloc);
    emit_in_place(alloc, &mut own, blocks, place, head, false, height)?;
    Ok(own)
}

#[cycle(emission)]
fn body_apart(
    alloc: Global,
    blocks: &mut Vec<BlockBody>,
    place: &Place,
    messages: &[Message],
    height: usize,
) -> Result<Vec<Instr>, AllocError>
    requires { height + 4 * size_sends (sends messages.now) ≤ 2 ^ 50 }
    ensures { IfOk result (λ own. Adds
        (first_body_code (message_codes (sends messages.now)) place.now height)
        [] blocks.old.items own.items blocks.new.items) }
{
    let Some((first, _)) = messages.split_first() else {
        return nil_apart(alloc);
    };
    first_apart(alloc, blocks, place, &first.args, false, height)
}

// Nil as the body of a loop that has none.
fn nil_apart(alloc: Global) -> Result<Vec<Instr>, AllocError>
    ensures { IfOk result (λ own. Puts (instruction.PushNil ∷ []) [] own.items) }
{
    let mut own = Vec::new(alloc);
    put(&mut own, Instr::PushNil)?;
    Ok(own)
}
