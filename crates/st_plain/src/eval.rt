//! The evaluator: trees, sends and activations, in one cycle.
//!
//! Each function says of which program it does what, from the objects and the variables at hand.
//! `depth` is how many activations more may begin.
#![tactic(auto, using(crate::proofs::Runs::runs))]

ghost use Rattle.std.specs.Prelude.{◌≤◌, ◌+◌, ◌^◌, ◌∷◌, [], false, None, length};
ghost use Rattle.st_tree.specs.Trees.{sends, expressions, statements};
ghost use Rattle.st_tree.specs.Falls.{size_head, size_closure, size_expression, size_send, size_statement, size_statements, size_sends, size_expressions, size_program};
ghost use Rattle.st_tree.specs.Views.{head_of};
ghost use Rattle.gem_sound.specs.st_grammar.Grammar.{method};
ghost use Rattle.gem_sound.specs.st_grammar_laws.TreeOf.{tree_of};
ghost use Rattle.object_programs.specs.Atom.{Tick};
ghost use Rattle.object_programs.specs.Run.{give, atom, and_then};
ghost use Rattle.tree_meaning.specs.Names.{singleton_value};
ghost use Rattle.tree_meaning.specs.Operands.{truth_of, by_truth, int_pair};
ghost use Rattle.tree_meaning.specs.Loops.{while_loop, while_turns, count_between, count_turns};
ghost use Rattle.tree_meaning.specs.Parts.{first_argument, rest_arguments, first_body, hand, argument_values, cascade_in_turn, messages_in_turn, head_and_messages, statements_in_turn};
ghost use Rattle.tree_meaning.specs.Meaning.{is_super_head, message, head_value, head_in_place, closure_in_place, expression_value, messages_of, message_of, arguments_of, statement_value, statement_runs};
ghost use Rattle.tree_meaning.specs.Bodies.{temps_count, statements_of, method_body, block_body};
ghost use Rattle.tree_meaning.specs.Calls.{activation, evaluation, call_block_at};
ghost use Rattle.gem_language.specs.Sends.{outside, callee, send_by, call_found, call_code, call_source, primitive_value};
ghost use Rattle.running_objects.specs.Ran.{Ran};
ghost use Rattle.st_plain.specs.Choices.{handed_value, params_of};

use crate::arguments::Arguments;
use crate::border::{find_method, primitive};
use crate::choices::{handed, takes, test};
use crate::sources::method_tree;
use crate::variables::{assign_all, constant_value, hand, make_block, name_value, return_value};
use gem_language::Found;
use gem_object::{LARGEST_INTEGER, MethodCode, Oid, Text, Value};
use object_programs::Fault;
use prim_rules::PrimitiveAnswer;
use running_objects::{Objects, Stop};
use st_commands::{leave_block, leave_method, take_unit};
use st_locals::{
    Activations, Frame, Locals, MadeBlock, Place, block_place, first_loop, form_under, int_pair,
    is_super_head, method_frame, nil_values, singleton_value, truth_of, with_nils,
};
use st_tree::{BlockTree, Expr, Message, Primary, Stat, Tree};
use std::alloc::Global;
use tree_meaning::{Form, Pair, Singleton, Truth};

// An expression: what begins it, its messages, and then its assignments.
#[cycle(evaluation)]
fn eval_expression<O: Objects>(
    alloc: Global,
    objects: &mut O,
    locals: &mut Locals,
    place: &Place,
    frame: &Frame,
    expression: &Expr,
    depth: u32,
) -> Result<Value, Stop>
    requires { size_expression expression.now ≤ 2 ^ 40 }
    ensures { Ran (expression_value (outside depth) expression.now place.now frame.now)
        (O.seen objects.old) locals.old result (O.seen objects.new) locals.new }
{
    let when = first_loop(&expression.head, &expression.messages, &expression.cascade);
    let answer = eval_whole(
        alloc,
        objects,
        locals,
        place,
        frame,
        when,
        &expression.head,
        &expression.messages,
        &expression.cascade,
        depth,
    )?;
    assign_all(
        objects,
        locals,
        place,
        frame,
        &expression.assigns,
        answer,
        depth,
    )
}

// What begins an expression, and its messages. Where the first message is a loop, what begins
// the expression is the loop's condition.
#[cycle(evaluation)]
fn eval_whole<O: Objects>(
    alloc: Global,
    objects: &mut O,
    locals: &mut Locals,
    place: &Place,
    frame: &Frame,
    when: Option<bool>,
    head: &Primary,
    messages: &[Message],
    cascade: &[Message],
    depth: u32,
) -> Result<Value, Stop>
    requires { size_head (head_of head.now) + size_sends (sends messages.now)
        + size_sends (sends cascade.now) ≤ 2 ^ 40 }
    ensures { Ran (head_and_messages when (is_super_head (head_of head.now))
        (head_value (outside depth) (head_of head.now))
        (head_in_place (outside depth) (head_of head.now))
        (messages_of (outside depth) (sends messages.now))
        (messages_of (outside depth) (sends cascade.now)) place.now frame.now)
        (O.seen objects.old) locals.old result (O.seen objects.new) locals.new }
{
    let Some(when) = when else {
        let receiver = eval_head(alloc, objects, locals, place, frame, head, depth)?;
        return eval_chain(
            alloc,
            objects,
            locals,
            place,
            frame,
            messages,
            cascade,
            is_super_head(head),
            receiver,
            depth,
        );
    };
    let value = eval_while(
        alloc, objects, locals, place, frame, when, head, messages, depth,
    )?;
    let Some((_, rest)) = messages.split_first() else {
        return Ok(value);
    };
    eval_chain(
        alloc, objects, locals, place, frame, rest, cascade, false, value, depth,
    )
}

// What begins an expression.
#[cycle(evaluation)]
#[tactic(auto, using(crate::proofs::Runs::runs), unfolding(gem_language::specs::Sends::outside))]
fn eval_head<O: Objects>(
    alloc: Global,
    objects: &mut O,
    locals: &mut Locals,
    place: &Place,
    frame: &Frame,
    head: &Primary,
    depth: u32,
) -> Result<Value, Stop>
    requires { size_head (head_of head.now) ≤ 2 ^ 40 }
    ensures { Ran (head_value (outside depth) (head_of head.now) place.now frame.now)
        (O.seen objects.old) locals.old result (O.seen objects.new) locals.new }
{
    match head {
        Primary::Name(name) => name_value(objects, locals, place, frame, name, depth),
        Primary::Lit(literal) => constant_value(alloc, objects, locals, literal, depth),
        Primary::Block(block) => make_block(objects, locals, place, frame, block),
        Primary::Paren(expression) => eval_expression(
            alloc, objects, locals, place, frame, expression, depth,
        ),
    }
}

// Messages one after the other, each to the answer of the one before it; the last of them begins
// the cascade, where there is one. Only the first of them is sent to `super`.
#[cycle(evaluation)]
fn eval_chain<O: Objects>(
    alloc: Global,
    objects: &mut O,
    locals: &mut Locals,
    place: &Place,
    frame: &Frame,
    messages: &[Message],
    cascade: &[Message],
    mut to_super: bool,
    mut receiver: Value,
    depth: u32,
) -> Result<Value, Stop>
    requires { size_sends (sends messages.now) + size_sends (sends cascade.now) ≤ 2 ^ 40 }
    ensures { Ran (messages_in_turn (messages_of (outside depth) (sends messages.now))
        (messages_of (outside depth) (sends cascade.now)) to_super receiver place.now frame.now)
        (O.seen objects.old) locals.old result (O.seen objects.new) locals.new }
{
    let Some((last, before)) = messages.split_last() else {
        return Ok(receiver);
    };
    for message in before {
        receiver = eval_by_form(
            alloc, objects, locals, place, frame, message, to_super, &receiver, depth,
        )?;
        to_super = false;
    }
    eval_last(
        alloc, objects, locals, place, frame, last, cascade, to_super, &receiver, depth,
    )
}

// The last message, which begins the cascade, where there is one.
#[cycle(evaluation)]
fn eval_last<O: Objects>(
    alloc: Global,
    objects: &mut O,
    locals: &mut Locals,
    place: &Place,
    frame: &Frame,
    message: &Message,
    cascade: &[Message],
    to_super: bool,
    receiver: &Value,
    depth: u32,
) -> Result<Value, Stop>
    requires { size_send message.now + size_sends (sends cascade.now) ≤ 2 ^ 40 }
    ensures { Ran (messages_in_turn (message_of (outside depth) message.now ∷ [])
        (messages_of (outside depth) (sends cascade.now)) to_super receiver.now place.now
        frame.now)
        (O.seen objects.old) locals.old result (O.seen objects.new) locals.new }
{
    let Some(_) = cascade.split_first() else {
        let answer = eval_by_form(
            alloc, objects, locals, place, frame, message, to_super, receiver, depth,
        )?;
        return Ok(answer);
    };
    eval_cascade(
        alloc, objects, locals, place, frame, message, cascade, to_super, receiver, depth,
    )
}

// A message and those after the semicolons, all to one receiver; the last answer counts.
#[cycle(evaluation)]
fn eval_cascade<O: Objects>(
    alloc: Global,
    objects: &mut O,
    locals: &mut Locals,
    place: &Place,
    frame: &Frame,
    message: &Message,
    rest: &[Message],
    to_super: bool,
    receiver: &Value,
    depth: u32,
) -> Result<Value, Stop>
    requires { size_send message.now + size_sends (sends rest.now) ≤ 2 ^ 40 }
    ensures { Ran (cascade_in_turn (message_of (outside depth) message.now)
        (messages_of (outside depth) (sends rest.now)) to_super receiver.now place.now frame.now)
        (O.seen objects.old) locals.old result (O.seen objects.new) locals.new }
{
    let mut answer = eval_as_sent(
        alloc, objects, locals, place, frame, message, to_super, receiver, depth,
    )?;
    for next in rest {
        answer = eval_as_sent(
            alloc, objects, locals, place, frame, next, to_super, receiver, depth,
        )?;
    }
    Ok(answer)
}

// A message as one that is sent.
#[cycle(evaluation)]
#[tactic(auto, using(crate::proofs::Runs::runs), unfolding(gem_language::specs::Sends::outside))]
fn eval_as_sent<O: Objects>(
    alloc: Global,
    objects: &mut O,
    locals: &mut Locals,
    place: &Place,
    frame: &Frame,
    message: &Message,
    to_super: bool,
    receiver: &Value,
    depth: u32,
) -> Result<Value, Stop>
    requires { size_send message.now ≤ 2 ^ 40 }
    ensures { Ran ((message_of (outside depth) message.now).as_sent to_super receiver.now place.now
        frame.now)
        (O.seen objects.old) locals.old result (O.seen objects.new) locals.new }
{
    let values = Arguments::new(alloc);
    eval_arguments(
        alloc,
        objects,
        locals,
        place,
        frame,
        &message.selector,
        &message.args,
        to_super,
        receiver,
        values,
        depth,
    )
}

// A message by its special form, where it has one.
#[cycle(evaluation)]
fn eval_by_form<O: Objects>(
    alloc: Global,
    objects: &mut O,
    locals: &mut Locals,
    place: &Place,
    frame: &Frame,
    message: &Message,
    to_super: bool,
    receiver: &Value,
    depth: u32,
) -> Result<Value, Stop>
    requires { size_send message.now ≤ 2 ^ 40 }
    ensures { Ran ((message_of (outside depth) message.now).by_form to_super receiver.now place.now
        frame.now)
        (O.seen objects.old) locals.old result (O.seen objects.new) locals.new }
{
    let form = form_under(to_super, &message.selector, &message.args);
    eval_form(
        alloc,
        objects,
        locals,
        place,
        frame,
        form,
        &message.selector,
        &message.args,
        to_super,
        receiver,
        depth,
    )
}

// A message of this form.
#[cycle(evaluation)]
#[tactic(auto, using(crate::proofs::Runs::runs), unfolding(gem_language::specs::Sends::outside))]
fn eval_form<O: Objects>(
    alloc: Global,
    objects: &mut O,
    locals: &mut Locals,
    place: &Place,
    frame: &Frame,
    form: Form,
    selector: &Text,
    arguments: &[Expr],
    to_super: bool,
    receiver: &Value,
    depth: u32,
) -> Result<Value, Stop>
    requires { size_expressions (expressions arguments.now) ≤ 2 ^ 40 }
    ensures { Ran (message (outside depth) form selector.now
        (arguments_of (outside depth) (expressions arguments.now)) to_super receiver.now
        place.now frame.now)
        (O.seen objects.old) locals.old result (O.seen objects.new) locals.new }
{
    match form {
        Form::Plain => {
            let values = Arguments::new(alloc);
            eval_arguments(
                alloc, objects, locals, place, frame, selector, arguments, to_super, receiver,
                values, depth,
            )
        }
        Form::OneArm(when, otherwise) => {
            eval_one_arm(
                alloc, objects, locals, place, frame, arguments, when, otherwise, receiver, depth,
            )
        }
        Form::TwoArms(when) => eval_two_arms(
            alloc, objects, locals, place, frame, arguments, when, receiver, depth,
        ),
        Form::Counting => eval_counting(
            alloc, objects, locals, place, frame, arguments, receiver, depth,
        ),
        Form::Repeating => eval_repeating(
            alloc, objects, locals, place, frame, arguments, receiver, depth,
        ),
    }
}

// A unit; then the block, where the receiver is this truth value, and else this object.
#[cycle(evaluation)]
fn eval_one_arm<O: Objects>(
    alloc: Global,
    objects: &mut O,
    locals: &mut Locals,
    place: &Place,
    frame: &Frame,
    arguments: &[Expr],
    when: bool,
    otherwise: Singleton,
    receiver: &Value,
    depth: u32,
) -> Result<Value, Stop>
    requires { size_expressions (expressions arguments.now) ≤ 2 ^ 40 }
    ensures { Ran (and_then (atom Tick) (λ ticked. by_truth (truth_of receiver.now) when
        ((first_argument (arguments_of (outside depth) (expressions arguments.now))).in_place
        place.now None frame.now) (give (singleton_value otherwise))))
        (O.seen objects.old) locals.old result (O.seen objects.new) locals.new }
{
    take_unit(objects, locals)?;
    match (truth_of(receiver), when) {
        (Truth::True, true) | (Truth::False, false) => eval_first_block(
            alloc, objects, locals, place, frame, arguments, None, depth,
        ),
        (Truth::True, false) | (Truth::False, true) => Ok(singleton_value(otherwise)),
        (Truth::Neither, _) => Err(Stop::Fails(Fault::NotBoolean)),
    }
}

// A unit; then one of two blocks.
#[cycle(evaluation)]
fn eval_two_arms<O: Objects>(
    alloc: Global,
    objects: &mut O,
    locals: &mut Locals,
    place: &Place,
    frame: &Frame,
    arguments: &[Expr],
    when: bool,
    receiver: &Value,
    depth: u32,
) -> Result<Value, Stop>
    requires { size_expressions (expressions arguments.now) ≤ 2 ^ 40 }
    ensures { Ran (and_then (atom Tick) (λ ticked. by_truth (truth_of receiver.now) when
        ((first_argument (arguments_of (outside depth) (expressions arguments.now))).in_place
        place.now None frame.now)
        ((first_argument (rest_arguments (arguments_of (outside depth)
        (expressions arguments.now)))).in_place place.now None frame.now)))
        (O.seen objects.old) locals.old result (O.seen objects.new) locals.new }
{
    take_unit(objects, locals)?;
    match (truth_of(receiver), when) {
        (Truth::True, true) | (Truth::False, false) => eval_first_block(
            alloc, objects, locals, place, frame, arguments, None, depth,
        ),
        (Truth::True, false) | (Truth::False, true) => eval_second_block(
            alloc, objects, locals, place, frame, arguments, depth,
        ),
        (Truth::Neither, _) => Err(Stop::Fails(Fault::NotBoolean)),
    }
}

// The value of the first argument.
#[cycle(evaluation)]
fn eval_first_value<O: Objects>(
    alloc: Global,
    objects: &mut O,
    locals: &mut Locals,
    place: &Place,
    frame: &Frame,
    arguments: &[Expr],
    depth: u32,
) -> Result<Value, Stop>
    requires { size_expressions (expressions arguments.now) ≤ 2 ^ 40 }
    ensures { Ran ((first_argument (arguments_of (outside depth) (expressions arguments.now))).value
        place.now frame.now)
        (O.seen objects.old) locals.old result (O.seen objects.new) locals.new }
{
    let Some((first, _)) = arguments.split_first() else {
        return Ok(Value::Nil);
    };
    eval_expression(alloc, objects, locals, place, frame, first, depth)
}

// The first argument as a block in its place.
#[cycle(evaluation)]
fn eval_first_block<O: Objects>(
    alloc: Global,
    objects: &mut O,
    locals: &mut Locals,
    place: &Place,
    frame: &Frame,
    arguments: &[Expr],
    handed: Option<Value>,
    depth: u32,
) -> Result<Value, Stop>
    requires { size_expressions (expressions arguments.now) ≤ 2 ^ 40 }
    ensures { Ran ((first_argument (arguments_of (outside depth)
        (expressions arguments.now))).in_place place.now handed frame.now)
        (O.seen objects.old) locals.old result (O.seen objects.new) locals.new }
{
    let Some((first, _)) = arguments.split_first() else {
        return Ok(Value::Nil);
    };
    eval_in_place(
        alloc,
        objects,
        locals,
        place,
        frame,
        &first.head,
        handed,
        depth,
    )
}

// The second argument as a block in its place.
#[cycle(evaluation)]
fn eval_second_block<O: Objects>(
    alloc: Global,
    objects: &mut O,
    locals: &mut Locals,
    place: &Place,
    frame: &Frame,
    arguments: &[Expr],
    depth: u32,
) -> Result<Value, Stop>
    requires { size_expressions (expressions arguments.now) ≤ 2 ^ 40 }
    ensures { Ran ((first_argument (rest_arguments (arguments_of (outside depth)
        (expressions arguments.now)))).in_place place.now None frame.now)
        (O.seen objects.old) locals.old result (O.seen objects.new) locals.new }
{
    let Some((_, rest)) = arguments.split_first() else {
        return Ok(Value::Nil);
    };
    eval_first_block(alloc, objects, locals, place, frame, rest, None, depth)
}

// What begins an expression as a block in its place.
#[cycle(evaluation)]
fn eval_in_place<O: Objects>(
    alloc: Global,
    objects: &mut O,
    locals: &mut Locals,
    place: &Place,
    frame: &Frame,
    head: &Primary,
    handed: Option<Value>,
    depth: u32,
) -> Result<Value, Stop>
    requires { size_head (head_of head.now) ≤ 2 ^ 40 }
    ensures { Ran (head_in_place (outside depth) (head_of head.now) place.now handed frame.now)
        (O.seen objects.old) locals.old result (O.seen objects.new) locals.new }
{
    match head {
        Primary::Block(block) => eval_block(
            alloc, objects, locals, place, frame, block, handed, depth,
        ),
        Primary::Name(_) => Ok(Value::Nil),
        Primary::Lit(_) => Ok(Value::Nil),
        Primary::Paren(_) => Ok(Value::Nil),
    }
}

// A block in its place. Its variables are new in each evaluation: they stand in a scope of their
// own, which is given back. A block without variables has none.
#[cycle(evaluation)]
fn eval_block<O: Objects>(
    alloc: Global,
    objects: &mut O,
    locals: &mut Locals,
    place: &Place,
    frame: &Frame,
    block: &BlockTree,
    handed: Option<Value>,
    depth: u32,
) -> Result<Value, Stop>
    requires { size_closure block.now ≤ 2 ^ 40 }
    ensures { Ran (closure_in_place (outside depth) block.now place.now handed frame.now)
        (O.seen objects.old) locals.old result (O.seen objects.new) locals.new }
{
    let variables = block.params.len() + block.temps.len();
    if variables == 0 {
        return eval_body(alloc, objects, locals, place, frame, block, handed, depth);
    }
    let inside = place.with_variables(&block.params, &block.temps)?;
    let mark = locals.mark();
    locals.open_scope(nil_values(alloc, variables)?)?;
    let inner = frame.with_scope(mark)?;
    let answer = eval_body(
        alloc, objects, locals, &inside, &inner, block, handed, depth,
    )?;
    locals.give_back(mark);
    Ok(answer)
}

// The parameter of a block, which may be handed a value, and its statements.
#[cycle(evaluation)]
fn eval_body<O: Objects>(
    alloc: Global,
    objects: &mut O,
    locals: &mut Locals,
    place: &Place,
    frame: &Frame,
    block: &BlockTree,
    handed: Option<Value>,
    depth: u32,
) -> Result<Value, Stop>
    requires { size_closure block.now ≤ 2 ^ 40 }
    ensures { Ran (and_then (hand (params_of block.now) handed frame.now)
        (λ done. statements_in_turn (statement_runs (outside depth) (statements_of block.now))
        place.now frame.now))
        (O.seen objects.old) locals.old result (O.seen objects.new) locals.new }
{
    let _ = hand(objects, locals, &block.params, handed, frame)?;
    eval_statements(alloc, objects, locals, place, frame, &block.body, depth)
}

// Statements one after the other: the answer is that of the last one.
#[cycle(evaluation)]
pub(crate) fn eval_statements<O: Objects>(
    alloc: Global,
    objects: &mut O,
    locals: &mut Locals,
    place: &Place,
    frame: &Frame,
    body: &[Stat],
    depth: u32,
) -> Result<Value, Stop>
    requires { size_statements (statements body.now) ≤ 2 ^ 40 }
    ensures { Ran (statements_in_turn (statement_runs (outside depth) (statements body.now))
        place.now frame.now)
        (O.seen objects.old) locals.old result (O.seen objects.new) locals.new }
{
    let mut answer = Value::Nil;
    for statement in body {
        answer = eval_statement(alloc, objects, locals, place, frame, statement, depth)?;
    }
    Ok(answer)
}

// A statement.
#[cycle(evaluation)]
fn eval_statement<O: Objects>(
    alloc: Global,
    objects: &mut O,
    locals: &mut Locals,
    place: &Place,
    frame: &Frame,
    statement: &Stat,
    depth: u32,
) -> Result<Value, Stop>
    requires { size_statement statement.now ≤ 2 ^ 40 }
    ensures { Ran (statement_value (outside depth) statement.now place.now frame.now)
        (O.seen objects.old) locals.old result (O.seen objects.new) locals.new }
{
    if !statement.returns {
        return eval_expression(alloc, objects, locals, place, frame, &statement.expr, depth);
    }
    let answer = eval_expression(alloc, objects, locals, place, frame, &statement.expr, depth)?;
    return_value(objects, locals, place, frame, answer)
}

// A while loop: a unit for the message, and its turns.
#[cycle(evaluation)]
fn eval_while<O: Objects>(
    alloc: Global,
    objects: &mut O,
    locals: &mut Locals,
    place: &Place,
    frame: &Frame,
    when: bool,
    head: &Primary,
    messages: &[Message],
    depth: u32,
) -> Result<Value, Stop>
    requires { size_head (head_of head.now) + size_sends (sends messages.now) ≤ 2 ^ 40 }
    ensures { Ran (while_loop when
        (head_in_place (outside depth) (head_of head.now) place.now None frame.now)
        (first_body (messages_of (outside depth) (sends messages.now)) place.now frame.now))
        (O.seen objects.old) locals.old result (O.seen objects.new) locals.new }
{
    take_unit(objects, locals)?;
    eval_turns(
        alloc, objects, locals, place, frame, when, head, messages, depth,
    )
}

// The turns of a while loop: each takes a unit before its body.
#[cycle(evaluation)]
fn eval_turns<O: Objects>(
    alloc: Global,
    objects: &mut O,
    locals: &mut Locals,
    place: &Place,
    frame: &Frame,
    when: bool,
    head: &Primary,
    messages: &[Message],
    depth: u32,
) -> Result<Value, Stop>
    requires { size_head (head_of head.now) + size_sends (sends messages.now) ≤ 2 ^ 40 }
    ensures { Ran (while_turns when
        (head_in_place (outside depth) (head_of head.now) place.now None frame.now)
        (first_body (messages_of (outside depth) (sends messages.now)) place.now frame.now))
        (O.seen objects.old) locals.old result (O.seen objects.new) locals.new }
{
    let first = eval_in_place(alloc, objects, locals, place, frame, head, None, depth)?;
    let mut go = test(&first, when)?;
    while go {
        take_unit(objects, locals)?;
        let _ = eval_loop_body(alloc, objects, locals, place, frame, messages, depth)?;
        let next = eval_in_place(alloc, objects, locals, place, frame, head, None, depth)?;
        go = test(&next, when)?;
    }
    Ok(Value::Nil)
}

// The argument of the first message as the body of a loop.
#[cycle(evaluation)]
fn eval_loop_body<O: Objects>(
    alloc: Global,
    objects: &mut O,
    locals: &mut Locals,
    place: &Place,
    frame: &Frame,
    messages: &[Message],
    depth: u32,
) -> Result<Value, Stop>
    requires { size_sends (sends messages.now) ≤ 2 ^ 40 }
    ensures { Ran (first_body (messages_of (outside depth) (sends messages.now)) place.now
        frame.now)
        (O.seen objects.old) locals.old result (O.seen objects.new) locals.new }
{
    let Some((first, _)) = messages.split_first() else {
        return Ok(Value::Nil);
    };
    eval_first_block(
        alloc,
        objects,
        locals,
        place,
        frame,
        &first.args,
        None,
        depth,
    )
}

// `to:do:`: the limit, a unit, and the turns.
#[cycle(evaluation)]
fn eval_counting<O: Objects>(
    alloc: Global,
    objects: &mut O,
    locals: &mut Locals,
    place: &Place,
    frame: &Frame,
    arguments: &[Expr],
    receiver: &Value,
    depth: u32,
) -> Result<Value, Stop>
    requires { size_expressions (expressions arguments.now) ≤ 2 ^ 40 }
    ensures { Ran (message (outside depth) Form.Counting []
        (arguments_of (outside depth) (expressions arguments.now)) false receiver.now place.now
        frame.now)
        (O.seen objects.old) locals.old result (O.seen objects.new) locals.new }
{
    let limit = eval_first_value(alloc, objects, locals, place, frame, arguments, depth)?;
    take_unit(objects, locals)?;
    let pair = int_pair(receiver, &limit);
    let Some((_, rest)) = arguments.split_first() else {
        return eval_counts(
            alloc, objects, locals, place, frame, pair, arguments, true, receiver, depth,
        );
    };
    eval_counts(
        alloc, objects, locals, place, frame, pair, rest, true, receiver, depth,
    )
}

// `timesRepeat:`: a unit, and the turns from 1 on.
#[cycle(evaluation)]
fn eval_repeating<O: Objects>(
    alloc: Global,
    objects: &mut O,
    locals: &mut Locals,
    place: &Place,
    frame: &Frame,
    arguments: &[Expr],
    receiver: &Value,
    depth: u32,
) -> Result<Value, Stop>
    requires { size_expressions (expressions arguments.now) ≤ 2 ^ 40 }
    ensures { Ran (message (outside depth) Form.Repeating []
        (arguments_of (outside depth) (expressions arguments.now)) false receiver.now place.now
        frame.now)
        (O.seen objects.old) locals.old result (O.seen objects.new) locals.new }
{
    take_unit(objects, locals)?;
    let pair = int_pair(&Value::Int(1), receiver);
    eval_counts(
        alloc, objects, locals, place, frame, pair, arguments, false, receiver, depth,
    )
}

// A counting loop between two values: E5 unless both are integers.
#[cycle(evaluation)]
fn eval_counts<O: Objects>(
    alloc: Global,
    objects: &mut O,
    locals: &mut Locals,
    place: &Place,
    frame: &Frame,
    pair: Pair,
    arguments: &[Expr],
    hands: bool,
    answer: &Value,
    depth: u32,
) -> Result<Value, Stop>
    requires { size_expressions (expressions arguments.now) ≤ 2 ^ 40 }
    ensures { Ran (count_between pair (λ number. (first_argument (arguments_of (outside depth)
        (expressions arguments.now))).in_place place.now (handed_value hands number) frame.now)
        answer.now)
        (O.seen objects.old) locals.old result (O.seen objects.new) locals.new }
{
    match pair {
        Pair::Ints(number, limit) => eval_count(
            alloc, objects, locals, place, frame, number, limit, arguments, hands, answer, depth,
        ),
        Pair::Others => Err(Stop::Fails(Fault::ArgumentKind)),
    }
}

// The turns of a counting loop: each takes a unit before its body.
#[cycle(evaluation)]
fn eval_count<O: Objects>(
    alloc: Global,
    objects: &mut O,
    locals: &mut Locals,
    place: &Place,
    frame: &Frame,
    number: i64,
    limit: i64,
    arguments: &[Expr],
    hands: bool,
    answer: &Value,
    depth: u32,
) -> Result<Value, Stop>
    requires { size_expressions (expressions arguments.now) ≤ 2 ^ 40 }
    ensures { Ran (count_turns number limit (λ number.
        (first_argument (arguments_of (outside depth) (expressions arguments.now))).in_place
        place.now (handed_value hands number) frame.now) answer.now)
        (O.seen objects.old) locals.old result (O.seen objects.new) locals.new }
{
    let mut at = number;
    while at <= limit {
        take_unit(objects, locals)?;
        let _ = eval_first_block(
            alloc,
            objects,
            locals,
            place,
            frame,
            arguments,
            handed(hands, at),
            depth,
        )?;
        if at >= LARGEST_INTEGER {
            return Ok(answer.clone()?);
        }
        at += 1;
    }
    Ok(answer.clone()?)
}

// The values of arguments from left to right, after those that are known; then the send.
#[cycle(evaluation)]
fn eval_arguments<O: Objects>(
    alloc: Global,
    objects: &mut O,
    locals: &mut Locals,
    place: &Place,
    frame: &Frame,
    selector: &Text,
    arguments: &[Expr],
    to_super: bool,
    receiver: &Value,
    mut values: Arguments,
    depth: u32,
) -> Result<Value, Stop>
    requires { size_expressions (expressions arguments.now) ≤ 2 ^ 40 }
    ensures { Ran (argument_values (arguments_of (outside depth) (expressions arguments.now)) values
        place.now frame.now (λ all. send_by (callee depth) to_super selector.now frame.now
        receiver.now all))
        (O.seen objects.old) locals.old result (O.seen objects.new) locals.new }
{
    for argument in arguments {
        let answer = eval_expression(alloc, objects, locals, place, frame, argument, depth)?;
        values.push(answer)?;
    }
    send(
        alloc, objects, locals, frame, to_super, selector, receiver, values, depth,
    )
}

// A send: a unit, the look-up, and the method.
#[cycle(evaluation)]
#[tactic(auto, using(crate::proofs::Runs::runs), unfolding(gem_language::specs::Sends::send_by))]
fn send<O: Objects>(
    alloc: Global,
    objects: &mut O,
    locals: &mut Locals,
    frame: &Frame,
    to_super: bool,
    selector: &Text,
    receiver: &Value,
    values: Arguments,
    depth: u32,
) -> Result<Value, Stop>
    ensures { Ran (send_by (callee depth) to_super selector.now frame.now receiver.now values)
        (O.seen objects.old) locals.old result (O.seen objects.new) locals.new }
{
    take_unit(objects, locals)?;
    let found = find_method(objects, locals, to_super, frame, receiver, selector)?;
    call_found(
        alloc,
        objects,
        locals,
        selector,
        found,
        receiver,
        values.in_order(),
        depth,
    )
}

// The method that was found is called: E1 where none was.
#[cycle(evaluation)]
fn call_found<O: Objects>(
    alloc: Global,
    objects: &mut O,
    locals: &mut Locals,
    selector: &Text,
    found: Option<Found>,
    receiver: &Value,
    arguments: Vec<Value>,
    depth: u32,
) -> Result<Value, Stop>
    ensures { Ran (call_found (callee depth) selector.now found receiver.now arguments.items)
        (O.seen objects.old) locals.old result (O.seen objects.new) locals.new }
{
    match found {
        Some(found) => call_code(
            alloc, objects, locals, selector, &found, receiver, arguments, depth,
        ),
        None => Err(Stop::Fails(Fault::NotUnderstood(selector.clone()?))),
    }
}

// What a method does: its primitive, or its source.
#[cycle(evaluation)]
fn call_code<O: Objects>(
    alloc: Global,
    objects: &mut O,
    locals: &mut Locals,
    selector: &Text,
    found: &Found,
    receiver: &Value,
    arguments: Vec<Value>,
    depth: u32,
) -> Result<Value, Stop>
    ensures { Ran (call_code (callee depth) selector.now found.now found.now.code receiver.now
        arguments.items)
        (O.seen objects.old) locals.old result (O.seen objects.new) locals.new }
{
    match &found.code {
        MethodCode::Primitive(number) => {
            let answer = primitive(alloc, objects, locals, *number, receiver, &arguments)?;
            value_of_primitive(alloc, objects, locals, answer, depth)
        }
        MethodCode::Source(source) => {
            call_source(
                alloc, objects, locals, selector, found, source, receiver, arguments, depth,
            )
        }
    }
}

// What a primitive's answer comes to: its value, or that of the block that it evaluates.
#[cycle(evaluation)]
fn value_of_primitive<O: Objects>(
    alloc: Global,
    objects: &mut O,
    locals: &mut Locals,
    answer: PrimitiveAnswer,
    depth: u32,
) -> Result<Value, Stop>
    ensures { Ran (primitive_value (callee depth) answer)
        (O.seen objects.old) locals.old result (O.seen objects.new) locals.new }
{
    match answer {
        PrimitiveAnswer::Gives(value) => Ok(value),
        PrimitiveAnswer::Evaluates(block, arguments) => {
            call_block(
                alloc,
                objects,
                locals,
                block.number,
                arguments.into_items(),
                depth,
            )
        }
    }
}

// A method with source is run by its tree; E1 where the source has none.
#[cycle(evaluation)]
fn call_source<O: Objects>(
    alloc: Global,
    objects: &mut O,
    locals: &mut Locals,
    selector: &Text,
    found: &Found,
    source: &Text,
    receiver: &Value,
    arguments: Vec<Value>,
    depth: u32,
) -> Result<Value, Stop>
    ensures { Ran (call_source (callee depth) selector.now found.now
        (tree_of method source.now) receiver.now arguments.items)
        (O.seen objects.old) locals.old result (O.seen objects.new) locals.new }
{
    match method_tree(alloc, source)? {
        Some(tree) => call_method(
            alloc,
            objects,
            locals,
            &tree,
            found.holder,
            found.class_side,
            receiver,
            arguments,
            depth,
        ),
        None => Err(Stop::Fails(Fault::NotUnderstood(selector.clone()?))),
    }
}

// A method with a tree is called: E14 where no activation may begin.
#[cycle(evaluation)]
fn call_method<O: Objects>(
    alloc: Global,
    objects: &mut O,
    locals: &mut Locals,
    tree: &Tree,
    holder: Oid,
    class_side: bool,
    receiver: &Value,
    arguments: Vec<Value>,
    depth: u32,
) -> Result<Value, Stop>
    requires { size_program tree.now ≤ 2 ^ 40 }
    ensures { Ran ((callee depth).method tree.now holder class_side receiver.now arguments.items)
        (O.seen objects.old) locals.old result (O.seen objects.new) locals.new }
{
    if depth == 0 {
        return Err(Stop::Fails(Fault::Depth));
    }
    activate(
        alloc,
        objects,
        locals,
        tree,
        holder,
        class_side,
        receiver,
        arguments,
        depth - 1,
    )
}

// The activation of a method, in which so many more may begin.
#[cycle(evaluation)]
fn activate<O: Objects>(
    alloc: Global,
    objects: &mut O,
    locals: &mut Locals,
    tree: &Tree,
    holder: Oid,
    class_side: bool,
    receiver: &Value,
    arguments: Vec<Value>,
    depth: u32,
) -> Result<Value, Stop>
    requires { size_program tree.now ≤ 2 ^ 40 }
    ensures { Ran (activation (method_body (outside depth) tree.now) (length tree.now.temps) holder
        class_side receiver.now arguments.items)
        (O.seen objects.old) locals.old result (O.seen objects.new) locals.new }
{
    let mark = locals.mark();
    let frame = method_frame(holder, class_side, receiver.clone()?, locals)?;
    locals.begin_method(with_nils(arguments, tree.temps.len())?)?;
    let ended = eval_method(alloc, objects, locals, &frame, tree, depth);
    leave_method(objects, locals, mark, ended)
}

// A method answers `self`, unless `^` ends it before.
#[cycle(evaluation)]
#[tactic(auto, using(crate::proofs::Runs::runs), unfolding(tree_meaning::specs::Bodies::method_body))]
fn eval_method<O: Objects>(
    alloc: Global,
    objects: &mut O,
    locals: &mut Locals,
    frame: &Frame,
    tree: &Tree,
    depth: u32,
) -> Result<Value, Stop>
    requires { size_program tree.now ≤ 2 ^ 40 }
    ensures { Ran (method_body (outside depth) tree.now frame.now)
        (O.seen objects.old) locals.old result (O.seen objects.new) locals.new }
{
    let place = Place::of_method(tree)?;
    let _ = eval_statements(alloc, objects, locals, &place, frame, &tree.body, depth)?;
    Err(Stop::Returns(frame.receiver().clone()?, frame.home()))
}

// The made block of this number is called: E9 unless it takes so many arguments.
#[cycle(evaluation)]
#[tactic(auto, using(crate::proofs::Runs::runs), unfolding(tree_meaning::specs::Calls::call_block_at))]
fn call_block<O: Objects>(
    alloc: Global,
    objects: &mut O,
    locals: &mut Locals,
    number: u64,
    arguments: Vec<Value>,
    depth: u32,
) -> Result<Value, Stop>
    ensures { Ran (call_block_at (callee depth).block number arguments.items)
        (O.seen objects.old) locals.old result (O.seen objects.new) locals.new }
{
    let Some(made) = locals.block(number) else {
        return Err(Stop::Fails(Fault::ArgumentKind));
    };
    let made = made.clone()?;
    if !takes(&made, &arguments) {
        return Err(Stop::Fails(Fault::BlockArgumentCount));
    }
    call_made(alloc, objects, locals, &made, arguments, depth)
}

// A made block is called: E14 where no activation may begin.
#[cycle(evaluation)]
fn call_made<O: Objects>(
    alloc: Global,
    objects: &mut O,
    locals: &mut Locals,
    made: &MadeBlock,
    arguments: Vec<Value>,
    depth: u32,
) -> Result<Value, Stop>
    requires { size_closure made.now.tree ≤ 2 ^ 40 }
    ensures { Ran ((callee depth).block made.now arguments.items)
        (O.seen objects.old) locals.old result (O.seen objects.new) locals.new }
{
    if depth == 0 {
        return Err(Stop::Fails(Fault::Depth));
    }
    evaluate(alloc, objects, locals, made, arguments, depth - 1)
}

// The evaluation of a made block, in which so many activations more may begin.
#[cycle(evaluation)]
fn evaluate<O: Objects>(
    alloc: Global,
    objects: &mut O,
    locals: &mut Locals,
    made: &MadeBlock,
    arguments: Vec<Value>,
    depth: u32,
) -> Result<Value, Stop>
    requires { size_closure made.now.tree ≤ 2 ^ 40 }
    ensures { Ran (evaluation (block_body (outside depth) made.now.tree made.now.place)
        (temps_count made.now.tree) made.now.frame arguments.items)
        (O.seen objects.old) locals.old result (O.seen objects.new) locals.new }
{
    let mark = locals.mark();
    let inner = made.frame().with_scope(mark)?;
    locals.open_scope(with_nils(arguments, made.tree().temps.len())?)?;
    let ended = eval_made(alloc, objects, locals, &inner, made, depth);
    leave_block(objects, locals, mark, ended)
}

// A made block answers its last statement's value.
#[cycle(evaluation)]
#[tactic(auto, using(crate::proofs::Runs::runs), unfolding(tree_meaning::specs::Bodies::block_body))]
fn eval_made<O: Objects>(
    alloc: Global,
    objects: &mut O,
    locals: &mut Locals,
    frame: &Frame,
    made: &MadeBlock,
    depth: u32,
) -> Result<Value, Stop>
    ensures { Ran (block_body (outside depth) made.now.tree made.now.place frame.now)
        (O.seen objects.old) locals.old result (O.seen objects.new) locals.new }
{
    let tree = made.tree();
    let place = block_place(tree, made.place())?;
    eval_statements(alloc, objects, locals, &place, frame, &tree.body, depth)
}
