//! Which messages are special forms.
ghost use Rattle.std.specs.Prelude.{◌≡◌};
ghost use Rattle.st_tree.specs.Trees.{expression, sends, expressions};
ghost use Rattle.st_tree.specs.Views.{head_of};
ghost use Rattle.tree_meaning.specs.Forms.{takes, is_block_head, is_block_of, are_one_block, are_two_blocks, are_limit_and_block, form_with_block, form_with_two_blocks, form_with_limit, form_of, form_under, loop_with_block, loop_of, first_loop};
ghost use Rattle.tree_meaning.specs.Meaning.{is_super_head};

use crate::names::is_super;
use gem_object::Text;
use st_tree::{BlockTree, Expr, Message, Primary};
use tree_meaning::{Form, Singleton};

/// Whether what begins an expression is `super`.
pub fn is_super_head(head: &Primary) -> bool
    ensures { result ≡ is_super_head (head_of head.now) }
{
    match head {
        Primary::Name(name) => is_super(name),
        _ => false,
    }
}

/// The form of a message that isn't sent to `super` and isn't in a cascade.
#[tactic(auto, using(crate::proofs::FormTests::forms))]
pub fn form_of(selector: &Text, arguments: &[Expr]) -> Form
    ensures { result ≡ form_of selector.now (expressions arguments.now) }
{
    if are_one_block(arguments) {
        form_with_block(selector.bytes())
    } else if are_two_blocks(arguments) {
        form_with_two_blocks(selector.bytes())
    } else if are_limit_and_block(arguments) {
        form_with_limit(selector.bytes())
    } else {
        Form::Plain
    }
}

/// The same of a message that may be sent to `super`: such a message is always sent.
pub fn form_under(to_super: bool, selector: &Text, arguments: &[Expr]) -> Form
    ensures { result ≡ form_under to_super selector.now (expressions arguments.now) }
{
    if to_super {
        Form::Plain
    } else {
        form_of(selector, arguments)
    }
}

/// Whether the first of an expression's messages is a while loop, and while which truth value it
/// goes on. The last message before a cascade is none.
#[tactic(auto, using(crate::proofs::FormTests::first_loops))]
pub fn first_loop(head: &Primary, messages: &[Message], cascade: &[Message]) -> Option<bool>
    ensures { result ≡ first_loop (head_of head.now) (sends messages.now) (sends cascade.now) }
{
    let Some((first, rest)) = messages.split_first() else {
        return None;
    };
    if !rest.is_empty() {
        return loop_of(head, first);
    }
    if !cascade.is_empty() {
        return None;
    }
    loop_of(head, first)
}

#[tactic(auto, using(crate::proofs::FormTests::loops))]
fn loop_of(head: &Primary, message: &Message) -> Option<bool>
    ensures { result ≡ loop_of (head_of head.now) message.now }
{
    if !is_block_head(0, head) {
        return None;
    }
    if !are_one_block(&message.args) {
        return None;
    }
    loop_with_block(message.selector.bytes())
}

fn loop_with_block(selector: &[u8]) -> Option<bool>
    ensures { result ≡ loop_with_block selector.now }
{
    if selector == b"whileTrue:".as_slice() {
        Some(true)
    } else if selector == b"whileFalse:".as_slice() {
        Some(false)
    } else {
        None
    }
}

fn takes(count: usize, block: &BlockTree) -> bool
    ensures { result ≡ takes count block.now }
{
    block.params.len() == count
}

fn is_block_head(count: usize, head: &Primary) -> bool
    ensures { result ≡ is_block_head count (head_of head.now) }
{
    match head {
        Primary::Block(block) => takes(count, block),
        _ => false,
    }
}

fn is_block_of(count: usize, expr: &Expr) -> bool
    ensures { result ≡ is_block_of count expr.now }
{
    is_block_alone(
        count,
        &expr.assigns,
        &expr.head,
        &expr.messages,
        &expr.cascade,
    )
}

/// The same of an expression's parts.
#[tactic(auto, using(crate::proofs::FormTests::blocks_alone))]
fn is_block_alone(
    count: usize,
    assigns: &[Text],
    head: &Primary,
    messages: &[Message],
    cascade: &[Message],
) -> bool
    ensures { result ≡ is_block_of count (expression assigns.now (head_of head.now)
        (sends messages.now) (sends cascade.now)) }
{
    if !assigns.is_empty() {
        return false;
    }
    if !messages.is_empty() {
        return false;
    }
    if !cascade.is_empty() {
        return false;
    }
    is_block_head(count, head)
}

#[tactic(auto, using(crate::proofs::FormTests::one_block))]
fn are_one_block(arguments: &[Expr]) -> bool
    ensures { result ≡ are_one_block (expressions arguments.now) }
{
    let Some((only, rest)) = arguments.split_first() else {
        return false;
    };
    if !rest.is_empty() {
        return false;
    }
    is_block_of(0, only)
}

#[tactic(auto, using(crate::proofs::FormTests::two_blocks))]
fn are_two_blocks(arguments: &[Expr]) -> bool
    ensures { result ≡ are_two_blocks (expressions arguments.now) }
{
    let Some((first, others)) = arguments.split_first() else {
        return false;
    };
    let Some((second, rest)) = others.split_first() else {
        return false;
    };
    if !rest.is_empty() {
        return false;
    }
    is_block_of(0, first) && is_block_of(0, second)
}

#[tactic(auto, using(crate::proofs::FormTests::limit_and_block))]
fn are_limit_and_block(arguments: &[Expr]) -> bool
    ensures { result ≡ are_limit_and_block (expressions arguments.now) }
{
    let Some((_, others)) = arguments.split_first() else {
        return false;
    };
    let Some((body, rest)) = others.split_first() else {
        return false;
    };
    if !rest.is_empty() {
        return false;
    }
    is_block_of(1, body)
}

fn form_with_block(selector: &[u8]) -> Form
    ensures { result ≡ form_with_block selector.now }
{
    if selector == b"ifTrue:".as_slice() {
        Form::OneArm(true, Singleton::Nil)
    } else if selector == b"ifFalse:".as_slice() {
        Form::OneArm(false, Singleton::Nil)
    } else if selector == b"and:".as_slice() {
        Form::OneArm(true, Singleton::False)
    } else if selector == b"or:".as_slice() {
        Form::OneArm(false, Singleton::True)
    } else if selector == b"timesRepeat:".as_slice() {
        Form::Repeating
    } else {
        Form::Plain
    }
}

fn form_with_two_blocks(selector: &[u8]) -> Form
    ensures { result ≡ form_with_two_blocks selector.now }
{
    if selector == b"ifTrue:ifFalse:".as_slice() {
        Form::TwoArms(true)
    } else if selector == b"ifFalse:ifTrue:".as_slice() {
        Form::TwoArms(false)
    } else {
        Form::Plain
    }
}

fn form_with_limit(selector: &[u8]) -> Form
    ensures { result ≡ form_with_limit selector.now }
{
    if selector == b"to:do:".as_slice() {
        Form::Counting
    } else {
        Form::Plain
    }
}
