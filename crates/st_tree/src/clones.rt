//! Copies of trees: each equals its source.
ghost use Rattle.std.specs.Prelude.{◌≡◌, IfOk};
ghost use Rattle.st_tree.specs.Views.{head_of};

use crate::nodes::{BlockTree, Expr, Literal, Literals, Message, Primary, Stat, Tree};
use std::alloc::AllocError;
use texts::Text;

fn copy_texts(texts: &Vec<Text>) -> Result<Vec<Text>, AllocError>
    ensures { IfOk result (λ copies. copies.items ≡ texts.now.items) }
{
    texts.clone()
}

impl Clone for Literal {
    ghost is_clone = { λ literal copy. copy ≡ literal };

    #[cycle(clone_literal)]
    fn clone(&self) -> Result<Literal, AllocError> {
        Ok(match self {
            Literal::Int(value) => Literal::Int(*value),
            Literal::Char(code) => Literal::Char(*code),
            Literal::Str(text) => Literal::Str(text.clone()?),
            Literal::Sym(text) => Literal::Sym(text.clone()?),
            Literal::Nil => Literal::Nil,
            Literal::True => Literal::True,
            Literal::False => Literal::False,
            Literal::Array(items) => Literal::Array(items.clone()?),
        })
    }
}

impl Clone for Literals {
    ghost is_clone = { λ literals copy. copy ≡ literals };

    #[cycle(clone_literal)]
    fn clone(&self) -> Result<Literals, AllocError> {
        Ok(Literals {
            items: copy_literals(&self.items)?,
        })
    }
}

#[cycle(clone_literal)]
fn copy_literals(literals: &Vec<Literal>) -> Result<Vec<Literal>, AllocError>
    ensures { IfOk result (λ copies. copies.items ≡ literals.now.items) }
{
    let mut copies = Vec::with_capacity(*literals.allocator(), literals.len())?;
    for literal in literals {
        copies.push(literal.clone()?)?;
    }
    Ok(copies)
}

impl Clone for Primary {
    ghost is_clone = { λ primary copy. head_of copy ≡ head_of primary };

    #[cycle(clone_expression)]
    fn clone(&self) -> Result<Primary, AllocError> {
        Ok(match self {
            Primary::Name(name) => Primary::Name(name.clone()?),
            Primary::Lit(literal) => Primary::Lit(literal.clone()?),
            Primary::Block(block) => Primary::Block(block.clone()?),
            Primary::Paren(expr) => {
                let copy = Expr::clone(expr)?;
                Primary::Paren(Box::new(*Box::allocator(expr), copy)?)
            }
        })
    }
}

impl Clone for BlockTree {
    ghost is_clone = { λ block copy. copy ≡ block };

    #[cycle(clone_expression)]
    fn clone(&self) -> Result<BlockTree, AllocError> {
        Ok(BlockTree {
            params: copy_texts(&self.params)?,
            temps: copy_texts(&self.temps)?,
            body: copy_stats(&self.body)?,
        })
    }
}

impl Clone for Stat {
    ghost is_clone = { λ stat copy. copy ≡ stat };

    #[cycle(clone_expression)]
    fn clone(&self) -> Result<Stat, AllocError> {
        Ok(Stat {
            returns: self.returns,
            expr: self.expr.clone()?,
        })
    }
}

impl Clone for Expr {
    ghost is_clone = { λ expr copy. copy ≡ expr };

    #[cycle(clone_expression)]
    fn clone(&self) -> Result<Expr, AllocError> {
        Ok(Expr {
            assigns: copy_texts(&self.assigns)?,
            head: self.head.clone()?,
            messages: copy_messages(&self.messages)?,
            cascade: copy_messages(&self.cascade)?,
        })
    }
}

impl Clone for Message {
    ghost is_clone = { λ message copy. copy ≡ message };

    #[cycle(clone_expression)]
    fn clone(&self) -> Result<Message, AllocError> {
        Ok(Message {
            selector: self.selector.clone()?,
            args: copy_exprs(&self.args)?,
        })
    }
}

#[cycle(clone_expression)]
fn copy_exprs(exprs: &Vec<Expr>) -> Result<Vec<Expr>, AllocError>
    ensures { IfOk result (λ copies. copies.items ≡ exprs.now.items) }
{
    let mut copies = Vec::with_capacity(*exprs.allocator(), exprs.len())?;
    for expr in exprs {
        copies.push(expr.clone()?)?;
    }
    Ok(copies)
}

#[cycle(clone_expression)]
fn copy_stats(stats: &Vec<Stat>) -> Result<Vec<Stat>, AllocError>
    ensures { IfOk result (λ copies. copies.items ≡ stats.now.items) }
{
    let mut copies = Vec::with_capacity(*stats.allocator(), stats.len())?;
    for stat in stats {
        copies.push(stat.clone()?)?;
    }
    Ok(copies)
}

#[cycle(clone_expression)]
fn copy_messages(messages: &Vec<Message>) -> Result<Vec<Message>, AllocError>
    ensures { IfOk result (λ copies. copies.items ≡ messages.now.items) }
{
    let mut copies = Vec::with_capacity(*messages.allocator(), messages.len())?;
    for message in messages {
        copies.push(message.clone()?)?;
    }
    Ok(copies)
}

impl Clone for Tree {
    ghost is_clone = { λ tree copy. copy ≡ tree };

    fn clone(&self) -> Result<Tree, AllocError> {
        Ok(Tree {
            selector: self.selector.clone()?,
            params: copy_texts(&self.params)?,
            temps: copy_texts(&self.temps)?,
            body: copy_stats(&self.body)?,
        })
    }
}
