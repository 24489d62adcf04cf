//! Variables, made blocks and activations.
ghost use Rattle.std.specs.Prelude.{◌≡◌, ◌<◌, ◌≤◌, ◌++◌, ℕ, ◌∷◌, [], length, get_or, set, reverse, take, drop, replicate, slice_get, option_copied, None, IfSome, IfOk, OnOk, OnErr};
ghost use Rattle.gem_object.specs.declared.value.Value.TheVariants.{Nil};
ghost use Rattle.tree_meaning.specs.object_programs.Local.{nothing};
ghost use Rattle.st_machine.specs.Variables.{more_nils};
ghost use Rattle.tree_meaning.specs.Place.{MadeBlock as TreeBlock};
ghost use Rattle.tree_meaning.specs.Scopes.{mark, open_scope, begin_method, is_living, with_value};

use crate::code_block::{CodeBlock, SharedBlock};
use crate::layers::Layers;
use gem_object::Value;
use list_stack::ListStack;
use st_locals::Activations;
use std::alloc::{AllocError, Global};
use std::marker::Model;
use tree_meaning::Mark;

/// The variables of a running chunk by their scopes, the blocks that it made, and its activations,
/// with whether each still lives. All stand in the order in which they came.
#[derive(Drop)]
pub(crate) struct Locals {
    scopes: ListStack<Value>,
    blocks: Vec<SharedBlock>,
    living: Vec<bool>,
}

impl Model for Locals {
    ghost use Rattle.gem_object.specs.contracts.value.Value as value;
    ghost use Rattle.tree_meaning.specs.contracts.place.Mark as mark;
    ghost use Rattle.tree_meaning.specs.object_programs.Local.{Local};
    ghost use Rattle.tree_meaning.specs.Place.{MadeBlock as TreeBlock};
    ghost use Rattle.st_locals.specs.Codes.{local_code};

    ghost Value = { Local TreeBlock };

    ghost coded = { local_code value.the_row.coded mark.the_row.coded };

    ghost view = { λ locals. record {
      scopes = locals.scopes;
      blocks = locals.blocks.items;
      living = locals.living.items;
    } };
}

impl Activations for Locals {
    ghost local = { λ locals. locals };

    fn end_living(&mut self, number: u64) {
        let number = number as usize;
        if number < self.living.len() {
            self.living[number] = false;
        }
    }

    fn give_back(&mut self, mark: Mark) {
        if self.blocks.len() as u64 == mark.blocks {
            self.scopes.truncate(mark.scopes as usize);
            self.living.truncate(mark.living as usize);
        }
    }
}

impl Locals {
    /// Nothing: before anything is evaluated. It takes no memory.
    pub(crate) fn new(alloc: Global) -> Locals
        ensures { result ≡ nothing TreeBlock }
    {
        Locals {
            scopes: ListStack::new(alloc),
            blocks: Vec::new(alloc),
            living: Vec::new(alloc),
        }
    }

    /// How much stands now: what a scope or an activation that begins now keeps.
    pub(crate) fn mark(&self) -> Mark
        ensures { result ≡ mark self.now }
    {
        Mark {
            scopes: self.scopes.len() as u64,
            blocks: self.blocks.len() as u64,
            living: self.living.len() as u64,
        }
    }

    /// Opens a scope with these variables, and so many more that are nil. Where it finds no memory
    /// all is as before.
    #[inline(always)]
    pub(crate) fn open_scope(&mut self, values: Vec<Value>, nils: usize) -> Result<(), AllocError>
        ensures opened { OnOk result
            (self.new ≡ open_scope (values.items ++ replicate nils Nil) self.old) }
        ensures unchanged { OnErr result (self.new ≡ self.old) }
    {
        open_in(&mut self.scopes, values, nils)
    }

    /// Begins an activation, which lives. The variables of its scope are so many of the uppermost
    /// values of the stack, the uppermost one last, which are taken from there, and so many more
    /// that are nil. Where it finds no memory the variables are as before.
    #[inline(always)]
    pub(crate) fn begin_method(
        &mut self,
        stack: &mut Layers<Value>,
        count: usize,
        temps: usize,
    ) -> Result<(), AllocError>
        requires { count ≤ length stack.old.own }
        ensures begun { OnOk result (self.new
            ≡ begin_method (reverse (take count stack.old.own) ++ replicate temps Nil) self.old) }
        ensures own { OnOk result (stack.new.own ≡ drop count stack.old.own) }
        ensures below { stack.new.below ≡ stack.old.below }
        ensures unchanged { OnErr result (self.new ≡ self.old) }
    {
        self.living.reserve(1)?;
        open_moving(&mut self.scopes, stack, count, temps)?;
        Ok(self.living.push(true)?)
    }

    /// Whether the activation of this number lives. There may be none: then it doesn't.
    pub(crate) fn is_living(&self, number: u64) -> bool
        ensures { result ≡ is_living number self.now }
    {
        let number = number as usize;
        number < self.living.len() && self.living[number]
    }

    /// Opens a scope. Its variables are so many of the uppermost values of the stack, the uppermost
    /// one last, which are taken from there, and so many more that are nil. Where it finds no memory
    /// the variables are as before.
    #[inline(always)]
    pub(crate) fn open_taking(
        &mut self,
        stack: &mut Layers<Value>,
        count: usize,
        temps: usize,
    ) -> Result<(), AllocError>
        requires { count ≤ length stack.old.own }
        ensures opened { OnOk result (self.new
            ≡ open_scope (reverse (take count stack.old.own) ++ replicate temps Nil) self.old) }
        ensures own { OnOk result (stack.new.own ≡ drop count stack.old.own) }
        ensures below { stack.new.below ≡ stack.old.below }
        ensures unchanged { OnErr result (self.new ≡ self.old) }
    {
        open_moving(&mut self.scopes, stack, count, temps)
    }

    /// The value of a variable of the scope of this number, if there is such a variable.
    pub(crate) fn item(&self, scope: u64, index: usize) -> Option<&Value>
        ensures there { IfSome result (λ value.
            value.now ≡ get_or (get_or self.now.scopes scope []) index Nil) }
        ensures none { result ≡ None → get_or (get_or self.now.scopes scope []) index Nil ≡ Nil }
    {
        match self.scopes.get(scope as usize, index) {
            Some(value) => Some(value),
            None => None,
        }
    }

    /// Puts a value into a variable of the scope of this number. Where there is no such variable
    /// nothing changes. It takes no memory.
    #[inline(always)]
    pub(crate) fn set_value(&mut self, scope: u64, index: usize, value: Value)
        ensures { self.new ≡ with_value scope index value self.old }
    {
        self.scopes.set(scope as usize, index, value);
    }

    /// Adds a block; its number. Where it finds no memory all is as before.
    pub(crate) fn add_block(&mut self, alloc: Global, made: CodeBlock) -> Result<u64, AllocError>
        ensures number { IfOk result (λ number. number ≡ length self.old.blocks) }
        ensures added { OnOk result
            (self.new ≡ record self.old { blocks = self.old.blocks ++ made ∷ [] }) }
        ensures unchanged { OnErr result (self.new ≡ self.old) }
    {
        let number = self.blocks.len() as u64;
        self.blocks.push(SharedBlock::of(alloc, made)?)?;
        Ok(number)
    }

    /// The block of this number, if there is one.
    pub(crate) fn block(&self, number: u64) -> Option<&SharedBlock>
        ensures { option_copied result ≡ slice_get self.now.blocks number }
    {
        self.blocks.get(number as usize)
    }
}

/// A scope more, of these variables and so many that are nil. Where it finds no memory all is as
/// before.
#[inline(always)]
fn open_in(scopes: &mut ListStack<Value>, values: Vec<Value>, nils: usize) -> Result<(), AllocError>
    ensures opened { OnOk result
        (scopes.new ≡ scopes.old ++ (values.items ++ replicate nils Nil) ∷ []) }
    ensures unchanged { OnErr result (scopes.new ≡ scopes.old) }
{
    let count = scopes.len();
    scopes.open_with(values)?;
    fill(scopes, count, nils)
}

/// The same of so many of the uppermost values of the stack, the uppermost one last, which are taken
/// from there. Where it finds no memory the scopes are as before.
#[inline(always)]
fn open_moving(
    scopes: &mut ListStack<Value>,
    stack: &mut Layers<Value>,
    taken: usize,
    nils: usize,
) -> Result<(), AllocError>
    requires { taken ≤ length stack.old.own }
    ensures opened { OnOk result (scopes.new
        ≡ scopes.old ++ (reverse (take taken stack.old.own) ++ replicate nils Nil) ∷ []) }
    ensures own { OnOk result (stack.new.own ≡ drop taken stack.old.own) }
    ensures below { stack.new.below ≡ stack.old.below }
    ensures unchanged { OnErr result (scopes.new ≡ scopes.old) }
{
    let count = scopes.len();
    stack.move_upper(scopes, taken)?;
    fill(scopes, count, nils)
}

/// So many variables more, which are nil, come into the innermost scope, that of this number. Where
/// it finds no memory the scope is closed.
#[inline(always)]
fn fill(scopes: &mut ListStack<Value>, count: usize, nils: usize) -> Result<(), AllocError>
    requires { count < length scopes.old }
    ensures added { OnOk result (scopes.new ≡ more_nils nils scopes.old) }
    ensures closed { OnErr result (scopes.new ≡ take count scopes.old) }
{
    let filled = add_nils(scopes, nils);
    if filled.is_err() {
        scopes.truncate(count);
    }
    filled
}

/// So many variables more, which are nil, come into the innermost scope. Where it finds no memory
/// some of them came.
#[inline(always)]
fn add_nils(scopes: &mut ListStack<Value>, nils: usize) -> Result<(), AllocError>
    requires { 0 < length scopes.old }
    ensures added { OnOk result (scopes.new ≡ more_nils nils scopes.old) }
    ensures rest { (count : ℕ) → count < length scopes.old
        → take count scopes.new ≡ take count scopes.old }
{
    for _nil in 0..nils {
        scopes.push(Value::Nil)?;
    }
    Ok(())
}
