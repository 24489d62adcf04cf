//! Variables, made blocks and activations.
ghost use Rattle.std.specs.Prelude.{◌≡◌, ◌≤◌, ◌^◌, ◌++◌, ◌∷◌, [], length, get_or, set, replicate, slice_get, option_copied, IfOk, OnOk, OnErr};
ghost use Rattle.gem_object.specs.declared.value.Value.TheVariants.{Nil, Block};
ghost use Rattle.st_tree.specs.Falls.{size_closure};
ghost use Rattle.tree_meaning.specs.object_programs.Local.{nothing};
ghost use Rattle.tree_meaning.specs.Place.{MadeBlock as TreeBlock};
ghost use Rattle.tree_meaning.specs.Bodies.{params_count};
ghost use Rattle.tree_meaning.specs.Scopes.{mark, scope_number, open_scope, begin_method, is_living, value_at, with_value};

use crate::activations::Activations;
use crate::frame::Frame;
use crate::made_block::MadeBlock;
use crate::place::Place;
use crate::scope::Variables;
use gem_object::{BlockRef, Value};
use st_tree::BlockTree;
use std::alloc::{AllocError, Global};
use std::marker::Model;
use tree_meaning::Mark;

/// The variables of a running chunk by their scopes, the blocks that it made, and its activations,
/// with whether each still lives. All stand in the order in which they came.
#[derive(Drop)]
pub struct Locals {
    scopes: Vec<Variables>,
    blocks: Vec<MadeBlock>,
    living: Vec<bool>,
}

impl Model for Locals {
    ghost use Rattle.gem_object.specs.contracts.value.Value as value;
    ghost use Rattle.tree_meaning.specs.contracts.place.Mark as mark;
    ghost use Rattle.tree_meaning.specs.object_programs.Local.{Local};
    ghost use Rattle.tree_meaning.specs.Place.{MadeBlock as TreeBlock};
    ghost use Rattle.st_locals.specs.Codes.{local_code};

    ghost Value = { Local TreeBlock };

    ghost coded = { local_code value.the_row.coded mark.the_row.coded };

    ghost view = { λ locals. record {
      scopes = locals.scopes.items;
      blocks = locals.blocks.items;
      living = locals.living.items;
    } };
}

impl Activations for Locals {
    ghost local = { λ locals. locals };

    fn end_living(&mut self, number: u64) {
        let number = number as usize;
        if number < self.living.len() {
            self.living[number] = false;
        }
    }

    fn give_back(&mut self, mark: Mark) {
        if self.blocks.len() as u64 == mark.blocks {
            self.scopes.truncate(mark.scopes as usize);
            self.living.truncate(mark.living as usize);
        }
    }
}

impl Locals {
    /// Nothing: before anything is evaluated. It takes no memory.
    pub fn new(alloc: Global) -> Locals
        ensures { result ≡ nothing TreeBlock }
    {
        Locals {
            scopes: Vec::new(alloc),
            blocks: Vec::new(alloc),
            living: Vec::new(alloc),
        }
    }

    /// Where the memory of all this comes from.
    pub(crate) fn allocator(&self) -> Global {
        *self.scopes.allocator()
    }

    /// How much stands now: what a scope or an activation that begins now keeps.
    pub fn mark(&self) -> Mark
        ensures { result ≡ mark self.now }
    {
        Mark {
            scopes: self.scopes.len() as u64,
            blocks: self.blocks.len() as u64,
            living: self.living.len() as u64,
        }
    }

    /// Opens a scope with these variables. Where it finds no memory all is as before.
    pub fn open_scope(&mut self, values: Vec<Value>) -> Result<(), AllocError>
        ensures opened { OnOk result (self.new ≡ open_scope values.items self.old) }
        ensures unchanged { OnErr result (self.new ≡ self.old) }
    {
        Ok(self.scopes.push(Variables { values })?)
    }

    /// Begins an activation, which lives, and opens its scope with these variables. Where it finds
    /// no memory all is as before.
    pub fn begin_method(&mut self, values: Vec<Value>) -> Result<(), AllocError>
        ensures begun { OnOk result (self.new ≡ begin_method values.items self.old) }
        ensures unchanged { OnErr result (self.new ≡ self.old) }
    {
        self.living.reserve(1)?;
        self.scopes.push(Variables { values })?;
        Ok(self.living.push(true)?)
    }

    /// Whether the activation of this number lives. There may be none: then it doesn't.
    pub fn is_living(&self, number: u64) -> bool
        ensures { result ≡ is_living number self.now }
    {
        let number = number as usize;
        number < self.living.len() && self.living[number]
    }

    /// A copy of a variable's value: the depth counts the scopes between, from 0, and the index the
    /// variables of the scope. Nil where there is no such variable.
    pub fn value_at(&self, frame: &Frame, depth: usize, index: usize) -> Result<Value, AllocError>
        ensures { IfOk result (λ value. value ≡ value_at frame.now depth index self.now) }
    {
        value_in(&self.scopes, frame.scope_number(depth), index)
    }

    /// Puts a value into a variable. Where there is no such variable nothing changes. It takes no
    /// memory.
    pub fn set_value(&mut self, frame: &Frame, depth: usize, index: usize, value: Value)
        ensures { self.new ≡ with_value (scope_number frame.now depth) index value self.old }
    {
        put_value(&mut self.scopes, frame.scope_number(depth), index, value);
    }

    /// Makes a block of a tree that stands at a place, in a frame: it gets a copy of all three, and
    /// the next number. Err where memory runs out, or the block has 2^32 parameters or more; then
    /// all is as before.
    pub fn make_block(
        &mut self,
        tree: &BlockTree,
        place: &Place,
        frame: &Frame,
    ) -> Result<Value, AllocError>
        requires { size_closure tree.now ≤ 2 ^ 40 }
        ensures answer { IfOk result (λ answer. answer ≡ Block (record {
          number = length self.old.blocks;
          params = params_count tree.now;
        })) }
        ensures made { OnOk result (self.new ≡ record self.old {
          blocks = self.old.blocks
              ++ record { tree = tree.now; place = place.now; frame = frame.now } ∷ [];
        }) }
        ensures unchanged { OnErr result (self.new ≡ self.old) }
    {
        let params = count_params(tree.params.len())?;
        let number = self.blocks.len() as u64;
        let made = MadeBlock::of(tree.clone()?, place.clone()?, frame.clone()?);
        self.blocks.push(made)?;
        Ok(Value::Block(BlockRef { number, params }))
    }

    /// The block of this number, if there is one.
    pub fn block(&self, number: u64) -> Option<&MadeBlock>
        ensures { option_copied result ≡ slice_get self.now.blocks number }
    {
        self.blocks.get(number as usize)
    }
}

/// A copy of the value at an index of the scope of a number, and nil where there is none.
fn value_in(scopes: &Vec<Variables>, number: u64, index: usize) -> Result<Value, AllocError>
    ensures { IfOk result (λ value. value ≡ get_or (get_or scopes.now.items number []) index Nil) }
{
    let number = number as usize;
    if number < scopes.len() {
        scopes[number].value(index)
    } else {
        Ok(Value::Nil)
    }
}

/// Puts a value at an index of the scope of a number, where there is one.
fn put_value(scopes: &mut Vec<Variables>, number: u64, index: usize, value: Value)
    ensures { scopes.new.items ≡ set scopes.old.items number
        (set (get_or scopes.old.items number []) index value) }
{
    let number = number as usize;
    if number < scopes.len() {
        scopes[number].put(index, value);
    }
}

/// How many parameters a block has. Err from 2^32 on.
pub fn count_params(count: usize) -> Result<u32, AllocError>
    ensures { IfOk result (λ params. params ≡ count) }
{
    if count < 1 << 32 {
        Ok(count as u32)
    } else {
        Err(AllocError)
    }
}

/// So many values that are nil.
pub fn nil_values(alloc: Global, count: usize) -> Result<Vec<Value>, AllocError>
    ensures { IfOk result (λ values. values.items ≡ replicate count Nil) }
{
    with_nils(Vec::with_capacity(alloc, count)?, count)
}

/// The arguments of a method or block, and then so many temporaries, which are nil.
pub fn with_nils(arguments: Vec<Value>, temps: usize) -> Result<Vec<Value>, AllocError>
    ensures { IfOk result (λ values. values.items ≡ arguments.items ++ replicate temps Nil) }
{
    let mut values = arguments;
    for _temp in 0..temps {
        values.push(Value::Nil)?;
    }
    Ok(values)
}
