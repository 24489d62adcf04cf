//! Scopes of blocks that are evaluated in their place.
ghost use Rattle.std.specs.Prelude.{◌≡◌, ◌∷◌, ◌++◌, get_or, reverse, IfOk, OnOk};
ghost use Rattle.gem_language.specs.Sends.{outside};
ghost use Rattle.st_compiler.specs.Instruction.{Enter, Leave};
ghost use Rattle.st_machine.specs.Led.{TurnedBy, TurnsForward};
ghost use Rattle.st_machine.specs.Parts.{table_of};
ghost use Rattle.tree_meaning.specs.Scopes.{no_mark};

use crate::flow::Turn;
use crate::layers::Layers;
use crate::locals::Locals;
use crate::outline::Outline;
use crate::places::next_of;
use crate::shared_code::SharedCode;
use gem_object::Value;
use running_objects::Objects;
use st_locals::Activations;
use std::alloc::{AllocError, Global};
use tree_meaning::Mark;

/// The number of the scope at a depth. 0 where there are not so many.
pub(crate) fn scope_number(chain: &Layers<Mark>, depth: usize) -> u64
    ensures { result ≡ (get_or chain.now.own depth no_mark).scopes }
{
    match chain.item(depth) {
        Some(mark) => mark.scopes,
        None => 0,
    }
}

/// Puts these scopes, the innermost one last, and this one inside them.
pub(crate) fn put_scopes(
    chain: &mut Layers<Mark>,
    scopes: &[Mark],
    mark: Mark,
) -> Result<(), AllocError>
    ensures put { OnOk result (chain.new.own ≡ mark ∷ (reverse scopes.now ++ chain.old.own)) }
    ensures below { chain.new.below ≡ chain.old.below }
{
    for scope in scopes {
        chain.push(*scope)?;
    }
    chain.push(mark)
}

/// Opens a scope of so many variables.
pub(crate) fn enter<O: Objects>(
    alloc: Global,
    objects: &O,
    locals: &mut Locals,
    stack: &Layers<Value>,
    chain: &mut Layers<Mark>,
    frame: &Outline,
    code: &SharedCode,
    count: usize,
    place: usize,
    depth: u32,
) -> Result<Turn, AllocError>
    ensures led { TurnedBy (outside depth) (table_of code.now) (Enter count) place stack.now.own
        chain.old.own frame.now (O.seen objects.now) locals.old result stack.now.own chain.new.own
        (O.seen objects.now) locals.new }
    ensures forward { IfOk result (TurnsForward place) }
    ensures chain { chain.new.below ≡ chain.old.below }
{
    let mark = locals.mark();
    locals.open_scope(Vec::new(alloc), count)?;
    chain.push(mark)?;
    Ok(Turn::Goes(next_of(place)?))
}

/// Closes the innermost scope.
pub(crate) fn leave<O: Objects>(
    objects: &O,
    locals: &mut Locals,
    stack: &Layers<Value>,
    chain: &mut Layers<Mark>,
    frame: &Outline,
    code: &SharedCode,
    place: usize,
    depth: u32,
) -> Result<Turn, AllocError>
    ensures led { TurnedBy (outside depth) (table_of code.now) Leave place stack.now.own
        chain.old.own frame.now (O.seen objects.now) locals.old result stack.now.own chain.new.own
        (O.seen objects.now) locals.new }
    ensures forward { IfOk result (TurnsForward place) }
    ensures chain { chain.new.below ≡ chain.old.below }
{
    let Some(mark) = chain.pop() else {
        return Ok(Turn::Stuck);
    };
    locals.give_back(mark);
    Ok(Turn::Goes(next_of(place)?))
}
