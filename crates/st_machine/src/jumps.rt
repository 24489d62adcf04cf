//! Jumps.
ghost use Rattle.std.specs.Prelude.{◌≡◌, ◌<◌, ◌^◌, true, suc, IfOk};
ghost use Rattle.gem_language.specs.Sends.{outside};
ghost use Rattle.st_compiler.specs.Instruction.{Jump, JumpBack};
ghost use Rattle.st_machine.specs.Led.{TurnedBy, TurnsForward};
ghost use Rattle.st_machine.specs.Parts.{table_of};

use crate::flow::Turn;
use crate::layers::Layers;
use crate::locals::Locals;
use crate::outline::Outline;
use crate::places::{ahead_of, behind};
use crate::shared_code::SharedCode;
use gem_object::Value;
use running_objects::Objects;
use std::alloc::AllocError;
use tree_meaning::Mark;

/// Passes so many instructions.
pub(crate) fn jump<O: Objects>(
    objects: &O,
    locals: &Locals,
    stack: &Layers<Value>,
    chain: &Layers<Mark>,
    frame: &Outline,
    code: &SharedCode,
    ahead: usize,
    place: usize,
    depth: u32,
) -> Result<Turn, AllocError>
    ensures led { TurnedBy (outside depth) (table_of code.now) (Jump ahead) place stack.now.own
        chain.now.own frame.now (O.seen objects.now) locals.now result stack.now.own chain.now.own
        (O.seen objects.now) locals.now }
    ensures forward { IfOk result (TurnsForward place) }
{
    Ok(Turn::Goes(ahead_of(place, ahead)?))
}

/// Goes back by so many.
pub(crate) fn jump_back<O: Objects>(
    objects: &O,
    locals: &Locals,
    stack: &Layers<Value>,
    chain: &Layers<Mark>,
    frame: &Outline,
    code: &SharedCode,
    back: usize,
    place: usize,
    depth: u32,
) -> Result<Turn, AllocError>
    ensures led { TurnedBy (outside depth) (table_of code.now) (JumpBack back) place stack.now.own
        chain.now.own frame.now (O.seen objects.now) locals.now result stack.now.own chain.now.own
        (O.seen objects.now) locals.now }
    ensures forward { IfOk result (TurnsForward place) }
{
    Ok(Turn::Jumps(behind(place, back)))
}

/// Counts a jump back; false where the number of them has no next one. It is never inlined: so the
/// count stays in memory, and the registers of the machine's loop are left for what each turn needs.
#[inline(never)]
pub(crate) fn count_jump(jumps: &mut u64) -> bool
    ensures counted { result ≡ true → jumps.new ≡ suc jumps.old }
    ensures bounded { result ≡ true → suc jumps.old < 2 ^ 64 }
{
    match jumps.checked_add(1) {
        Some(more) => {
            *jumps = more;
            true
        }
        None => false,
    }
}
