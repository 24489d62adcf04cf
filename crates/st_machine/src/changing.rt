//! Messages that a primitive answers which changes an object, where it is known that it ends well.
ghost use Rattle.std.specs.Prelude.{◌≡◌, ◌<◌, length, IfSome, Some};
ghost use Rattle.gem_language.specs.Sends.{outside};
ghost use Rattle.running_objects.specs.Seen.{Keeps};
ghost use Rattle.look_up_cache.specs.Table.{held_at};
ghost use Rattle.st_compiler.specs.Instruction.{Send};
ghost use Rattle.st_machine.specs.Changed.{IfChanged};
ghost use Rattle.st_machine.specs.Led.{TurnedBy};
ghost use Rattle.st_machine.specs.Parts.{framed, table_of};
ghost use Rattle.st_machine.specs.Targets.{target_for, AnswersAt};
ghost use Rattle.st_machine.specs.declared.changed.Changed.TheVariants.{Unknown};
ghost use Rattle.st_machine.specs.declared.target.Target.TheVariants.{Primitive};

use crate::changed::Changed;
use crate::elements::keep_element;
use crate::finds::FindsMethods;
use crate::known::put_over;
use crate::layers::Layers;
use crate::locals::Locals;
use crate::outline::Outline;
use crate::shared_code::SharedCode;
use gem_object::{MethodCode, Text, Value};
use tree_meaning::Mark;

/// Sends a message that a primitive answers which changes an object, where what answers it stands at
/// this place, and it is known that it ends well unless something is lacking for it.
#[inline(never)]
pub(crate) fn send_changing<O: FindsMethods>(
    objects: &mut O,
    locals: &Locals,
    stack: &mut Layers<Value>,
    chain: &Layers<Mark>,
    frame: &Outline,
    code: &SharedCode,
    selector: &Text,
    count: usize,
    at: usize,
    place: usize,
    depth: u32,
) -> Changed
    requires height { count < length stack.old.own }
    requires place { AnswersAt (Send selector.now count) stack.old.own
        (framed chain.now.own frame.now) (O.seen objects.old) locals.now (O.founds objects.old)
        (Some at) }
    ensures keeps { Keeps (O.seen objects.old) (O.seen objects.new) }
    ensures led { IfChanged result place (λ turned. TurnedBy (outside depth) (table_of code.now)
        (Send selector.now count) place stack.old.own chain.now.own frame.now (O.seen objects.old)
        locals.now turned stack.new.own chain.now.own (O.seen objects.new) locals.now) }
    ensures unchanged { result ≡ Unknown → objects.new ≡ objects.old }
    ensures own { result ≡ Unknown → stack.new.own ≡ stack.old.own }
    ensures below { stack.new.below ≡ stack.old.below }
{
    let Some(number) = primitive_at(objects, at) else {
        return Changed::Unknown;
    };
    keep_element(objects, stack, number, at, count);
    match objects.do_known(number, stack.at_depth(count), stack.upper(count)) {
        Some(Ok(answer)) => {
            put_over(stack, count, answer);
            Changed::Stands
        }
        Some(Err(lack)) => Changed::lacking(lack),
        None => Changed::Unknown,
    }
}

/// The number of the primitive that stands at a place.
fn primitive_at<O: FindsMethods>(objects: &O, at: usize) -> Option<u8>
    ensures { IfSome result (λ number.
        target_for (held_at (O.founds objects.now) at) ≡ Primitive number) }
{
    let found = objects.found(at)?;
    match &found.code {
        MethodCode::Primitive(number) => Some(*number),
        MethodCode::Source(_) => None,
    }
}
