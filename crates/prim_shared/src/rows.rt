//! The call of the primitives of this crate by their numbers.
ghost use Rattle.std.specs.Prelude.{◌≤◌};
ghost use Rattle.prim_rules.specs.Rules.{rule_of};
ghost use Rattle.prim_parts.specs.Does.{Does};

use crate::new_users::row_79;
use crate::segments::{Holder, row_71, set_right};
use crate::shared::{
    row_84, row_85, row_86, row_87, row_89, row_90, row_91, row_92, row_94, row_95,
};
use crate::told::{Fact, Listing, list, tell};
use crate::transcript::{row_81, row_82};
use crate::users::{row_76, row_77, row_80};
use gem_object::Value;
use prim_rules::PrimitiveAnswer;
use running_objects::{Objects, Stop};
use std::alloc::Global;

/// Does what the primitive of this number does, from 68 to 96, for a receiver and arguments, the
/// first one first.
///
/// # Errors
///
/// `Fails` with the error by which the primitive ends. `NoMemory` where memory ran out; then only
/// what every run keeps is known.
pub fn call<O: Objects>(
    alloc: Global,
    objects: &mut O,
    number: u8,
    receiver: &Value,
    arguments: &[Value],
) -> Result<PrimitiveAnswer, Stop>
    requires above { 68 ≤ number }
    requires below { number ≤ 96 }
    ensures { Does (rule_of number receiver.now arguments.now) (O.seen objects.old) result
        (O.seen objects.new) }
{
    if number <= 80 {
        return call_fixed(alloc, objects, number, receiver, arguments);
    }
    call_shared(alloc, objects, number, receiver, arguments)
}

// The primitives of Segments and UserProfiles.
fn call_fixed<O: Objects>(
    alloc: Global,
    objects: &mut O,
    number: u8,
    receiver: &Value,
    arguments: &[Value],
) -> Result<PrimitiveAnswer, Stop>
    requires above { 68 ≤ number }
    requires below { number ≤ 80 }
    ensures { Does (rule_of number receiver.now arguments.now) (O.seen objects.old) result
        (O.seen objects.new) }
{
    match number {
        68 => tell(alloc, objects, Fact::Owner, receiver, arguments),
        69 => set_right(alloc, objects, Holder::Owner, receiver, arguments),
        70 => set_right(alloc, objects, Holder::World, receiver, arguments),
        71 => row_71(alloc, objects, receiver, arguments),
        72 => tell(alloc, objects, Fact::OwnerRight, receiver, arguments),
        73 => tell(alloc, objects, Fact::WorldRight, receiver, arguments),
        74 => tell(alloc, objects, Fact::UserName, receiver, arguments),
        75 => list(alloc, objects, Listing::Groups, receiver, arguments),
        76 => row_76(alloc, objects, receiver, arguments),
        77 => row_77(alloc, objects, receiver, arguments),
        78 => tell(alloc, objects, Fact::DefaultSegment, receiver, arguments),
        79 => row_79(alloc, objects, receiver, arguments),
        80 => row_80(objects, receiver, arguments),
        _ => unreachable!(),
    }
}

// The primitives of the transcript and of reduced-conflict objects.
fn call_shared<O: Objects>(
    alloc: Global,
    objects: &mut O,
    number: u8,
    receiver: &Value,
    arguments: &[Value],
) -> Result<PrimitiveAnswer, Stop>
    requires above { 81 ≤ number }
    requires below { number ≤ 96 }
    ensures { Does (rule_of number receiver.now arguments.now) (O.seen objects.old) result
        (O.seen objects.new) }
{
    match number {
        81 => row_81(alloc, objects, receiver, arguments),
        82 => row_82(objects, receiver, arguments),
        83 => tell(alloc, objects, Fact::Count, receiver, arguments),
        84 => row_84(objects, receiver, arguments),
        85 => row_85(objects, receiver, arguments),
        86 => row_86(objects, receiver, arguments),
        87 => row_87(objects, receiver, arguments),
        88 => list(alloc, objects, Listing::Items, receiver, arguments),
        89 => row_89(objects, receiver, arguments),
        90 => row_90(objects, receiver, arguments),
        91 => row_91(objects, receiver, arguments),
        92 => row_92(objects, receiver, arguments),
        93 => list(alloc, objects, Listing::Keys, receiver, arguments),
        94 => row_94(objects, receiver, arguments),
        95 => row_95(objects, receiver, arguments),
        96 => list(alloc, objects, Listing::Waiting, receiver, arguments),
        _ => unreachable!(),
    }
}
