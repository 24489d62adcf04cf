//! What is remembered of writes. The right to write lasts as long as classes, segments, users and
//! places do, what was touched stays touched, and what was written stays among the changes, where a
//! write puts an object as it stands: so a write of one that was written changes nothing.
ghost use Rattle.std.specs.Prelude.{◌≡◌, true, false};
ghost use Rattle.gem_object.specs.Kinds.{is_shared};
ghost use Rattle.running_objects.specs.gem_image.Image.{Contents};
ghost use Rattle.running_objects.specs.gem_world.Access.{a_write};
ghost use Rattle.running_objects.specs.Acted.{Reached};
ghost use Rattle.running_objects.specs.Seen.{Seen, object_at};
ghost use Rattle.look_up_cache.specs.Table.{AllHeld};
ghost use Rattle.look_up_cache.specs.Memory.{IsMet, Holds, Where};

use crate::finding::{put_receiver, receiver_of};
use crate::memory::{Memory, Receiver};
use gem_object::Oid;
use running_objects::Objects;

/// Whether the object of this name is known to be written without a change of anything.
pub(crate) fn is_written(receivers: &Vec<Option<Receiver>>, name: Oid) -> bool
    ensures { (seen : Seen) → AllHeld (IsMet seen) receivers.now.items → result ≡ true
        → Reached a_write name seen seen }
{
    match receiver_of(receivers, name) {
        Some(receiver) => receiver.written,
        None => false,
    }
}

/// Remembers an object that was written, where what is remembered holds.
pub(crate) fn remember_write<O: Objects, T>(
    memory: &mut Memory<T>,
    objects: &O,
    held: bool,
    name: Oid,
)
    ensures holds { (before : Seen) → Reached a_write name before (O.seen objects.now)
        → Where held (Holds memory.old (O.seen objects.now))
        → Where held (Holds memory.new (O.seen objects.now)) }
    ensures methods { memory.new.methods.items ≡ memory.old.methods.items }
{
    if held {
        remember_object_written(&mut memory.receivers, objects, name);
    }
}

// Remembers it, where it is known from a read.
fn remember_object_written<O: Objects>(
    receivers: &mut Vec<Option<Receiver>>,
    objects: &O,
    name: Oid,
)
    ensures { (before : Seen) → Reached a_write name before (O.seen objects.now)
        → AllHeld (IsMet (O.seen objects.now)) receivers.old.items
        → AllHeld (IsMet (O.seen objects.now)) receivers.new.items }
{
    let Some(known) = receiver_of(receivers, name) else {
        return;
    };
    let receiver = Receiver {
        start: known.start.copy(),
        written: true,
        ..*known
    };
    if is_ordinary(objects, name) {
        let _ = put_receiver(receivers, &receiver);
    }
}

// Whether there is an object of this name that a write puts among the changes.
fn is_ordinary<O: Objects>(objects: &O, name: Oid) -> bool
    ensures { result ≡ true → (object : Contents)
        → object_at name (O.seen objects.now) ≡ Some object → is_shared object.body ≡ false }
{
    match objects.object(name) {
        Some(object) => !object.body.is_shared(),
        None => false,
    }
}
