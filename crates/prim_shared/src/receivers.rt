//! Receivers that are read or written, by the kinds for which the rules are.
ghost use Rattle.std.specs.Prelude.{◌≡◌, is_some};
ghost use Rattle.prim_rules.specs.Receivers.{read_receiver, write_receiver};
ghost use Rattle.running_objects.specs.Seen.{object_at};
ghost use Rattle.prim_shared.specs.Kinds.{held_in};
ghost use Rattle.prim_shared.specs.Held.{held_of};
ghost use Rattle.prim_parts.specs.Reached.{Receives};

use gem_object::{Body, Oid, Value};
use object_programs::Fault;
use prim_parts::reference_in;
use running_objects::{Objects, Stop};

/// The kind of receivers for which a rule is.
#[derive(Clone, Copy)]
pub enum ReceiverKind {
    /// An object with slots.
    Plain,
    /// A dictionary.
    Dictionary,
    /// A Segment.
    Segment,
    /// A UserProfile.
    User,
    /// An RcCounter.
    Counter,
    /// An RcIdentityBag.
    Bag,
    /// An RcKeyValueDictionary.
    SharedDictionary,
    /// An RcQueue.
    Queue,
}

// Whether a body is of a kind.
fn is_of_kind(kind: ReceiverKind, body: &Body) -> bool
    ensures { result ≡ is_some (held_in kind body.now) }
{
    match kind {
        ReceiverKind::Plain => matches!(body, Body::Plain(_)),
        ReceiverKind::Dictionary => matches!(body, Body::Dict(_)),
        ReceiverKind::Segment => matches!(body, Body::Segment(_)),
        ReceiverKind::User => matches!(body, Body::User(_)),
        ReceiverKind::Counter => matches!(body, Body::Counter(_)),
        ReceiverKind::Bag => matches!(body, Body::Bag(_)),
        ReceiverKind::SharedDictionary => matches!(body, Body::RcDict(_)),
        ReceiverKind::Queue => matches!(body, Body::Queue(_)),
    }
}

// Whether the object of this name is of a kind.
fn has_kind<O: Objects>(objects: &O, kind: ReceiverKind, name: Oid) -> bool
    ensures { result ≡ is_some (held_of (held_in kind) (object_at name (O.seen objects.now))) }
{
    match objects.object(name) {
        Some(object) => is_of_kind(kind, &object.body),
        None => false,
    }
}

/// The name of a receiver, which is read: E5 where it isn't of the kind, E10 where the user may not
/// read it.
pub fn read_receiver<O: Objects>(
    objects: &mut O,
    kind: ReceiverKind,
    receiver: &Value,
) -> Result<Oid, Stop>
    ensures { Receives (held_in kind) (read_receiver (held_in kind) receiver.now)
        (O.seen objects.old) result (O.seen objects.new) }
{
    let name = reference_in(receiver)?;
    objects.read(name)?;
    if !has_kind(objects, kind, name) {
        return Err(Stop::Fails(Fault::ArgumentKind));
    }
    Ok(name)
}

/// The name of a receiver, which is written: E5 where it isn't of the kind, E11 where the user may
/// not write it.
pub fn write_receiver<O: Objects>(
    objects: &mut O,
    kind: ReceiverKind,
    receiver: &Value,
) -> Result<Oid, Stop>
    ensures { Receives (held_in kind) (write_receiver (held_in kind) receiver.now)
        (O.seen objects.old) result (O.seen objects.new) }
{
    let name = reference_in(receiver)?;
    objects.write(name)?;
    if !has_kind(objects, kind, name) {
        return Err(Stop::Fails(Fault::ArgumentKind));
    }
    Ok(name)
}
