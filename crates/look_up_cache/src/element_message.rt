//! What is remembered with an object of the messages of elements: that it answers them by
//! primitives, as a sequence does where no user put other methods in their places.
ghost use Rattle.std.specs.Prelude.{◌≡◌, true, IfSome};
ghost use Rattle.running_objects.specs.Seen.{Seen};
ghost use Rattle.look_up_cache.specs.Table.{AllHeld};
ghost use Rattle.look_up_cache.specs.Answering.{FindsPrimitive};
ghost use Rattle.look_up_cache.specs.ElementMessages.{element_selector, element_number, element_count};
ghost use Rattle.look_up_cache.specs.Memory.{start_at, IsMet, IsFound, Holds};

use crate::finding::{put_receiver, receiver_of, same_start};
use crate::memory::{Beginning, Entry, Memory, Receiver};
use crate::operator::found_primitive;
use crate::table::held_at;
use gem_object::{Text, Value};

/// A message that the kernel's sequences answer by a primitive of elements, with the number of that.
#[derive(Clone, Copy, Debug, PartialEq, Eq)]
pub enum ElementMessage {
    At = 34,
    AtPut = 35,
}

impl ElementMessage {
    /// The message with this selector. It takes no memory.
    #[inline(always)]
    pub fn of(selector: &Text) -> Option<ElementMessage>
        ensures { IfSome result (λ message. element_selector message ≡ selector.now) }
    {
        match selector.bytes() {
            [b'a', b't', b':'] => Some(ElementMessage::At),
            [b'a', b't', b':', b'p', b'u', b't', b':'] => Some(ElementMessage::AtPut),
            _ => None,
        }
    }

    /// The number of its primitive.
    #[inline(always)]
    pub fn number(self) -> u8
        ensures { result ≡ element_number self }
    {
        self as u8
    }

    /// How many arguments it has.
    #[inline(always)]
    pub fn count(self) -> usize
        ensures { result ≡ element_count self }
    {
        match self {
            ElementMessage::At => 1,
            ElementMessage::AtPut => 2,
        }
    }
}

/// Where a look-up of this message for an object that is remembered found its primitive, remembers
/// with the object that it answers the message so. It takes no memory.
pub(crate) fn remember_element<T>(
    memory: &mut Memory<T>,
    receiver: &Value,
    message: ElementMessage,
    at: usize,
)
    ensures holds { (seen : Seen) → Holds memory.old seen → Holds memory.new seen }
    ensures methods { memory.new.methods.items ≡ memory.old.methods.items }
{
    if let Some(known) = answering_at(memory, receiver, message, at) {
        let _ = put_receiver(&mut memory.receivers, &known);
    }
}

// What is known of an object that the look-up at a place tells to answer this message by its
// primitive.
fn answering_at<T>(
    memory: &Memory<T>,
    receiver: &Value,
    message: ElementMessage,
    at: usize,
) -> Option<Receiver>
    ensures { (seen : Seen) → Holds memory.now seen
        → IfSome result (λ receiver. IsMet seen receiver) }
{
    let name = receiver.reference()?;
    let known = receiver_of(&memory.receivers, name)?;
    let entry = held_at(&memory.methods, at)?;
    if finds_elements(entry, &known.start, message) {
        Some(known.answering(message))
    } else {
        None
    }
}

// Whether a look-up is one of this message that begins there, and found its primitive.
fn finds_elements<T>(entry: &Entry<T>, start: &Beginning, message: ElementMessage) -> bool
    ensures { result ≡ true → (seen : Seen) → IsFound seen entry.now → FindsPrimitive
        (start_at start.now) (element_selector message) (element_number message)
        seen.setting seen.world }
{
    let Some(asked) = ElementMessage::of(&entry.selector) else {
        return false;
    };
    asked == message && same_start(&entry.start, start) && found_primitive(entry, message.number())
}
