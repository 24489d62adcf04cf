//! What the kernel's objects are.
ghost use Rattle.std.specs.Prelude.{◌≡◌, map, slice_get, option_map};
ghost use Rattle.gem_sound.specs.Kernel.{kernel_class, kernel_classes, kernel_body, kernel_bodies, numbered, has_kind};
ghost use Rattle.image_check.specs.Kernel.{class_of, body_of};

use gem_object::{Body, Kind};
use gem_sound::names::{
    BOOLEAN_CLASS, COLLECTION_CLASS, IDENTITY_DICTIONARY_CLASS, MAGNITUDE_CLASS, OBJECT_CLASS,
    SEQUENCEABLE_COLLECTION_CLASS,
};

/// A class of the kernel.
#[derive(Clone, Copy, Debug, PartialEq, Eq)]
pub struct KernelClass {
    /// The counter of its superclass.
    pub superclass: Option<u32>,
    /// Which body its instances have.
    pub kind: Kind,
}

/// What body an object of the kernel has.
#[derive(Clone, Copy, Debug, PartialEq, Eq)]
pub enum KernelBody {
    /// A class.
    Class,
    /// A dictionary.
    Dictionary,
    /// A segment.
    Segment,
    /// A user.
    User,
    /// A Plain body without slots.
    NoSlots,
}

macro_rules! classes {
    ($($superclass:expr, $kind:ident;)*) => {
        [$(KernelClass {
            superclass: $superclass,
            kind: Kind::$kind,
        }),*]
    };
}

// The classes, in the order of their numbers.
fn classes() -> &'static [KernelClass]
    ensures { map class_of result.now ≡ kernel_classes }
{
    static CLASSES: [KernelClass; 26] = classes! {
        None, Plain;
        Some(OBJECT_CLASS), None;
        Some(OBJECT_CLASS), None;
        Some(OBJECT_CLASS), None;
        Some(BOOLEAN_CLASS), None;
        Some(BOOLEAN_CLASS), None;
        Some(OBJECT_CLASS), Plain;
        Some(MAGNITUDE_CLASS), None;
        Some(MAGNITUDE_CLASS), None;
        Some(OBJECT_CLASS), None;
        Some(OBJECT_CLASS), Plain;
        Some(COLLECTION_CLASS), Plain;
        Some(SEQUENCEABLE_COLLECTION_CLASS), Indexed;
        Some(SEQUENCEABLE_COLLECTION_CLASS), Indexed;
        Some(SEQUENCEABLE_COLLECTION_CLASS), Bytes;
        Some(SEQUENCEABLE_COLLECTION_CLASS), None;
        Some(COLLECTION_CLASS), Dict;
        Some(IDENTITY_DICTIONARY_CLASS), Dict;
        Some(OBJECT_CLASS), Counter;
        Some(COLLECTION_CLASS), Bag;
        Some(COLLECTION_CLASS), RcDict;
        Some(COLLECTION_CLASS), Queue;
        Some(OBJECT_CLASS), Segment;
        Some(OBJECT_CLASS), User;
        Some(OBJECT_CLASS), None;
        Some(OBJECT_CLASS), None;
    };
    &CLASSES
}

// What bodies the objects have, in the order of their numbers.
fn bodies() -> &'static [KernelBody]
    ensures { map body_of result.now ≡ kernel_bodies }
{
    use KernelBody::{Class, Dictionary, NoSlots, Segment, User};
    static BODIES: [KernelBody; 35] = [
        Class, Class, Class, Class, Class, Class, Class, Class, Class, Class, Class, Class, Class,
        Class, Class, Class, Class, Class, Class, Class, Class, Class, Class, Class, Class, Class,
        Dictionary, Dictionary, Segment, Segment, User, User, Dictionary, Dictionary, NoSlots,
    ];
    &BODIES
}

// The item with this number, where the first has the number 1.
fn numbered<T: Copy>(items: &[T], number: u64) -> Option<T>
    ensures { result ≡ numbered items.now number }
{
    let place = number.checked_sub(1)?;
    item_at(items, place as usize)
}

fn item_at<T: Copy>(items: &[T], place: usize) -> Option<T>
    ensures { result ≡ slice_get items.now place }
{
    items.get(place).copied()
}

/// The kernel's class with this number. None where there is no such class.
pub fn kernel_class(number: u64) -> Option<KernelClass>
    ensures { option_map class_of result ≡ kernel_class number }
{
    numbered(classes(), number)
}

/// What body the kernel's object with this number has. None where there is no such object.
pub fn kernel_body(number: u64) -> Option<KernelBody>
    ensures { option_map body_of result ≡ kernel_body number }
{
    numbered(bodies(), number)
}

/// Whether the body is of this kind.
pub fn has_body(kind: KernelBody, body: &Body) -> bool
    ensures { result ≡ has_kind (body_of kind) body.now }
{
    match (kind, body) {
        (KernelBody::Class, Body::Class(_)) => true,
        (KernelBody::Dictionary, Body::Dict(_)) => true,
        (KernelBody::Segment, Body::Segment(_)) => true,
        (KernelBody::User, Body::User(_)) => true,
        (KernelBody::NoSlots, Body::Plain(values)) => values.is_empty(),
        _ => false,
    }
}
