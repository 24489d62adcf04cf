//! The names of the kernel's objects: their serial, and the counter of each.
ghost use Rattle.std.specs.Prelude.{◌≡◌, ◌<◌, ◌^◌, nat_eq};

use gem_object::Oid;

/// The serial in the names of the kernel's objects.
pub const KERNEL_SERIAL: u32 = 0;

/// The class Object.
pub const OBJECT_CLASS: u32 = 1;

/// The class Class.
pub const CLASS_CLASS: u32 = 2;

/// The class UndefinedObject.
pub const UNDEFINED_OBJECT_CLASS: u32 = 3;

/// The class Boolean.
pub const BOOLEAN_CLASS: u32 = 4;

/// The class True.
pub const TRUE_CLASS: u32 = 5;

/// The class False.
pub const FALSE_CLASS: u32 = 6;

/// The class Magnitude.
pub const MAGNITUDE_CLASS: u32 = 7;

/// The class Character.
pub const CHARACTER_CLASS: u32 = 8;

/// The class SmallInteger.
pub const SMALL_INTEGER_CLASS: u32 = 9;

/// The class Block.
pub const BLOCK_CLASS: u32 = 10;

/// The class Collection.
pub const COLLECTION_CLASS: u32 = 11;

/// The class SequenceableCollection.
pub const SEQUENCEABLE_COLLECTION_CLASS: u32 = 12;

/// The class Array.
pub const ARRAY_CLASS: u32 = 13;

/// The class OrderedCollection.
pub const ORDERED_COLLECTION_CLASS: u32 = 14;

/// The class String.
pub const STRING_CLASS: u32 = 15;

/// The class Symbol.
pub const SYMBOL_CLASS: u32 = 16;

/// The class IdentityDictionary.
pub const IDENTITY_DICTIONARY_CLASS: u32 = 17;

/// The class SymbolDictionary.
pub const SYMBOL_DICTIONARY_CLASS: u32 = 18;

/// The class RcCounter.
pub const RC_COUNTER_CLASS: u32 = 19;

/// The class RcIdentityBag.
pub const RC_IDENTITY_BAG_CLASS: u32 = 20;

/// The class RcKeyValueDictionary.
pub const RC_KEY_VALUE_DICTIONARY_CLASS: u32 = 21;

/// The class RcQueue.
pub const RC_QUEUE_CLASS: u32 = 22;

/// The class Segment.
pub const SEGMENT_CLASS: u32 = 23;

/// The class UserProfile.
pub const USER_PROFILE_CLASS: u32 = 24;

/// The class System.
pub const SYSTEM_CLASS: u32 = 25;

/// The class TranscriptStream.
pub const TRANSCRIPT_STREAM_CLASS: u32 = 26;

/// The dictionary Globals.
pub const GLOBALS: u32 = 27;

/// The dictionary AllUsers, which has the users by their names.
pub const ALL_USERS: u32 = 28;

/// The segment SystemSegment.
pub const SYSTEM_SEGMENT: u32 = 29;

/// The segment DataCuratorSegment.
pub const DATA_CURATOR_SEGMENT: u32 = 30;

/// The profile of the user SystemUser.
pub const SYSTEM_USER: u32 = 31;

/// The profile of the user DataCurator.
pub const DATA_CURATOR: u32 = 32;

/// The dictionary of SystemUser's own globals.
pub const SYSTEM_USER_GLOBALS: u32 = 33;

/// The dictionary of DataCurator's own globals.
pub const DATA_CURATOR_GLOBALS: u32 = 34;

/// Transcript.
pub const TRANSCRIPT: u32 = 35;

/// The name of the kernel's object with this counter.
pub fn kernel_name(counter: u32) -> Oid
    requires { counter < 2 ^ 24 }
    ensures { result ≡ counter }
{
    Oid::from_parts(KERNEL_SERIAL, counter)
}

/// Whether this is the name of the kernel's object with this counter.
pub fn is_kernel_name(name: Oid, counter: u32) -> bool
    ensures { result ≡ nat_eq name counter }
{
    name.number() == u64::from(counter)
}
