//! The rules on what an object refers to, on methods, and on the places of classes.
ghost use Rattle.std.specs.Prelude.{◌≡◌, ◌<◌, cond, is_some, IsSome, IsTrue, All, IfOk, Some, nat_eq, length};
ghost use Rattle.std.specs.Bool.{Decides};
ghost use Rattle.std.specs.List.{list_any};
ghost use Rattle.op_table.specs.Prims.{primitive_of};
ghost use Rattle.gem_image.specs.Image.{objects_in, contents_of};
ghost use Rattle.gem_sound.specs.Kernel.{kernel_class, may_stand, stands_where, classes_of, class_sides_of};
ghost use Rattle.gem_sound.specs.Sound.{HasReferences, HasMethods, HasPlace, HasPlaceByRow, HasInheritedKind, IsKernelClass, IsMethodOf, IsSourceOf, has_named_slots};
ghost use Rattle.image_check.specs.Chains.{AreCounts};
ghost use Rattle.image_check.specs.Kernel.{class_of};

use crate::chains::{Counts, class_at, count_names};
use crate::kernel::{KernelClass, kernel_class};
use gem_image::Image;
use gem_object::{ClassBody, Kind, Method, MethodCode, Object, Oid, Text};
use gem_sound::NAMES_LIMIT;
use gem_sound::names::{
    ARRAY_CLASS, BLOCK_CLASS, CHARACTER_CLASS, CLASS_CLASS, IDENTITY_DICTIONARY_CLASS,
    OBJECT_CLASS, ORDERED_COLLECTION_CLASS, RC_COUNTER_CLASS, RC_IDENTITY_BAG_CLASS,
    RC_KEY_VALUE_DICTIONARY_CLASS, RC_QUEUE_CLASS, SEGMENT_CLASS, SMALL_INTEGER_CLASS,
    STRING_CLASS, SYMBOL_CLASS, SYSTEM_CLASS, TRANSCRIPT_STREAM_CLASS, USER_PROFILE_CLASS,
};
use op_table::{Kind as Receiver, PrimRow, prim_row};
use st_parser::{ParseFault, parse_method};
use std::alloc::{AllocError, Global};

/// A source has fewer bytes than this.
const SOURCE_LIMIT: usize = 1 << 24;

fn is_there(image: &Image, name: u64) -> bool
    ensures { result ≡ is_some (objects_in image.now name) }
{
    image.invariant();
    match Oid::of(name) {
        Some(oid) => image.look(oid).is_some(),
        None => false,
    }
}

fn are_there(image: &Image, names: &[u64]) -> bool
    ensures { Decides result (All (λ name. IsSome (objects_in image.now name)) names.now) }
{
    for name in names {
        if !is_there(image, *name) {
            return false;
        }
    }
    true
}

/// Whether the name isn't 0, and what the object refers to is there.
pub(crate) fn has_references(
    alloc: Global,
    image: &Image,
    number: Oid,
    object: &Object,
) -> Result<bool, AllocError>
    ensures { IfOk result (λ kept.
        Decides kept (HasReferences (objects_in image.now) number (contents_of object.now))) }
{
    if number.number() == 0 {
        return Ok(false);
    }
    let mut names = Vec::new(alloc);
    object.push_references(&mut names)?;
    Ok(are_there(image, &names))
}

// The counters of the classes in which a primitive for these receivers stands, on this side.
fn stands_in(receiver: Receiver, class_side: bool) -> &'static [u32]
    ensures { result.now ≡ cond class_side (class_sides_of receiver) (classes_of receiver) }
{
    match (receiver, class_side) {
        (Receiver::UserClass, true) => &[USER_PROFILE_CLASS],
        (Receiver::SystemClass, true) => &[SYSTEM_CLASS],
        (_, true) | (Receiver::UserClass | Receiver::SystemClass, false) => &[],
        (Receiver::Any, false) => &[OBJECT_CLASS],
        (Receiver::Integer, false) => &[SMALL_INTEGER_CLASS],
        (Receiver::Character, false) => &[CHARACTER_CLASS],
        (Receiver::Block, false) => &[BLOCK_CLASS],
        (Receiver::Sequence, false) => &[ARRAY_CLASS, ORDERED_COLLECTION_CLASS],
        (Receiver::Ordered, false) => &[ORDERED_COLLECTION_CLASS],
        (Receiver::Chars, false) => &[STRING_CLASS, SYMBOL_CLASS],
        (Receiver::Str, false) => &[STRING_CLASS],
        (Receiver::Class, false) => &[CLASS_CLASS],
        (Receiver::Dictionary, false) => &[IDENTITY_DICTIONARY_CLASS],
        (Receiver::Segment, false) => &[SEGMENT_CLASS],
        (Receiver::User, false) => &[USER_PROFILE_CLASS],
        (Receiver::Transcript, false) => &[TRANSCRIPT_STREAM_CLASS],
        (Receiver::Counter, false) => &[RC_COUNTER_CLASS],
        (Receiver::Bag, false) => &[RC_IDENTITY_BAG_CLASS],
        (Receiver::RcDict, false) => &[RC_KEY_VALUE_DICTIONARY_CLASS],
        (Receiver::Queue, false) => &[RC_QUEUE_CLASS],
    }
}

fn is_among(class: u64, counters: &[u32]) -> bool
    ensures { result ≡ list_any (nat_eq class) counters.now }
{
    counters.iter().any(|counter| class == u64::from(*counter))
}

fn may_stand(class: u64, class_side: bool, selector: &Text, number: u8) -> bool
    ensures { result ≡ may_stand class class_side selector.now number }
{
    match prim_row(number) {
        Some(row) => stands_where(class, class_side, selector, &row),
        None => false,
    }
}

fn stands_where(class: u64, class_side: bool, selector: &Text, row: &PrimRow) -> bool
    ensures { result
        ≡ stands_where class class_side selector.now (Some (primitive_of row.now)) }
{
    row.selector.as_bytes() == selector.bytes()
        && is_among(class, stands_in(row.receiver, class_side))
}

fn is_source(alloc: Global, selector: &Text, source: &Text) -> Result<bool, AllocError>
    ensures { IfOk result (λ kept. Decides kept (IsSourceOf selector.now source.now)) }
{
    if source.bytes().len() >= SOURCE_LIMIT {
        return Ok(false);
    }
    match parse_method(alloc, source.bytes()) {
        Ok(tree) => Ok(has_selector(&tree.selector, selector)),
        Err(ParseFault::Rule { .. }) => Ok(false),
        Err(ParseFault::NoMemory) => Err(AllocError),
    }
}

fn has_selector(found: &Option<Text>, selector: &Text) -> bool
    ensures { Decides result (found.now ≡ Some selector.now) }
{
    match found {
        Some(found) => found == selector,
        None => false,
    }
}

fn is_method(
    alloc: Global,
    class: u64,
    class_side: bool,
    method: &Method,
) -> Result<bool, AllocError>
    ensures { IfOk result (λ kept. Decides kept (IsMethodOf class class_side method.now)) }
{
    match &method.code {
        MethodCode::Source(source) => is_source(alloc, &method.selector, source),
        MethodCode::Primitive(number) => {
            Ok(may_stand(class, class_side, &method.selector, *number))
        }
    }
}

fn are_methods(
    alloc: Global,
    class: u64,
    class_side: bool,
    methods: &[Method],
) -> Result<bool, AllocError>
    ensures { IfOk result (λ kept. Decides kept (All (IsMethodOf class class_side) methods.now)) }
{
    for method in methods {
        if !is_method(alloc, class, class_side, method)? {
            return Ok(false);
        }
    }
    Ok(true)
}

/// Whether the methods of the class are sources of their selectors, and primitives that belong
/// there.
pub(crate) fn has_methods(alloc: Global, number: Oid, class: &ClassBody) -> Result<bool, AllocError>
    ensures { IfOk result (λ kept. Decides kept (HasMethods number class.now)) }
{
    let number = number.number();
    if !are_methods(alloc, number, false, class.methods.as_slice())? {
        return Ok(false);
    }
    are_methods(alloc, number, true, class.class_methods.as_slice())
}

fn is_kernel_class(row: KernelClass, class: &ClassBody) -> bool
    ensures { Decides result (IsKernelClass (class_of row) class.now) }
{
    let superclass = match (row.superclass, class.superclass) {
        (Some(counter), Some(superclass)) => u64::from(counter) == superclass.number(),
        (None, None) => true,
        _ => false,
    };
    superclass && row.kind == class.kind && class.names.is_empty()
}

fn has_inherited_kind(image: &Image, class: &ClassBody) -> bool
    ensures { Decides result
        (HasInheritedKind (objects_in image.now) class.now class.now.superclass) }
{
    let Some(superclass) = class.superclass else {
        return false;
    };
    match class_at(image, superclass) {
        Some(above) => above.kind == class.kind,
        None => false,
    }
}

fn has_place_by_row(image: &Image, number: u64, class: &ClassBody) -> bool
    ensures { Decides result
        (HasPlaceByRow (objects_in image.now) class.now (kernel_class number)) }
{
    match kernel_class(number) {
        Some(row) => is_kernel_class(row, class),
        None => has_inherited_kind(image, class),
    }
}

/// Whether the instances of a class of this kind have named slots.
pub fn has_named_slots(kind: Kind) -> bool
    ensures { result ≡ has_named_slots kind }
{
    kind == Kind::Plain || kind == Kind::Indexed
}

// Whether the class has no names of its own, or instances with named slots.
fn may_have_names(class: &ClassBody) -> bool
    ensures { Decides result
        (0 < length class.now.names → IsTrue (has_named_slots class.now.kind)) }
{
    class.names.is_empty() || has_named_slots(class.kind)
}

/// Whether the class has a place among the classes that it may have. Its counts are kept.
pub(crate) fn has_place(
    alloc: Global,
    image: &Image,
    counts: &mut Counts,
    number: Oid,
    class: &ClassBody,
) -> Result<bool, AllocError>
    requires { AreCounts (objects_in image.now) counts.old.entries }
    ensures place { IfOk result (λ kept.
        Decides kept (HasPlace (objects_in image.now) number class.now)) }
    ensures kept { AreCounts (objects_in image.now) counts.new.entries }
{
    let Some(count) = count_names(alloc, image, counts, number)? else {
        return Ok(false);
    };
    if count > NAMES_LIMIT {
        return Ok(false);
    }
    if !has_place_by_row(image, number.number(), class) {
        return Ok(false);
    }
    Ok(may_have_names(class))
}
