//! The bytes of objects and effects.
ghost use Rattle.std.specs.Prelude.{◌≡◌, ◌++◌, IfOk, OnOk};
ghost use Rattle.body_codec.specs.Spelled.{spelled_class, spelled_superclass, spelled_segment, spelled_user, spelled_fields, body_tag, spelled_body, spelled_object, spelled_effect};

use crate::items::{put_dictionary, put_long, put_queue, put_right, put_short};
use crate::numbers::{put_bytes, put_i64, put_text, put_u8, put_u64};
use gem_object::{Body, ClassBody, Object, Oid, Rights, Text, UserBody};
use gem_record::Effect;
use std::alloc::{AllocError, Global};

/// The bytes in which an object is stored, where it has a spelling. The number of the commit that
/// changed it isn't among them.
///
/// The contract says the bytes of any object: a count or length that doesn't fit in its field is
/// written by its low bits, and a block by no byte, so such bytes can't be read back.
pub fn write_object(alloc: Global, object: &Object) -> Result<Vec<u8>, AllocError>
    ensures { IfOk result (λ bytes. bytes.items ≡ spelled_object object.now) }
{
    let mut bytes = Vec::new(alloc);
    put_object(object, &mut bytes)?;
    Ok(bytes)
}

/// The bytes in which an effect is stored, where its objects have spellings. The number of the
/// commit isn't among them. What `write_object` says of other objects holds here too.
pub fn write_effect(alloc: Global, effect: &Effect) -> Result<Vec<u8>, AllocError>
    ensures { IfOk result (λ bytes. bytes.items ≡ spelled_effect effect.now) }
{
    let mut bytes = Vec::new(alloc);
    put_long(effect.objects.as_slice(), &mut bytes)?;
    Ok(bytes)
}

// Adds the bytes of an object.
pub(crate) fn put_object(object: &Object, out: &mut Vec<u8>) -> Result<(), AllocError>
    ensures { OnOk result (out.new.items ≡ out.old.items ++ spelled_object object.now) }
{
    put_u64(object.class.number(), out)?;
    put_u64(object.segment.number(), out)?;
    put_body(&object.body, out)
}

// Adds the tag and the fields of a body.
fn put_body(body: &Body, out: &mut Vec<u8>) -> Result<(), AllocError>
    ensures { OnOk result (out.new.items ≡ out.old.items ++ spelled_body body.now) }
{
    put_u8(body_tag(body), out)?;
    put_fields(body, out)
}

fn body_tag(body: &Body) -> u8
    ensures { result ≡ body_tag body.now }
{
    match body {
        Body::Plain(_) => 0,
        Body::Bytes(_) => 1,
        Body::Dict(_) => 2,
        Body::Class(_) => 3,
        Body::Segment(_) => 4,
        Body::User(_) => 5,
        Body::Counter(_) => 6,
        Body::Bag(_) => 7,
        Body::RcDict(_) => 8,
        Body::Queue(_) => 9,
    }
}

fn put_fields(body: &Body, out: &mut Vec<u8>) -> Result<(), AllocError>
    ensures { OnOk result (out.new.items ≡ out.old.items ++ spelled_fields body.now) }
{
    match body {
        Body::Plain(values) => put_long(values.as_slice(), out),
        Body::Bytes(bytes) => put_bytes(bytes.as_slice(), out),
        Body::Dict(pairs) => put_dictionary(pairs, out),
        Body::Class(class) => put_class(class, out),
        Body::Segment(rights) => put_segment(rights, out),
        Body::User(user) => put_user(user, out),
        Body::Counter(counter) => put_i64(counter.value, out),
        Body::Bag(bag) => put_long(bag.pairs(), out),
        Body::RcDict(dict) => put_long(dict.pairs(), out),
        Body::Queue(queue) => put_queue(queue, out),
    }
}

fn put_class(class: &ClassBody, out: &mut Vec<u8>) -> Result<(), AllocError>
    ensures { OnOk result (out.new.items ≡ out.old.items ++ spelled_class class.now) }
{
    put_text(class.name.bytes(), out)?;
    put_superclass(class.superclass, out)?;
    put_u8(class.kind.number(), out)?;
    put_short(class.names.as_slice(), out)?;
    put_short(class.methods.as_slice(), out)?;
    put_short(class.class_methods.as_slice(), out)
}

// Adds the number of the superclass's name, or 0.
fn put_superclass(superclass: Option<Oid>, out: &mut Vec<u8>) -> Result<(), AllocError>
    ensures { OnOk result (out.new.items ≡ out.old.items ++ spelled_superclass superclass) }
{
    match superclass {
        Some(oid) => put_u64(oid.number(), out),
        None => put_u64(0, out),
    }
}

fn put_segment(rights: &Rights<Text>, out: &mut Vec<u8>) -> Result<(), AllocError>
    ensures { OnOk result (out.new.items ≡ out.old.items ++ spelled_segment rights.now) }
{
    put_u64(rights.owner, out)?;
    put_right(rights.owner_right, out)?;
    put_short(rights.groups.as_slice(), out)?;
    put_right(rights.world_right, out)
}

fn put_user(user: &UserBody, out: &mut Vec<u8>) -> Result<(), AllocError>
    ensures { OnOk result (out.new.items ≡ out.old.items ++ spelled_user user.now) }
{
    put_text(user.name.bytes(), out)?;
    put_short(user.groups.as_slice(), out)?;
    put_u64(user.default_segment.number(), out)?;
    put_u64(user.globals.number(), out)
}
