// Objects and an effect read back from their bytes, and a fault of each rule.
use body_codec::{BodyFault, BodyRule, read_effect, read_object, write_object};
use gem_object::{Body, Object, Oid};
use std::alloc::Global;
use std::test::Fail;

// The class 0:19 and the segment 0:30.
const HEAD: &[u8] = b"\x13\0\0\0\0\0\0\0\x1e\0\0\0\0\0\0\0";

// The bytes of an object: those of the head, and then these.
fn object_bytes(alloc: Global, body: &[u8]) -> Result<Vec<u8>, Fail> {
    let mut bytes = HEAD.to_vec(alloc)?;
    bytes.extend_from_slice(body)?;
    Ok(bytes)
}

// Whether an object with these bytes of its body is read, to their end, and written so again.
fn is_read_back(alloc: Global, body: &[u8]) -> Result<bool, Fail> {
    let bytes = object_bytes(alloc, body)?;
    match read_object(alloc, &bytes) {
        Ok((object, size)) => is_written(alloc, &object, size, &bytes),
        Err(_) => Ok(false),
    }
}

fn is_written(alloc: Global, object: &Object, size: usize, bytes: &[u8]) -> Result<bool, Fail> {
    let written = write_object(alloc, object)?;
    Ok(size == bytes.len() && written.as_slice() == bytes)
}

// Whether the bytes of an object are refused at this offset, by this rule.
fn is_refused(alloc: Global, bytes: &[u8], at: u64, rule: BodyRule) -> bool {
    match read_object(alloc, bytes) {
        Ok(_) => false,
        Err(fault) => fault == BodyFault::Bad { at, rule },
    }
}

// The same of the bytes of a body, behind the head.
fn is_refused_in(alloc: Global, body: &[u8], at: u64, rule: BodyRule) -> Result<bool, Fail> {
    let bytes = object_bytes(alloc, body)?;
    Ok(is_refused(alloc, &bytes, at, rule))
}

#[test]
fn slots_read_back(rt: HostRuntime) -> Result<(), Fail> {
    let alloc = rt.alloc();
    let plain = b"\x00\x05\0\0\0\x00\x03\x03\0\0\0\0\0\0\0\x04a\x05\x03\0abc\
        \x06\x02\0\0\x01\0\0\0\0";
    assert!(rt; is_read_back(alloc, plain)?);
    let dict = b"\x02\x02\0\0\0\x05\x01\0a\x03\x09\0\0\0\0\0\0\0\x05\x02\0bc\x02";
    assert!(rt; is_read_back(alloc, dict)?);
    assert!(rt; is_read_back(alloc, b"\x01\x03\0\0\0Box")?);
    Ok(())
}

#[test]
fn administration_read_back(rt: HostRuntime) -> Result<(), Fail> {
    let alloc = rt.alloc();
    let class = b"\x03\x03\0Box\x01\0\0\0\0\0\0\0\x01\x02\0\x01\0a\x02\0bc\x01\0\x04\0\
        half\0\x0a\0\0\0half ^a //\x01\0\x03\0new\x01\x06";
    assert!(rt; is_read_back(alloc, class)?);
    let segment = b"\x04\x1f\0\0\0\0\0\0\0\x02\x02\0\x07\0Readers\x01\x07\0Writers\x02\x01";
    assert!(rt; is_read_back(alloc, segment)?);
    let user = b"\x05\x0b\0DataCurator\x01\0\x05\0Staff\x1e\0\0\0\0\0\0\0\x22\0\0\0\0\0\0\0";
    assert!(rt; is_read_back(alloc, user)?);
    Ok(())
}

#[test]
fn merged_bodies_read_back(rt: HostRuntime) -> Result<(), Fail> {
    let alloc = rt.alloc();
    assert!(rt; is_read_back(alloc, b"\x06\xfe\xff\xff\xff\xff\xff\xff\xff")?);
    let bag = b"\x07\x02\0\0\0\x03\x03\0\0\0\0\0\0\0\x02\0\0\0\0\0\0\0\
        \x05\x01\0a\x01\0\0\0\0\0\0\0";
    assert!(rt; is_read_back(alloc, bag)?);
    assert!(rt; is_read_back(alloc, b"\x08\x01\0\0\0\x05\x01\0a\x00")?);
    let queue = b"\x09\x02\0\0\0\0\0\0\0\x02\0\0\0\x02\x03\x05\0\0\0\0\0\0\0";
    assert!(rt; is_read_back(alloc, queue)?);
    Ok(())
}

// The effect of commit 3 that sets the counter 1:3 to 20, and a byte behind it.
const EFFECT: &[u8] = b"\x01\0\0\0\x03\0\0\x01\0\0\0\0\x13\0\0\0\0\0\0\0\x1e\0\0\0\0\0\0\0\
    \x06\x14\0\0\0\0\0\0\0!";

// Whether the object is the counter of 20 that commit 3 changed.
fn is_counter(object: &Object) -> bool {
    match &object.body {
        Body::Counter(counter) => {
            object.class == Oid::from_parts(0, 19)
                && object.segment == Oid::from_parts(0, 30)
                && object.changed == 3
                && counter.value == 20
        }
        _ => false,
    }
}

// Whether the objects are that counter alone, at the name 1:3.
fn is_example(objects: &[(Oid, Object)]) -> bool {
    match objects.split_first() {
        Some((changed, rest)) => {
            rest.is_empty() && changed.0 == Oid::from_parts(1, 3) && is_counter(&changed.1)
        }
        None => false,
    }
}

#[test]
fn effect_read_back(rt: HostRuntime) -> Result<(), Fail> {
    let is_read = match read_effect(rt.alloc(), EFFECT, 3) {
        Ok((effect, size)) => {
            effect.number == 3 && size == 37 && is_example(effect.objects.as_slice())
        }
        Err(_) => false,
    };
    assert!(rt; is_read);
    let empty = match read_effect(rt.alloc(), b"\0\0\0\0", 3) {
        Ok(_) => false,
        Err(fault) => {
            fault
                == BodyFault::Bad {
                    at: 0,
                    rule: BodyRule::Range,
                }
        }
    };
    assert!(rt; empty);
    Ok(())
}

#[test]
fn lengths_and_kinds(rt: HostRuntime) -> Result<(), Fail> {
    let alloc = rt.alloc();
    assert!(rt; is_refused(alloc, b"\x13\0", 0, BodyRule::Length));
    assert!(rt; is_refused(alloc, HEAD, 16, BodyRule::Length));
    assert!(rt; is_refused_in(alloc, b"\x00\x01\0\0\0", 21, BodyRule::Length)?);
    assert!(rt; is_refused_in(alloc, b"\x0a", 16, BodyRule::Kind)?);
    // a key that is nil, and one that is a reference
    assert!(rt; is_refused_in(alloc, b"\x02\x01\0\0\0\x00\x00", 21, BodyRule::Kind)?);
    assert!(rt; is_refused_in(alloc, b"\x08\x01\0\0\0\x06\x01", 21, BodyRule::Kind)?);
    Ok(())
}

#[test]
fn ranges_orders_and_bytes(rt: HostRuntime) -> Result<(), Fail> {
    let alloc = rt.alloc();
    assert!(rt; is_refused(alloc, b"\0\0\0\0\0\0\x01\0", 0, BodyRule::Range));
    // an item of a bag that doesn't occur
    let bag = b"\x07\x01\0\0\0\x01\0\0\0\0\0\0\0\0";
    assert!(rt; is_refused_in(alloc, bag, 22, BodyRule::Range)?);
    // a key below the one before it, and a key that stands twice
    assert!(rt; is_refused_in(alloc, b"\x08\x02\0\0\0\x02\0\x01\0", 23, BodyRule::Order)?);
    assert!(rt; is_refused_in(alloc, b"\x02\x02\0\0\0\x01\0\x01\0", 23, BodyRule::Order)?);
    assert!(rt; is_refused_in(alloc, b"\x01\x01\0\0\0\x80", 21, BodyRule::Byte)?);
    Ok(())
}
