// The bytes of an object of each body, and those of an effect.
use crate::gem_object_tests::{bag, class, dict, key_dict, plain, queue, segment, user};
use body_codec::{write_effect, write_object};
use gem_object::{Body, ByteString, Counter, Object, Oid};
use gem_record::{ByName, Effect};
use sorted_pairs::ascend;
use std::alloc::Global;
use std::test::Fail;

// The class 0:19 and the segment 0:30.
const HEAD: &[u8] = b"\x13\0\0\0\0\0\0\0\x1e\0\0\0\0\0\0\0";

fn object(body: Body) -> Object {
    Object {
        class: Oid::from_parts(0, 19),
        segment: Oid::from_parts(0, 30),
        changed: 3,
        body,
    }
}

// Whether the object of this body has these bytes: those of the head, then the body's tag and its
// fields.
fn is_written(alloc: Global, body: Body, bytes: &[u8]) -> Result<bool, Fail> {
    let written = write_object(alloc, &object(body))?;
    Ok(written.starts_with(HEAD) && &written[HEAD.len()..] == bytes)
}

fn is_some_written(alloc: Global, body: Option<Body>, bytes: &[u8]) -> Result<bool, Fail> {
    match body {
        Some(body) => is_written(alloc, body, bytes),
        None => Ok(false),
    }
}

#[test]
fn bytes_of_slots(rt: HostRuntime) -> Result<(), Fail> {
    let alloc = rt.alloc();
    let bytes = b"\x00\x05\0\0\0\x00\x03\x03\0\0\0\0\0\0\0\x04a\x05\x03\0abc\
        \x06\x02\0\0\x01\0\0\0\0";
    assert!(rt; is_written(alloc, plain(alloc)?, bytes)?);
    let bytes = b"\x02\x02\0\0\0\x05\x01\0a\x03\x09\0\0\0\0\0\0\0\x05\x02\0bc\x02";
    assert!(rt; is_written(alloc, dict(alloc)?, bytes)?);
    let name = ByteString::of(b"Box".as_slice().to_vec(alloc)?);
    assert!(rt; is_written(alloc, Body::Bytes(name), b"\x01\x03\0\0\0Box")?);
    Ok(())
}

#[test]
fn bytes_of_administration(rt: HostRuntime) -> Result<(), Fail> {
    let alloc = rt.alloc();
    let bytes = b"\x03\x03\0Box\x01\0\0\0\0\0\0\0\x01\x02\0\x01\0a\x02\0bc\x01\0\x04\0\
        half\0\x0a\0\0\0half ^a //\x01\0\x03\0new\x01\x06";
    assert!(rt; is_written(alloc, class(alloc)?, bytes)?);
    let bytes = b"\x04\x1f\0\0\0\0\0\0\0\x02\x02\0\x07\0Readers\x01\x07\0Writers\x02\x01";
    assert!(rt; is_written(alloc, segment(alloc)?, bytes)?);
    let bytes = b"\x05\x0b\0DataCurator\x01\0\x05\0Staff\x1e\0\0\0\0\0\0\0\x22\0\0\0\0\0\0\0";
    assert!(rt; is_written(alloc, user(alloc)?, bytes)?);
    Ok(())
}

#[test]
fn bytes_of_merged_bodies(rt: HostRuntime) -> Result<(), Fail> {
    let alloc = rt.alloc();
    let counter = Body::Counter(Counter { value: -2 });
    let bytes = b"\x06\xfe\xff\xff\xff\xff\xff\xff\xff";
    assert!(rt; is_written(alloc, counter, bytes)?);
    let bytes = b"\x07\x02\0\0\0\x03\x03\0\0\0\0\0\0\0\x02\0\0\0\0\0\0\0\
        \x05\x01\0a\x01\0\0\0\0\0\0\0";
    assert!(rt; is_some_written(alloc, bag(alloc, 2)?, bytes)?);
    let bytes = b"\x08\x01\0\0\0\x05\x01\0a\x00";
    assert!(rt; is_some_written(alloc, key_dict(alloc)?, bytes)?);
    let bytes = b"\x09\x02\0\0\0\0\0\0\0\x02\0\0\0\x02\x03\x05\0\0\0\0\0\0\0";
    assert!(rt; is_written(alloc, queue(alloc)?, bytes)?);
    Ok(())
}

#[test]
fn bytes_of_an_effect(rt: HostRuntime) -> Result<(), Fail> {
    let alloc = rt.alloc();
    let counter = object(Body::Counter(Counter { value: 20 }));
    let objects = vec![in alloc; (Oid::from_parts(1, 3), counter)]?;
    assert!(rt; ascend(&objects));
    let effect = Effect {
        number: 3,
        objects: ByName::of(objects),
    };
    let bytes = write_effect(alloc, &effect)?;
    assert_eq!(rt;
        bytes.as_slice(),
        b"\x01\0\0\0\x03\0\0\x01\0\0\0\0\x13\0\0\0\0\0\0\0\x1e\0\0\0\0\0\0\0\
            \x06\x14\0\0\0\0\0\0\0"
            .as_slice()
    );
    Ok(())
}
