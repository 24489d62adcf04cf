//! Texts that are made, compared and copied.
use std::alloc::{AllocError, Global};
use std::cmp::Ordering;
use std::test::Fail;
use texts::{Text, are_name_bytes, is_name, is_name_byte, is_user_name, starts_name};

// Whether two texts are ordered so, and a copy of the first has its bytes.
fn is_order(alloc: Global, left: &[u8], right: &[u8], order: Ordering) -> Result<bool, AllocError> {
    let a = Text::copy_of(alloc, left)?;
    let b = Text::copy_of(alloc, right)?;
    let is_ordered = a.cmp(&b) == order && (a == b) == (order == Ordering::Equal);
    Ok(is_ordered && a.clone()?.bytes() == left)
}

#[test]
fn orders_texts_by_their_bytes(rt: HostRuntime) -> Result<(), Fail> {
    let alloc = rt.alloc();
    assert!(rt; is_order(alloc, b"", b"", Ordering::Equal)?);
    assert!(rt; is_order(alloc, b"", b"a", Ordering::Less)?);
    assert!(rt; is_order(alloc, b"at:", b"at:put:", Ordering::Less)?);
    assert!(rt; is_order(alloc, b"b", b"at:", Ordering::Greater)?);
    assert!(rt; is_order(alloc, b"Box", b"box", Ordering::Less)?);
    assert!(rt; is_order(alloc, b"max:", b"max:", Ordering::Equal)?);
    Ok(())
}

#[test]
fn tells_the_bytes_of_names(rt: HostRuntime) -> Result<(), Fail> {
    assert!(rt; starts_name(b'_') && starts_name(b'z') && !starts_name(b'0'));
    assert!(rt; is_name_byte(b'0') && !is_name_byte(b':'));
    assert!(rt; are_name_bytes(b"T_1") && !are_name_bytes(b"at:"));
    Ok(())
}

#[test]
fn tells_names(rt: HostRuntime) -> Result<(), Fail> {
    assert!(rt;
        is_name(b"_a1") && is_name(b"X") && !is_name(b"") && !is_name(b"1a") && !is_name(b"a:")
    );
    assert!(rt; is_user_name(b"DataCurator") && is_user_name(b"u1"));
    assert!(rt; !is_user_name(b"") && !is_user_name(b"1u") && !is_user_name(b"a_b"));
    assert!(rt; is_user_name(&[b'u'; 64]) && !is_user_name(&[b'u'; 65]));
    Ok(())
}
