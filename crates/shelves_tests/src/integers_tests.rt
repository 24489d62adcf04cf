//! The ends of the integers.
use std::test::Fail;
use texts::is_small_integer;

#[test]
fn tells_the_integers(rt: HostRuntime) -> Result<(), Fail> {
    assert!(rt; is_small_integer(-1_152_921_504_606_846_976));
    assert!(rt; !is_small_integer(-1_152_921_504_606_846_977));
    assert!(rt; is_small_integer(1_152_921_504_606_846_975));
    assert!(rt; !is_small_integer(1_152_921_504_606_846_976));
    Ok(())
}
