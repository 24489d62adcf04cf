// Places among three pairs, and what ascends.
use sorted_pairs::{ascend, place};

#[test]
fn places(rt: HostRuntime) {
    let pairs = [('b', 1), ('d', 2), ('f', 3)];
    assert!(rt; ascend(&pairs));
    let cases: [(char, Result<usize, usize>); 7] = [
        ('b', Ok(0)),
        ('d', Ok(1)),
        ('f', Ok(2)),
        ('a', Err(0)),
        ('c', Err(1)),
        ('e', Err(2)),
        ('g', Err(3)),
    ];
    for (key, want) in &cases {
        assert!(rt; place(&pairs, key) == *want, "of {key}");
    }
    let none: [(char, u32); 0] = [];
    assert!(rt; ascend(&none));
    assert_eq!(rt; place(&none, &'a'), Err(0));
}

#[test]
fn ascending(rt: HostRuntime) {
    assert!(rt; ascend(&[('b', 1)]));
    assert!(rt; ascend(&[('a', 2), ('b', 1), ('c', 1)]));
    assert!(rt; !ascend(&[('b', 1), ('a', 2), ('c', 3)]));
    assert!(rt; !ascend(&[('a', 1), ('c', 2), ('b', 3)]));
    assert!(rt; !ascend(&[('a', 1), ('a', 2), ('b', 3)]));
    assert!(rt; !ascend(&[('a', 1), ('b', 2), ('b', 2)]));
}
