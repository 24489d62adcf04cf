// Tables of reads, writes and cuts, and the calls that take memory.
use list_stack::ListStack;
use std::alloc::{AllocError, Global};
use std::test::Fail;

// The stack of three lists: `a` and `b`, none, and `c`.
fn three_lists(alloc: Global) -> Result<ListStack<u8>, AllocError> {
    let mut stack = ListStack::new(alloc);
    stack.open_with(b"ab".to_vec(alloc)?)?;
    stack.open()?;
    stack.open_with(b"c".to_vec(alloc)?)?;
    Ok(stack)
}

fn is_item(stack: &ListStack<u8>, list: usize, at: usize, want: Option<u8>) -> bool {
    stack.get(list, at).copied() == want
}

// Whether the list has these items and no more.
fn is_list(stack: &ListStack<u8>, list: usize, items: &[u8]) -> bool {
    for (at, item) in items.iter().enumerate() {
        if !is_item(stack, list, at, Some(*item)) {
            return false;
        }
    }
    is_item(stack, list, items.len(), None)
}

// Whether there are so many lists, and these are the lowest three; none where there are fewer.
fn is_stack(stack: &ListStack<u8>, len: usize, first: &[u8], second: &[u8], third: &[u8]) -> bool {
    let are_lowest = is_list(stack, 0, first) && is_list(stack, 1, second);
    are_lowest && is_list(stack, 2, third) && stack.len() == len
}

fn reads(alloc: Global, list: usize, at: usize, want: Option<u8>) -> Result<bool, AllocError> {
    let stack = three_lists(alloc)?;
    Ok(is_item(&stack, list, at, want))
}

#[test]
fn gets(rt: HostRuntime) -> Result<(), Fail> {
    let alloc = rt.alloc();
    assert!(rt; reads(alloc, 0, 0, Some(b'a'))?);
    assert!(rt; reads(alloc, 0, 1, Some(b'b'))?);
    assert!(rt; reads(alloc, 2, 0, Some(b'c'))?);
    // The items of the next list are none of this one's.
    assert!(rt; reads(alloc, 0, 2, None)?);
    assert!(rt; reads(alloc, 1, 0, None)?);
    assert!(rt; reads(alloc, 2, 1, None)?);
    assert!(rt; reads(alloc, 3, 0, None)?);
    assert!(rt; reads(alloc, 0, usize::MAX, None)?);
    assert!(rt; reads(alloc, usize::MAX, 0, None)?);
    Ok(())
}

// Whether these are the lists once the place is set to `x`.
fn leaves(
    alloc: Global,
    list: usize,
    at: usize,
    first: &[u8],
    third: &[u8],
) -> Result<bool, AllocError> {
    let mut stack = three_lists(alloc)?;
    stack.set(list, at, b'x');
    Ok(is_stack(&stack, 3, first, b"", third))
}

#[test]
fn sets(rt: HostRuntime) -> Result<(), Fail> {
    let alloc = rt.alloc();
    assert!(rt; leaves(alloc, 0, 0, b"xb", b"c")?);
    assert!(rt; leaves(alloc, 0, 1, b"ax", b"c")?);
    assert!(rt; leaves(alloc, 2, 0, b"ab", b"x")?);
    // Where there is no such place nothing changes.
    assert!(rt; leaves(alloc, 0, 2, b"ab", b"c")?);
    assert!(rt; leaves(alloc, 1, 0, b"ab", b"c")?);
    assert!(rt; leaves(alloc, 2, 1, b"ab", b"c")?);
    assert!(rt; leaves(alloc, 3, 0, b"ab", b"c")?);
    Ok(())
}

// Whether so many lists stay, these ones.
fn stay(
    alloc: Global,
    count: usize,
    len: usize,
    first: &[u8],
    third: &[u8],
) -> Result<bool, AllocError> {
    let mut stack = three_lists(alloc)?;
    stack.truncate(count);
    Ok(is_stack(&stack, len, first, b"", third))
}

// Whether a list that is opened after a cut begins without items.
fn opens_anew(alloc: Global, count: usize) -> Result<bool, AllocError> {
    let mut stack = three_lists(alloc)?;
    stack.truncate(count);
    stack.open_with(b"d".to_vec(alloc)?)?;
    Ok(is_list(&stack, count, b"d"))
}

#[test]
fn truncates(rt: HostRuntime) -> Result<(), Fail> {
    let alloc = rt.alloc();
    assert!(rt; stay(alloc, 0, 0, b"", b"")?);
    assert!(rt; stay(alloc, 1, 1, b"ab", b"")?);
    assert!(rt; stay(alloc, 2, 2, b"ab", b"")?);
    assert!(rt; stay(alloc, 3, 3, b"ab", b"c")?);
    assert!(rt; stay(alloc, 4, 3, b"ab", b"c")?);
    assert!(rt; opens_anew(alloc, 0)? && opens_anew(alloc, 1)? && opens_anew(alloc, 2)?);
    Ok(())
}

fn open_pair(stack: &mut ListStack<u8>, first: u8, second: u8) -> Result<(), AllocError> {
    stack.open()?;
    stack.push(first)?;
    stack.push(second)
}

fn two_pairs(alloc: Global) -> Result<ListStack<u8>, AllocError> {
    let mut stack = ListStack::new(alloc);
    open_pair(&mut stack, b'a', b'b')?;
    open_pair(&mut stack, b'c', b'd')?;
    stack.open()?;
    Ok(stack)
}

#[test]
fn pushes_on_the_uppermost(rt: HostRuntime) -> Result<(), Fail> {
    let stack = two_pairs(rt.alloc())?;
    assert!(rt; is_stack(&stack, 3, b"ab", b"cd", b""));
    Ok(())
}

#[test]
fn opens_with_items(rt: HostRuntime) -> Result<(), Fail> {
    let alloc = rt.alloc();
    let mut stack = two_pairs(alloc)?;
    stack.open_with(b"ef".to_vec(alloc)?)?;
    assert_eq!(rt; stack.len(), 4);
    assert!(rt; is_list(&stack, 3, b"ef") && is_list(&stack, 1, b"cd"));
    Ok(())
}

// Opens a list of the last three of these items, and one of none; the item that is left.
fn take_three(stack: &mut ListStack<u8>, items: &mut Vec<u8>) -> Result<Option<u8>, AllocError> {
    if items.len() < 3 {
        return Ok(None);
    }
    stack.open_taking(items, 3)?;
    stack.open_taking(items, 0)?;
    Ok(items.pop())
}

#[test]
fn opens_with_the_last_items(rt: HostRuntime) -> Result<(), Fail> {
    let alloc = rt.alloc();
    let mut stack = two_pairs(alloc)?;
    let mut items = b"efgh".to_vec(alloc)?;
    assert_eq!(rt; take_three(&mut stack, &mut items)?, Some(b'e'));
    assert!(rt; items.is_empty());
    assert_eq!(rt; stack.len(), 5);
    assert!(rt; is_list(&stack, 3, b"fgh") && is_list(&stack, 4, b""));
    assert!(rt; is_list(&stack, 0, b"ab") && is_list(&stack, 1, b"cd"));
    Ok(())
}
