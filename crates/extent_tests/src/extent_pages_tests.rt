// An extent: the bytes of a small one, each byte of its root, its directory and its leaf changed,
// and a chain that returns to its first page.
use crate::fixed::Fixed;
use extent_pages::{Extent, PAGE_SIZE, PageFault, PageRule, open_extent};
use std::alloc::Global;
use std::test::Fail;

// The root in page 1: the number 7, the largest serial 1, one object, the directory in page 3, and
// two pages.
const ROOT: &[u8] = b"\x07\0\0\0\0\0\0\0\x01\0\0\0\x01\0\0\0\0\0\0\0\x03\0\0\0\x02\0\0\0";

// The directory in page 3: no page behind it, 16 bytes, one entry, the leaf 262,144 in page 4.
const DIRECTORY: &[u8] = b"\0\0\0\0\x10\0\0\0\x01\0\0\0\0\0\x04\0\0\0\0\0\x04\0\0\0";

// The leaf in page 4: no page behind it, 34 bytes, one object: the counter 1:3, of the class 0:19
// and in the segment 0:30, that is 20.
const LEAF: &[u8] =
    b"\0\0\0\0\x22\0\0\0\x01\x03\0\0\x01\0\0\0\0\x13\0\0\0\0\0\0\0\x1e\0\0\0\0\0\0\0\
    \x06\x14\0\0\0\0\0\0\0";

const ROOT_AT: usize = 16_384;

const DIRECTORY_AT: usize = 49_152;

const LEAF_AT: usize = 65_536;

// What an extent is opened to.
#[derive(Clone, Copy, Debug, PartialEq, Eq)]
enum Opened {
    // no checkpoint was made
    Nothing,
    // this number, and so many objects at all
    Whole(u64, u64),
    // the offset of a page, and a rule
    Bad(u64, PageRule),
    Other,
}

// A fault in the page of this number.
fn bad(page: u64, rule: PageRule) -> Opened {
    Opened::Bad(page.saturating_mul(PAGE_SIZE), rule)
}

fn count_objects(extent: &Extent) -> u64 {
    let mut count = 0u64;
    for leaf in &extent.leaves {
        count = count.saturating_add(leaf.objects.len() as u64);
    }
    count
}

fn open_bytes(alloc: Global, extent: Vec<u8>) -> Opened {
    let mut disk = Fixed {
        extent,
        failures: 0,
    };
    match open_extent(alloc, &mut disk) {
        Ok(None) => Opened::Nothing,
        Ok(Some(extent)) => Opened::Whole(extent.number, count_objects(&extent)),
        Err(PageFault::NotPages { at, rule }) => Opened::Bad(at, rule),
        Err(_) => Opened::Other,
    }
}

// Puts bytes at an offset.
fn put(bytes: &mut Vec<u8>, at: usize, part: &[u8]) {
    for index in 0..part.len() {
        if let Some(byte) = bytes.get_mut(at.saturating_add(index)) {
            *byte = part[index];
        }
    }
}

fn zeros(alloc: Global, count: usize) -> Result<Vec<u8>, Fail> {
    Ok(vec![in alloc; 0; count]?)
}

// The small extent, with room for so many pages.
pub(crate) fn small(alloc: Global, pages: usize) -> Result<Vec<u8>, Fail> {
    let mut bytes = zeros(alloc, pages.saturating_mul(PAGE_SIZE as usize))?;
    put(&mut bytes, 0, b"\x01\x01");
    put(&mut bytes, ROOT_AT, ROOT);
    put(&mut bytes, DIRECTORY_AT, DIRECTORY);
    put(&mut bytes, LEAF_AT, LEAF);
    Ok(bytes)
}

// What the small extent is opened to after this part was put at an offset.
fn with_part(alloc: Global, at: usize, part: &[u8]) -> Result<Opened, Fail> {
    let mut bytes = small(alloc, 5)?;
    put(&mut bytes, at, part);
    Ok(open_bytes(alloc, bytes))
}

// What it is opened to where it is cut.
fn with_size(alloc: Global, size: usize) -> Result<Opened, Fail> {
    let mut bytes = small(alloc, 5)?;
    bytes.truncate(size);
    Ok(open_bytes(alloc, bytes))
}

#[test]
fn small_extent(rt: HostRuntime) -> Result<(), Fail> {
    assert_eq!(rt; with_part(rt.alloc(), 0, b"")?, Opened::Whole(7, 1));
    Ok(())
}

#[test]
fn gate_and_selector(rt: HostRuntime) -> Result<(), Fail> {
    let alloc = rt.alloc();
    assert_eq!(rt; with_part(alloc, 0, b"\0")?, Opened::Nothing);
    assert_eq!(rt; with_part(alloc, 0, b"\x02")?, Opened::Nothing);
    assert_eq!(rt; with_part(alloc, 1, b"\xff")?, Opened::Whole(7, 1));
    // page 2 has zeros: its directory would begin in page 0
    assert_eq!(rt; with_part(alloc, 1, b"\0")?, bad(0, PageRule::Taken));
    assert_eq!(rt; with_part(alloc, 1, b"\x08")?, bad(0, PageRule::Taken));
    Ok(())
}

#[test]
fn cuts(rt: HostRuntime) -> Result<(), Fail> {
    let alloc = rt.alloc();
    assert_eq!(rt; with_size(alloc, 0)?, Opened::Nothing);
    assert_eq!(rt; with_size(alloc, 1)?, Opened::Nothing);
    assert_eq!(rt; with_size(alloc, 2)?, bad(1, PageRule::Outside));
    assert_eq!(rt; with_size(alloc, 32_767)?, bad(1, PageRule::Outside));
    assert_eq!(rt; with_size(alloc, 32_768)?, bad(3, PageRule::Outside));
    assert_eq!(rt; with_size(alloc, 65_535)?, bad(3, PageRule::Outside));
    assert_eq!(rt; with_size(alloc, 81_919)?, bad(4, PageRule::Outside));
    assert_eq!(rt; with_size(alloc, 81_920)?, Opened::Whole(7, 1));
    Ok(())
}

const WHOLE: Opened = Opened::Whole(7, 1);

// What a byte adds to a number at this place of it.
fn weight(place: usize, byte: u8) -> u64 {
    let mut weight = byte as u64;
    for _ in 0..place {
        weight = weight.saturating_mul(256);
    }
    weight
}

// A number whose byte at a place is 0, with another value there.
fn with_byte(number: u64, place: usize, byte: u8) -> u64 {
    number.saturating_add(weight(place, byte))
}

// What comes of a first page that isn't that of its chain: those in front aren't for chains, and
// there are five.
fn of_page(page: u64) -> Opened {
    if page < 3 {
        bad(page, PageRule::Taken)
    } else {
        bad(page, PageRule::Outside)
    }
}

// What comes of the root with this value of one byte.
fn after_root(place: usize, byte: u8) -> Opened {
    match (place, byte) {
        (0, _) => Opened::Whole(byte as u64, 1),
        (1..=6, _) => Opened::Whole(with_byte(7, place, byte), 1),
        (7, 255) => bad(1, PageRule::Count),
        (7, _) => Opened::Whole(with_byte(7, 7, byte), 1),
        (8 | 12, 1) => WHOLE,
        (8 | 12, _) => bad(1, PageRule::Count),
        (20, _) => of_page(byte as u64),
        (21..=23, 0) => WHOLE,
        (21..=23, _) => of_page(with_byte(3, place.saturating_sub(20), byte)),
        (24, _) => bad(1, PageRule::Count),
        (_, 0) => WHOLE,
        _ => bad(1, PageRule::Count),
    }
}

// The same of the four bytes that name the next page, of the last page of a chain.
fn after_next(page: u64, byte: u8) -> Opened {
    if byte == 0 {
        WHOLE
    } else {
        bad(page, PageRule::Used)
    }
}

// The same of the directory.
fn after_directory(place: usize, byte: u8) -> Opened {
    match (place, byte) {
        (0..=3, _) => after_next(3, byte),
        // none, one, and 255 bytes
        (4, 0) => bad(3, PageRule::Used),
        (4, _) => bad(3, PageRule::Directory),
        (5..=7, 0) => WHOLE,
        (5, 1) => bad(3, PageRule::Directory),
        (5..=7, _) => bad(3, PageRule::Used),
        (8, 1) | (9..=11, 0) => WHOLE,
        (8..=11, _) => bad(3, PageRule::Directory),
        // another leaf, of which the name isn't
        (14, _) => bad(4, PageRule::Leaf),
        (12..=19, 0) => WHOLE,
        (12..=19, _) => bad(4, PageRule::Leaf),
        (20, _) => of_page(byte as u64),
        (_, 0) => WHOLE,
        _ => of_page(with_byte(4, place.saturating_sub(20), byte)),
    }
}

// The same of the leaf.
fn after_leaf(place: usize, byte: u8) -> Opened {
    match (place, byte) {
        (0..=3, _) => after_next(4, byte),
        (4, 0) => bad(4, PageRule::Used),
        (4, _) => bad(4, PageRule::Leaf),
        (5..=7, 0) => WHOLE,
        (5, 1) => bad(4, PageRule::Leaf),
        (5..=7, _) => bad(4, PageRule::Used),
        (8, 1) => WHOLE,
        (8, _) => bad(4, PageRule::Leaf),
        // another name of the leaf, or one of another leaf
        (9, 255) => bad(4, PageRule::Leaf),
        (9, _) => WHOLE,
        (12, 1) => WHOLE,
        (12, _) => bad(4, PageRule::Leaf),
        (10..=16, 0) => WHOLE,
        (10..=16, _) => bad(4, PageRule::Leaf),
        // names from 2^48 on, and bodies of other kinds
        (23 | 24 | 31 | 32, 0) => WHOLE,
        (23 | 24 | 31 | 32, _) => bad(4, PageRule::Object),
        (33, _) => bad(4, PageRule::Object),
        _ => WHOLE,
    }
}

// The parts of the small extent.
#[derive(Clone, Copy)]
enum Part {
    Root,
    Directory,
    Leaf,
}

fn start_of(part: Part) -> usize {
    match part {
        Part::Root => ROOT_AT,
        Part::Directory => DIRECTORY_AT,
        Part::Leaf => LEAF_AT,
    }
}

fn after(part: Part, place: usize, byte: u8) -> Opened {
    match part {
        Part::Root => after_root(place, byte),
        Part::Directory => after_directory(place, byte),
        Part::Leaf => after_leaf(place, byte),
    }
}

// Whether the byte at this place of a part gives with this value what is told of it.
fn is_so(alloc: Global, part: Part, place: usize, byte: u8) -> Result<bool, Fail> {
    let at = start_of(part).saturating_add(place);
    Ok(with_part(alloc, at, &[byte])? == after(part, place, byte))
}

// The same of the values 0, 1 and 255.
fn are_so(alloc: Global, part: Part, place: usize) -> Result<bool, Fail> {
    Ok(
        is_so(alloc, part, place, 0)?
            && is_so(alloc, part, place, 1)?
            && is_so(alloc, part, place, 255)?,
    )
}

#[test]
fn each_byte_of_the_root(rt: HostRuntime) -> Result<(), Fail> {
    for place in 0..ROOT.len() {
        assert!(rt; are_so(rt.alloc(), Part::Root, place)?, "{place}");
    }
    Ok(())
}

#[test]
fn each_byte_of_the_directory(rt: HostRuntime) -> Result<(), Fail> {
    for place in 0..DIRECTORY.len() {
        assert!(rt; are_so(rt.alloc(), Part::Directory, place)?, "{place}");
    }
    Ok(())
}

#[test]
fn each_byte_of_the_leaf(rt: HostRuntime) -> Result<(), Fail> {
    for place in 0..LEAF.len() {
        assert!(rt; are_so(rt.alloc(), Part::Leaf, place)?, "{place}");
    }
    Ok(())
}

// The small extent with a leaf of two full pages, 4 and 5, of which the second goes on at this page.
fn of_two(alloc: Global, page: u8) -> Result<Opened, Fail> {
    let mut bytes = small(alloc, 6)?;
    put(&mut bytes, LEAF_AT, b"\x05\0\0\0\xf8\x3f\0\0");
    put(&mut bytes, 81_920, &[page, 0, 0, 0, 0xf8, 0x3f, 0, 0]);
    Ok(open_bytes(alloc, bytes))
}

#[test]
fn chains_that_return(rt: HostRuntime) -> Result<(), Fail> {
    let alloc = rt.alloc();
    // the first page, the page itself, one of the directory, one of a root, one outside
    assert_eq!(rt; of_two(alloc, 4)?, bad(4, PageRule::Taken));
    assert_eq!(rt; of_two(alloc, 5)?, bad(5, PageRule::Taken));
    assert_eq!(rt; of_two(alloc, 3)?, bad(3, PageRule::Taken));
    assert_eq!(rt; of_two(alloc, 2)?, bad(2, PageRule::Taken));
    assert_eq!(rt; of_two(alloc, 6)?, bad(6, PageRule::Outside));
    Ok(())
}

// The same with an Array of 16,500 values in place of the counter, all nil but the first that stands
// in page 5; the bytes behind it are left over.
fn array_of_two(alloc: Global, tag: u8) -> Result<Opened, Fail> {
    let mut bytes = small(alloc, 6)?;
    put(&mut bytes, LEAF_AT, b"\x05\0\0\0\xf8\x3f\0\0");
    put(&mut bytes, 65_569, b"\0\x74\x40\0\0\0\0\0\0");
    put(&mut bytes, 81_920, &[0, 0, 0, 0, 0xf8, 0x3f, 0, 0, tag]);
    Ok(open_bytes(alloc, bytes))
}

#[test]
fn fields_in_a_second_page(rt: HostRuntime) -> Result<(), Fail> {
    let alloc = rt.alloc();
    assert_eq!(rt; of_two(alloc, 0)?, bad(4, PageRule::Leaf));
    assert_eq!(rt; array_of_two(alloc, 9)?, bad(5, PageRule::Object));
    assert_eq!(rt; array_of_two(alloc, 0)?, bad(5, PageRule::Leaf));
    Ok(())
}
