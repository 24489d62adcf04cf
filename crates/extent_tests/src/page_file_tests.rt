// Checkpoints that are written and opened again, on disks in memory that tell nothing of what they
// hold. A page k begins at 16,384 k. Expected values are worked by hand.
ghost use Rattle.std.specs.Prelude.{◌≡◌, ◌<◌, ◌^◌, IfOk};
ghost use Rattle.std.specs.List.{AllByRecursion};
ghost use Rattle.gem_object.specs.Spelling.{IsOid, IsSpelled};

use crate::extent_pages_tests::small;
use crate::untold::Untold;
use gem_disk::Pick;
use gem_image::Image;
use gem_object::{Body, Counter, Object, Oid, Sequence};
use page_file::{PageFile, open_pages};
use radix_pages::Steps;
use std::alloc::{AllocError, Global};
use std::marker::Brand;
use std::process::Abort;
use std::sync::ledger::{Blank, Ledger};
use std::test::Fail;

// A name with the serial 1. There are 64 in a leaf: those from 1:0 on are in the leaf 262,144, and
// those from 1:64 on in the next.
fn name(counter: u32) -> Oid
    requires { counter < 2 ^ 24 }
    ensures { IsOid result }
{
    Oid::from_parts(1, counter)
}

// A counter, and the commit that changed it last.
#[derive(Clone, Copy)]
struct Row {
    value: u16,
    changed: u64,
}

fn counter(row: Row) -> Object
    ensures { IsSpelled result }
{
    Object {
        class: Oid::from_parts(0, 19),
        segment: Oid::from_parts(0, 30),
        changed: row.changed,
        body: Body::Counter(Counter {
            value: i64::from(row.value),
        }),
    }
}

// The three counters 1:3, 1:5 and 1:64, the first two in one leaf.
type Rows = [Row; 3];

fn image_of<L: Ledger>(
    alloc: Global,
    rows: Rows,
    steps: &mut Steps<L>,
) -> Result<Image, AllocError> {
    let [first, second, third] = rows;
    let mut image = Image::empty();
    image.insert(alloc, name(3), counter(first), steps)?;
    image.insert(alloc, name(5), counter(second), steps)?;
    image.insert(alloc, name(64), counter(third), steps)?;
    Ok(image)
}

// What an extent is opened to: the number, how many objects there are, and the values of the
// counters 1:3, 1:5 and 1:64, or -1 where there is none.
#[derive(Clone, Copy, Debug, PartialEq, Eq)]
enum Opened {
    Nothing,
    Stands(u64, u64, [i64; 3]),
    Fails,
}

fn value_at(image: &Image, at: u32) -> i64
    requires { at < 2 ^ 24 }
{
    match image.look(name(at)) {
        Some(
            Object {
                body: Body::Counter(counter),
                ..
            },
        ) => counter.value,
        _ => -1,
    }
}

fn what_stands(found: Option<Image>, number: u64) -> Opened {
    match found {
        None => Opened::Nothing,
        Some(image) => {
            let values = [
                value_at(&image, 3),
                value_at(&image, 5),
                value_at(&image, 64),
            ];
            Opened::Stands(number, image.count(), values)
        }
    }
}

fn open_bytes<L: Ledger>(alloc: Global, extent: Vec<u8>, steps: &mut Steps<L>) -> Opened {
    let mut disk = Untold::new(Vec::new(alloc), extent);
    match open_pages(alloc, &mut disk, steps) {
        Ok((_, found, number)) => what_stands(found, number),
        Err(_) => Opened::Fails,
    }
}

fn open<L: Ledger>(alloc: Global, disk: &mut Untold, steps: &mut Steps<L>) -> Option<PageFile> {
    match open_pages(alloc, disk, steps) {
        Ok((pages, _, _)) => Some(pages),
        Err(_) => None,
    }
}

// What is left of an extent by a checkpoint, and whether it was made.
#[derive(Drop)]
struct Left {
    is_made: bool,
    extent: Vec<u8>,
}

// Which of the two leaves have changed.
#[derive(Clone, Copy)]
enum Leaves {
    First,
    Second,
    Both,
}

fn numbers(leaves: Leaves) -> &'static [u64]
    ensures { AllByRecursion (λ leaf. leaf < 2 ^ 42) result.now }
{
    match leaves {
        Leaves::First => &[262_144],
        Leaves::Second => &[262_145],
        Leaves::Both => &[262_144, 262_145],
    }
}

// A checkpoint of an image up to a commit, on a disk that stops after so many calls behind those of
// the opening.
#[derive(Clone, Copy)]
struct Order {
    number: u32,
    changed: Leaves,
    calls: u64,
    pick: Pick,
}

fn check<L: Ledger>(
    alloc: Global,
    extent: &[u8],
    image: &Image,
    order: Order,
    steps: &mut Steps<L>,
) -> Result<Left, AllocError> {
    let mut disk = Untold::new(Vec::new(alloc), extent.to_vec(alloc)?);
    let is_made = match open(alloc, &mut disk, steps) {
        Some(mut pages) => {
            disk.stop_after(order.calls);
            let number = u64::from(order.number);
            pages
                .write_changed(alloc, &mut disk, image, number, numbers(order.changed))
                .is_ok()
        }
        None => false,
    };
    let images = disk.crash(order.pick)?;
    Ok(Left {
        is_made,
        extent: images.extent,
    })
}

// The calls of a disk that never stops.
const ALL: u64 = 1_000;

// What a checkpoint on a disk that doesn't stop makes of an extent.
fn next_extent<L: Ledger>(
    alloc: Global,
    extent: &[u8],
    image: &Image,
    number: u32,
    changed: Leaves,
    steps: &mut Steps<L>,
) -> Result<Vec<u8>, AllocError> {
    let order = Order {
        number,
        changed,
        calls: ALL,
        pick: Pick::Old,
    };
    Ok(check(alloc, extent, image, order, steps)?.extent)
}

// ---- one counter, byte by byte

// The small extent is what a first checkpoint of its counter writes, and is opened to it.
fn is_small<L: Ledger>(alloc: Global, steps: &mut Steps<L>) -> Result<bool, Fail> {
    let mut image = Image::empty();
    let row = Row {
        value: 20,
        changed: 7,
    };
    image.insert(alloc, name(3), counter(row), steps)?;
    let extent = next_extent(alloc, &[], &image, 7, Leaves::First, steps)?;
    let is_written = extent.as_slice() == small(alloc, 5)?.as_slice();
    Ok(is_written && open_bytes(alloc, extent, steps) == Opened::Stands(7, 1, [20, -1, -1]))
}

// ---- an object of many pages

// How many bytes it has. With 30 that stand before them in its leaf they fill 61 pages and a part
// of the next.
const LARGE: usize = 1_000_000;

// Each of its bytes.
const LETTER: u8 = b'A';

fn are_large(bytes: &[u8]) -> bool {
    bytes.len() == LARGE && bytes.iter().all(|byte| *byte == LETTER)
}

// A string of so many letters.
fn large_object(alloc: Global, count: usize) -> Result<Object, AllocError>
    requires { count < 2 ^ 32 }
    ensures { IfOk result IsSpelled }
{
    let bytes = vec![in alloc; LETTER; count]?;
    Ok(Object {
        class: Oid::from_parts(0, 17),
        segment: Oid::from_parts(0, 30),
        changed: 7,
        body: Body::Bytes(Sequence::of(bytes)),
    })
}

fn has_large(image: &Image) -> bool {
    match image.look(name(3)) {
        Some(
            Object {
                body: Body::Bytes(bytes),
                ..
            },
        ) => are_large(bytes.as_slice()),
        _ => false,
    }
}

fn is_large_alone(found: Option<Image>) -> bool {
    match found {
        Some(image) => image.count() == 1 && has_large(&image),
        None => false,
    }
}

fn opens_large<L: Ledger>(alloc: Global, extent: Vec<u8>, steps: &mut Steps<L>) -> bool {
    let mut disk = Untold::new(Vec::new(alloc), extent);
    match open_pages(alloc, &mut disk, steps) {
        Ok((_, found, number)) => number == 7 && is_large_alone(found),
        Err(_) => false,
    }
}

// The pages are three in front, one of the directory and 62 of the leaf.
fn is_large<L: Ledger>(alloc: Global, steps: &mut Steps<L>) -> Result<bool, AllocError> {
    let mut image = Image::empty();
    image.insert(alloc, name(3), large_object(alloc, LARGE)?, steps)?;
    let extent = next_extent(alloc, &[], &image, 7, Leaves::First, steps)?;
    Ok(extent.len() == 66 * 16_384 && opens_large(alloc, extent, steps))
}

// ---- three checkpoints

// What the commit 7 left, and what the commits 8 and 9 changed.
const FIRST: Rows = [
    Row {
        value: 20,
        changed: 7,
    },
    Row {
        value: 21,
        changed: 7,
    },
    Row {
        value: 22,
        changed: 7,
    },
];

const SECOND: Rows = [
    Row {
        value: 20,
        changed: 7,
    },
    Row {
        value: 21,
        changed: 7,
    },
    Row {
        value: 33,
        changed: 8,
    },
];

const THIRD: Rows = [
    Row {
        value: 20,
        changed: 7,
    },
    Row {
        value: 42,
        changed: 9,
    },
    Row {
        value: 33,
        changed: 8,
    },
];

const AFTER_FIRST: Opened = Opened::Stands(7, 3, [20, 21, 22]);

const AFTER_SECOND: Opened = Opened::Stands(8, 3, [20, 21, 33]);

const AFTER_THIRD: Opened = Opened::Stands(9, 3, [20, 42, 33]);

// A checkpoint of these counters, some of whose leaves have changed: of so many calls, what stands
// before it, and what stands behind it. The last call but one writes a byte that makes it count, and
// so does this byte there.
#[derive(Clone, Copy)]
struct Step {
    rows: Rows,
    number: u32,
    changed: Leaves,
    before: Opened,
    behind: Opened,
    calls: u64,
    byte: u8,
}

// The length, a write and a sync close the gate. Then there are the selector, the root, page 2, the
// directory, two leaves, a sync, the gate and a sync.
const STEP_ONE: Step = Step {
    rows: FIRST,
    number: 7,
    changed: Leaves::Both,
    before: Opened::Nothing,
    behind: AFTER_FIRST,
    calls: 12,
    byte: 1,
};

// The root, the directory, a leaf, a sync, the selector and a sync. An even selector names the root
// in page 2.
const STEP_TWO: Step = Step {
    rows: SECOND,
    number: 8,
    changed: Leaves::Second,
    before: AFTER_FIRST,
    behind: AFTER_SECOND,
    calls: 6,
    byte: 4,
};

const STEP_THREE: Step = Step {
    rows: THIRD,
    number: 9,
    changed: Leaves::First,
    before: AFTER_SECOND,
    behind: AFTER_THIRD,
    calls: 6,
    byte: 9,
};

// What a checkpoint on a disk that doesn't stop makes of an extent.
fn behind<L: Ledger>(
    alloc: Global,
    extent: &[u8],
    step: Step,
    steps: &mut Steps<L>,
) -> Result<Vec<u8>, AllocError> {
    let image = image_of(alloc, step.rows, steps)?;
    next_extent(alloc, extent, &image, step.number, step.changed, steps)
}

// What such checkpoints make of no extent, one after another.
fn behind_all<L: Ledger>(
    alloc: Global,
    done: &[Step],
    steps: &mut Steps<L>,
) -> Result<Vec<u8>, AllocError> {
    let mut extent = Vec::new(alloc);
    for step in done {
        extent = behind(alloc, &extent, *step, steps)?;
    }
    Ok(extent)
}

// What is opened after a crash behind so many calls.
fn expected(step: Step, calls: u64, pick: Pick) -> Opened {
    let is_behind = match pick {
        Pick::Old => calls >= step.calls,
        Pick::New => calls.saturating_add(1) >= step.calls,
        Pick::Torn(byte) => {
            calls >= step.calls || (calls.saturating_add(1) == step.calls && byte == step.byte)
        }
    };
    if is_behind { step.behind } else { step.before }
}

// Whether a checkpoint that stops behind so many calls leaves what is expected of it.
fn is_left<L: Ledger>(
    alloc: Global,
    extent: &[u8],
    image: &Image,
    step: Step,
    order: Order,
    steps: &mut Steps<L>,
) -> Result<bool, AllocError> {
    let left = check(alloc, extent, image, order, steps)?;
    let opened = open_bytes(alloc, left.extent, steps);
    Ok(
        left.is_made == (order.calls >= step.calls)
            && opened == expected(step, order.calls, order.pick),
    )
}

// The same with each of some picks.
fn are_left<L: Ledger>(
    alloc: Global,
    extent: &[u8],
    image: &Image,
    step: Step,
    calls: u64,
    picks: &[Pick],
    steps: &mut Steps<L>,
) -> Result<bool, AllocError> {
    for pick in picks {
        let order = Order {
            number: step.number,
            changed: step.changed,
            calls,
            pick: *pick,
        };
        if !is_left(alloc, extent, image, step, order, steps)? {
            return Ok(false);
        }
    }
    Ok(true)
}

// Whether a checkpoint leaves what is expected of it, wherever it stops.
fn is_whole<L: Ledger>(
    alloc: Global,
    extent: &[u8],
    step: Step,
    picks: &[Pick],
    steps: &mut Steps<L>,
) -> Result<bool, AllocError> {
    let image = image_of(alloc, step.rows, steps)?;
    for calls in 0..step.calls.saturating_add(1) {
        if !are_left(alloc, extent, &image, step, calls, picks, steps)? {
            return Ok(false);
        }
    }
    Ok(true)
}

// A checkpoint behind others.
fn check_crashes<R: Abort, L: Ledger>(
    rt: &R,
    alloc: Global,
    blank: Blank,
    done: &[Step],
    step: Step,
    picks: &[Pick],
) -> Result<(), Fail>
    requires name { blank.name ≡ L.name }
    requires parts { blank.parts ≡ L.parts }
    requires some_parts { 0 < L.parts }
{
    let mut steps = Steps::<L>::start(blank);
    let extent = behind_all(alloc, done, &mut steps)?;
    assert!(rt; is_whole(alloc, &extent, step, picks, &mut steps)?);
    Ok(())
}

// The gate is open where its byte is 1.
#[test]
fn first_checkpoint_that_stops(rt: HostRuntime) -> Result<(), Fail> {
    let blank = Blank::new(1);
    let picks = [Pick::Old, Pick::New, Pick::Torn(1), Pick::Torn(2)];
    check_crashes::<HostRuntime, Brand>(&rt, rt.alloc(), blank, &[], STEP_ONE, &picks)
}

#[test]
fn second_checkpoint_lost(rt: HostRuntime) -> Result<(), Fail> {
    let blank = Blank::new(1);
    let done = [STEP_ONE];
    let picks = [Pick::Old];
    check_crashes::<HostRuntime, Brand>(&rt, rt.alloc(), blank, &done, STEP_TWO, &picks)
}

#[test]
fn second_checkpoint_kept(rt: HostRuntime) -> Result<(), Fail> {
    let blank = Blank::new(1);
    let done = [STEP_ONE];
    let picks = [Pick::New];
    check_crashes::<HostRuntime, Brand>(&rt, rt.alloc(), blank, &done, STEP_TWO, &picks)
}

#[test]
fn second_checkpoint_torn(rt: HostRuntime) -> Result<(), Fail> {
    let blank = Blank::new(1);
    let done = [STEP_ONE];
    let picks = [Pick::Torn(4)];
    check_crashes::<HostRuntime, Brand>(&rt, rt.alloc(), blank, &done, STEP_TWO, &picks)
}

#[test]
fn third_checkpoint_lost(rt: HostRuntime) -> Result<(), Fail> {
    let blank = Blank::new(1);
    let done = [STEP_ONE, STEP_TWO];
    let picks = [Pick::Old];
    check_crashes::<HostRuntime, Brand>(&rt, rt.alloc(), blank, &done, STEP_THREE, &picks)
}

#[test]
fn third_checkpoint_kept(rt: HostRuntime) -> Result<(), Fail> {
    let blank = Blank::new(1);
    let done = [STEP_ONE, STEP_TWO];
    let picks = [Pick::New];
    check_crashes::<HostRuntime, Brand>(&rt, rt.alloc(), blank, &done, STEP_THREE, &picks)
}

#[test]
fn third_checkpoint_torn(rt: HostRuntime) -> Result<(), Fail> {
    let blank = Blank::new(1);
    let done = [STEP_ONE, STEP_TWO];
    let picks = [Pick::Torn(9)];
    check_crashes::<HostRuntime, Brand>(&rt, rt.alloc(), blank, &done, STEP_THREE, &picks)
}

// The directory of the third in page 3: no page behind it, 28 bytes, two entries, the leaf 262,144
// in page 5 and the leaf 262,145 in page 7.
const DIRECTORY: &[u8] = b"\0\0\0\0\x1c\0\0\0\x02\0\0\0\0\0\x04\0\0\0\0\0\x05\0\0\0\
    \x01\0\x04\0\0\0\0\0\x07\0\0\0";

// Whether these bytes stand at an offset.
fn stands_at(extent: &[u8], at: usize, part: &[u8]) -> bool {
    match extent.get(at..) {
        Some(behind) => behind.starts_with(part),
        None => false,
    }
}

// The second takes the pages 6 and 7; the third takes 3 and 5, which only the first used, so that
// the extent grows no more.
fn uses_again<L: Ledger>(alloc: Global, steps: &mut Steps<L>) -> Result<bool, AllocError> {
    let one = behind(alloc, &[], STEP_ONE, steps)?;
    let two = behind(alloc, &one, STEP_TWO, steps)?;
    let all = behind(alloc, &two, STEP_THREE, steps)?;
    let is_grown = one.len() == 6 * 16_384 && two.len() == 8 * 16_384;
    let is_used = all.len() == 8 * 16_384 && stands_at(&all, 49_152, DIRECTORY);
    Ok(is_grown && is_used && open_bytes(alloc, all, steps) == AFTER_THIRD)
}

fn check_pages<R: Abort, L: Ledger>(rt: &R, alloc: Global, blank: Blank) -> Result<(), Fail>
    requires name { blank.name ≡ L.name }
    requires parts { blank.parts ≡ L.parts }
    requires some_parts { 0 < L.parts }
{
    let mut steps = Steps::<L>::start(blank);
    assert!(rt; is_small(alloc, &mut steps)?);
    assert!(rt; is_large(alloc, &mut steps)?);
    assert!(rt; uses_again(alloc, &mut steps)?);
    Ok(())
}

#[test]
fn pages_that_are_written(rt: HostRuntime) -> Result<(), Fail> {
    check_pages::<HostRuntime, Brand>(&rt, rt.alloc(), Blank::new(1))
}
