// What stands against commits over images and records made by hand, and what their merges leave:
// changes and locks by one table, and merges by another.
ghost use Rattle.std.specs.Prelude.{◌≡◌, ◌<◌, ◌^◌, IfOk};
ghost use Rattle.gem_object.specs.gem_value.Oid.{oid_number};
ghost use Rattle.gem_object.specs.Spelling.{IsOid, IsStorable, IsItems, IsKeyDictionary, IsSpelled, IsSpelledBody};

use commit_check::{Judgement, conflicts};
use gem_image::Image;
use gem_object::{
    Bag, BagUpdate, Body, Conflict, ConflictKind, Counter, DictUpdate, KeyDict, LARGEST_INTEGER,
    Object, Oid, Queue, QueueUpdate, SMALLEST_INTEGER, Sequence, Value, Values,
};
use gem_record::{ByName, Mode, OidList, TxnRecord};
use gem_update::Update;
use lock_table::{LockKind, Locks};
use radix_pages::Steps;
use sorted_pairs::ascend;
use std::alloc::{AllocError, Global};
use std::marker::Brand;
use std::process::Abort;
use std::sync::ledger::{Blank, Ledger};
use std::test::Fail;

const BOX: u32 = 1;

const CUP: u32 = 2;

const SHARED: u32 = 3;

fn name(counter: u32) -> Oid
    requires { counter < 2 ^ 24 }
    ensures number { result ≡ oid_number 1 counter }
    ensures oid { IsOid result }
{
    Oid::from_parts(1, counter)
}

fn object(changed: u64, body: Body) -> Object
    requires { IsSpelledBody body }
    ensures { IsSpelled result }
{
    Object {
        class: name(10),
        segment: name(11),
        changed,
        body,
    }
}

fn plain(alloc: Global) -> Body
    ensures { IsSpelledBody result }
{
    Body::Plain(Values::of(Vec::new(alloc)))
}

fn by_name<T: Drop>(rt: &impl Abort, entries: Vec<(Oid, T)>) -> ByName<T> {
    assert!(rt; ascend(&entries));
    ByName::of(entries)
}

fn no_names(alloc: Global) -> Result<OidList, AllocError> {
    Ok(OidList::of(Vec::new(alloc)))
}

fn box_alone(alloc: Global) -> Result<OidList, AllocError> {
    Ok(OidList::of(vec![in alloc; name(BOX)]?))
}

fn box_and_cup(alloc: Global) -> Result<OidList, AllocError> {
    Ok(OidList::of(vec![in alloc; name(BOX), name(CUP)]?))
}

// What session 2 asks to commit at view 1.
fn record(
    mode: Mode,
    base: Image,
    touched: OidList,
    written: ByName<Object>,
    made: ByName<Object>,
    updates: ByName<Sequence<Update>>,
) -> TxnRecord {
    TxnRecord {
        session: 2,
        transaction: 1,
        user: name(12),
        first_command: 1,
        last_command: 2,
        first_name: 1,
        view: 1,
        mode,
        base,
        touched,
        written,
        made,
        updates,
    }
}

// A commit of session 2 that wrote the box: what it meets, and what stands against it.
#[derive(Clone, Copy)]
struct Write<'a> {
    mode: Mode,
    // The commits that changed the box and the cup last.
    changed: (u64, u64),
    // Whether the session read the cup too.
    reads_cup: bool,
    // The sessions that hold the box.
    holders: &'a [(u32, LockKind)],
    // The objects of the conflicts, with what is shown.
    want: &'a [(u32, ConflictKind, u64)],
}

macro_rules! writes {
    ($mode:expr; $($changed:expr, $reads_cup:expr, $holders:expr => $want:expr;)*) => {
        [$(Write {
            mode: $mode,
            changed: $changed,
            reads_cup: $reads_cup,
            holders: $holders,
            want: $want,
        }),*]
    };
}

fn are_conflicts(found: &[Conflict], want: &[(u32, ConflictKind, u64)]) -> bool {
    found.len() == want.len()
        && found.iter().zip(want).all(|(conflict, (counter, kind, shown))| {
            let is_named = conflict.oid.serial() == 1 && conflict.oid.counter() == *counter;
            is_named && conflict.kind == *kind && conflict.shown == *shown
        })
}

// The image of a plain object and a counter, which these commits changed last.
fn boxes<L: Ledger>(
    alloc: Global,
    changed: (u64, u64),
    steps: &mut Steps<L>,
) -> Result<Image, AllocError> {
    let mut image = Image::empty();
    image.insert(alloc, name(BOX), object(changed.0, plain(alloc)), steps)?;
    image.insert(alloc, name(CUP), object(changed.1, counter(0)), steps)?;
    Ok(image)
}

fn write_of_box<R: Abort>(rt: &R, alloc: Global, row: &Write) -> Result<TxnRecord, Fail> {
    let written = vec![in alloc; (name(BOX), object(1, plain(alloc)))]?;
    let touched = if row.reads_cup {
        box_and_cup(alloc)
    } else {
        box_alone(alloc)
    };
    Ok(record(
        row.mode,
        Image::empty(),
        touched?,
        by_name(rt, written),
        by_name(rt, Vec::new(alloc)),
        by_name(rt, Vec::new(alloc)),
    ))
}

fn locks_of(alloc: Global, holders: &[(u32, LockKind)]) -> Locks {
    let mut locks = Locks::new(alloc);
    for (session, kind) in holders {
        locks.request(*session, name(BOX).number(), *kind);
    }
    locks
}

// Whether this stands against the commit.
fn is_met<R: Abort, L: Ledger>(
    rt: &R,
    alloc: Global,
    row: &Write,
    steps: &mut Steps<L>,
) -> Result<bool, Fail> {
    let image = boxes(alloc, row.changed, steps)?;
    let transaction = write_of_box(rt, alloc, row)?;
    let locks = locks_of(alloc, row.holders);
    let judgement = conflicts(alloc, &image, &transaction, &locks)?;
    Ok(are_conflicts(judgement.conflicts.as_slice(), row.want))
}

fn check_rows<R: Abort, L: Ledger>(
    rt: &R,
    alloc: Global,
    rows: &[Write],
    steps: &mut Steps<L>,
) -> Result<(), Fail> {
    for (number, row) in rows.iter().enumerate() {
        assert!(rt; is_met(rt, alloc, row, steps)?, "row {number}");
    }
    Ok(())
}

fn check_writes<R: Abort, L: Ledger>(rt: &R, alloc: Global, blank: Blank) -> Result<(), Fail>
    requires name { blank.name ≡ L.name }
    requires parts { blank.parts ≡ L.parts }
    requires some_parts { 0 < L.parts }
{
    let mut steps = Steps::<L>::start(blank);
    let rows = writes! {
        Mode::Full;
        (1, 1), true, &[] => &[];
        // Another session has changed the box, or made the cup, a counter, which the view lacked.
        (2, 1), false, &[] => &[(BOX, ConflictKind::WriteWrite, 2)];
        (1, 2), true, &[] => &[(CUP, ConflictKind::ReadWrite, 2)];
        (1, 2), false, &[] => &[];
        // This session may hold the box. Of others that hold it the lowest is told.
        (1, 1), true, &[(2, LockKind::Write)] => &[];
        (1, 1), false, &[(1, LockKind::Read), (2, LockKind::Read)]
            => &[(BOX, ConflictKind::WriteReadLock, 1)];
        (1, 1), false, &[(4, LockKind::Read), (2, LockKind::Read), (3, LockKind::Read)]
            => &[(BOX, ConflictKind::WriteReadLock, 3)];
        // All at once, by object and then by kind.
        (3, 2), true, &[(3, LockKind::Write)] => &[
            (BOX, ConflictKind::WriteWrite, 3),
            (BOX, ConflictKind::WriteWriteLock, 3),
            (CUP, ConflictKind::ReadWrite, 2),
        ];
    };
    check_rows(rt, alloc, &rows, &mut steps)
}

#[test]
fn writes(rt: HostRuntime) -> Result<(), Fail> {
    check_writes::<HostRuntime, Brand>(&rt, rt.alloc(), Blank::new(1))
}

// Nothing is said of a change of the cup, which was only read. What stands against the write of the
// box is told in this mode, too.
fn check_unchecked_reads<R: Abort, L: Ledger>(
    rt: &R,
    alloc: Global,
    blank: Blank,
) -> Result<(), Fail>
    requires name { blank.name ≡ L.name }
    requires parts { blank.parts ≡ L.parts }
    requires some_parts { 0 < L.parts }
{
    let mut steps = Steps::<L>::start(blank);
    let rows = writes! {
        Mode::NoRw;
        (1, 1), true, &[] => &[];
        (1, 2), true, &[] => &[];
        (2, 1), false, &[] => &[(BOX, ConflictKind::WriteWrite, 2)];
        (2, 2), true, &[] => &[(BOX, ConflictKind::WriteWrite, 2)];
        (1, 2), true, &[(1, LockKind::Read), (2, LockKind::Read)]
            => &[(BOX, ConflictKind::WriteReadLock, 1)];
        (3, 2), true, &[(3, LockKind::Write)] => &[
            (BOX, ConflictKind::WriteWrite, 3),
            (BOX, ConflictKind::WriteWriteLock, 3),
        ];
    };
    check_rows(rt, alloc, &rows, &mut steps)
}

#[test]
fn unchecked_reads(rt: HostRuntime) -> Result<(), Fail> {
    check_unchecked_reads::<HostRuntime, Brand>(&rt, rt.alloc(), Blank::new(1))
}

// What an object holds whose updates are merged.
#[derive(Clone, Copy)]
enum Contents {
    Counter(i64),
    // The letter x so often.
    Bag(u8),
    // The first so many of the entries `a: 1` and `b: 2`.
    Dict(u8),
    // A line that the numbers from 1 on joined: so many left it, and so many are there.
    Queue(u8, u8),
}

fn integer(number: i64) -> Value
    ensures { IsStorable result }
{
    Value::Int(number.clamp(SMALLEST_INTEGER, LARGEST_INTEGER))
}

fn counter(value: i64) -> Body
    ensures { IsSpelledBody result }
{
    Body::Counter(Counter {
        value: value.clamp(SMALLEST_INTEGER, LARGEST_INTEGER),
    })
}

fn bag_of(pairs: Vec<(Value, u64)>) -> Result<Body, Fail>
    requires { IsItems pairs.items }
    ensures { IfOk result IsSpelledBody }
{
    Ok(Body::Bag(Bag::of_pairs(pairs).ok_or("pairs of a bag")?))
}

fn bag(alloc: Global, occurrences: u8) -> Result<Body, Fail>
    ensures { IfOk result IsSpelledBody }
{
    if occurrences == 0 {
        return bag_of(Vec::new(alloc));
    }
    bag_of(vec![in alloc; (Value::Char(b'x'), occurrences as u64)]?)
}

fn dict_of(pairs: Vec<(Value, Value)>) -> Result<Body, Fail>
    requires { IsKeyDictionary pairs.items }
    ensures { IfOk result IsSpelledBody }
{
    Ok(Body::RcDict(KeyDict::of_pairs(pairs).ok_or("pairs of a dictionary")?))
}

fn dict(alloc: Global, size: u8) -> Result<Body, Fail>
    ensures { IfOk result IsSpelledBody }
{
    let a = (Value::Char(b'a'), Value::Int(1));
    let b = (Value::Char(b'b'), Value::Int(2));
    match size {
        0 => dict_of(Vec::new(alloc)),
        1 => dict_of(vec![in alloc; a]?),
        _ => dict_of(vec![in alloc; a, b]?),
    }
}

fn queue(alloc: Global, removed: u8, size: u8) -> Result<Body, AllocError>
    ensures { IfOk result IsSpelledBody }
{
    let mut items = Vec::new(alloc);
    for at in 0..size {
        items.push(integer(removed as i64 + at as i64 + 1))?;
    }
    Ok(Body::Queue(Queue::of_items(removed as u64, items)))
}

fn body(alloc: Global, contents: Contents) -> Result<Body, Fail>
    ensures { IfOk result IsSpelledBody }
{
    match contents {
        Contents::Counter(value) => Ok(counter(value)),
        Contents::Bag(occurrences) => bag(alloc, occurrences),
        Contents::Dict(size) => dict(alloc, size),
        Contents::Queue(removed, size) => Ok(queue(alloc, removed, size)?),
    }
}

// What the session did with it.
#[derive(Clone, Copy)]
enum Change {
    Count(i64),
    Add,
    Remove,
    Put(u8, i64),
    Join(i64),
    Leave(i64),
}

fn update(change: Change) -> Update {
    match change {
        Change::Count(by) => Update::Counter(by),
        Change::Add => Update::Bag(BagUpdate::Add(Value::Char(b'x'))),
        Change::Remove => Update::Bag(BagUpdate::Remove(Value::Char(b'x'))),
        Change::Put(letter, number) => {
            Update::RcDict(DictUpdate::Put(Value::Char(letter), Value::Int(number)))
        }
        Change::Join(number) => Update::Queue(QueueUpdate::Add(Value::Int(number))),
        Change::Leave(number) => Update::Queue(QueueUpdate::Remove(Value::Int(number))),
    }
}

fn updates(alloc: Global, changes: &[Change]) -> Result<Vec<Update>, AllocError> {
    let mut updates = Vec::new(alloc);
    for change in changes {
        updates.push(update(*change))?;
    }
    Ok(updates)
}

// A commit of updates: the object at the view and at the place, what the session did with it, and
// the object that the merge leaves, or the conflict.
#[derive(Clone, Copy)]
struct Merge<'a> {
    view: Contents,
    place: Contents,
    changes: &'a [Change],
    want: Result<Contents, ConflictKind>,
}

macro_rules! merges {
    ($($view:expr, $place:expr, $changes:expr => $want:expr;)*) => {
        [$(Merge {
            view: $view,
            place: $place,
            changes: $changes,
            want: $want,
        }),*]
    };
}

// The image of one object.
fn image_of<L: Ledger>(
    alloc: Global,
    object: Object,
    steps: &mut Steps<L>,
) -> Result<Image, AllocError>
    requires { IsSpelled object }
{
    let mut image = Image::empty();
    image.insert(alloc, name(SHARED), object, steps)?;
    Ok(image)
}

// The commit of these updates over this image.
fn transaction_of<R: Abort>(
    rt: &R,
    alloc: Global,
    mode: Mode,
    base: Image,
    updates: Vec<Update>,
) -> Result<TxnRecord, Fail> {
    let updates = vec![in alloc; (name(SHARED), Sequence::of(updates))]?;
    let touched = no_names(alloc)?;
    Ok(record(
        mode,
        base,
        touched,
        by_name(rt, Vec::new(alloc)),
        by_name(rt, Vec::new(alloc)),
        by_name(rt, updates),
    ))
}

// What stands against the commit of these updates, made on the body at the view, where that of the
// place was changed by commit 3.
fn judged<R: Abort, L: Ledger>(
    rt: &R,
    alloc: Global,
    mode: Mode,
    bodies: (Body, Body),
    updates: Vec<Update>,
    steps: &mut Steps<L>,
) -> Result<Judgement, Fail>
    requires view { IsSpelledBody bodies.0 }
    requires place { IsSpelledBody bodies.1 }
{
    let (view, place) = bodies;
    let base = image_of(alloc, object(1, view), steps)?;
    let image = image_of(alloc, object(3, place), steps)?;
    let transaction = transaction_of(rt, alloc, mode, base, updates)?;
    Ok(conflicts(alloc, &image, &transaction, &Locks::new(alloc))?)
}

fn is_same_body(body: &Body, want: &Body) -> bool {
    match (body, want) {
        (Body::Counter(counter), Body::Counter(want)) => counter.value == want.value,
        (Body::Bag(bag), Body::Bag(want)) => bag.pairs() == want.pairs(),
        (Body::RcDict(dict), Body::RcDict(want)) => dict.pairs() == want.pairs(),
        (Body::Queue(queue), Body::Queue(want)) => is_same_queue(queue, want),
        _ => false,
    }
}

fn is_same_queue(queue: &Queue<Value>, want: &Queue<Value>) -> bool {
    queue.removed() == want.removed()
        && queue.size() == want.size()
        && (0..want.size()).all(|at| queue.item(at) == want.item(at))
}

// Whether the merge leaves the object of the place with this body.
fn leaves(merged: &[(Oid, Object)], body: &Body) -> bool {
    let Some((oid, object)) = merged.first() else {
        return false;
    };
    let as_before = object.class == name(10) && object.segment == name(11) && object.changed == 3;
    *oid == name(SHARED) && as_before && is_same_body(&object.body, body) && merged.len() == 1
}

fn is_wanted(
    alloc: Global,
    judgement: &Judgement,
    want: Result<Contents, ConflictKind>,
) -> Result<bool, Fail> {
    let found = judgement.conflicts.as_slice();
    let merged = judgement.merged.as_slice();
    match want {
        Ok(contents) => {
            let body = body(alloc, contents)?;
            Ok(found.is_empty() && leaves(merged, &body))
        }
        Err(kind) => Ok(merged.is_empty() && are_conflicts(found, &[(SHARED, kind, 3)])),
    }
}

// Whether the merge of the row leaves what it says, in this mode.
fn merges_so<R: Abort, L: Ledger>(
    rt: &R,
    alloc: Global,
    mode: Mode,
    row: &Merge,
    steps: &mut Steps<L>,
) -> Result<bool, Fail> {
    let bodies = (body(alloc, row.view)?, body(alloc, row.place)?);
    let updates = updates(alloc, row.changes)?;
    let judgement = judged(rt, alloc, mode, bodies, updates, steps)?;
    is_wanted(alloc, &judgement, row.want)
}

fn check_merges<R: Abort, L: Ledger>(rt: &R, alloc: Global, blank: Blank) -> Result<(), Fail>
    requires name { blank.name ≡ L.name }
    requires parts { blank.parts ≡ L.parts }
    requires some_parts { 0 < L.parts }
{
    let mut steps = Steps::<L>::start(blank);
    let rows = merges! {
        // Two sessions count to ten. Two add one below the end of the range.
        Contents::Counter(0), Contents::Counter(10), &[Change::Count(4), Change::Count(6)]
            => Ok(Contents::Counter(20));
        Contents::Counter(LARGEST_INTEGER - 1), Contents::Counter(LARGEST_INTEGER),
            &[Change::Count(1)] => Err(ConflictKind::CounterRange);
        // Two sessions remove the only occurrence, and one of two.
        Contents::Bag(1), Contents::Bag(0), &[Change::Remove] => Err(ConflictKind::BagRemove);
        Contents::Bag(2), Contents::Bag(1), &[Change::Remove] => Ok(Contents::Bag(0));
        Contents::Bag(2), Contents::Bag(1), &[Change::Add, Change::Add] => Ok(Contents::Bag(3));
        // 1 and 2 wait. One session adds 3 and another takes the front, in either order.
        Contents::Queue(0, 2), Contents::Queue(0, 3), &[Change::Leave(1)]
            => Ok(Contents::Queue(1, 2));
        Contents::Queue(0, 2), Contents::Queue(1, 1), &[Change::Join(3)]
            => Ok(Contents::Queue(1, 2));
        // Both take the front.
        Contents::Queue(0, 2), Contents::Queue(1, 1), &[Change::Leave(1)]
            => Err(ConflictKind::QueueRemove);
        // Both add to an empty queue, and the second takes what it added.
        Contents::Queue(0, 0), Contents::Queue(0, 1), &[Change::Join(7), Change::Leave(7)]
            => Err(ConflictKind::QueueRemove);
        // Two sessions put at two keys, and at one.
        Contents::Dict(0), Contents::Dict(1), &[Change::Put(b'b', 2)] => Ok(Contents::Dict(2));
        Contents::Dict(0), Contents::Dict(1), &[Change::Put(b'a', 1)]
            => Err(ConflictKind::DictionaryKey);
    };
    for (number, row) in rows.iter().enumerate() {
        assert!(rt;
            merges_so(rt, alloc, Mode::Full, row, &mut steps)?,
            "row {number}"
        );
        assert!(rt;
            merges_so(rt, alloc, Mode::NoRw, row, &mut steps)?,
            "row {number}, no_rw"
        );
    }
    Ok(())
}

#[test]
fn merges(rt: HostRuntime) -> Result<(), Fail> {
    check_merges::<HostRuntime, Brand>(&rt, rt.alloc(), Blank::new(1))
}
