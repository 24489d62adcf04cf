//! What is remembered of receivers and of look-ups: how it is found again, and how it comes there.
ghost use Rattle.std.specs.Prelude.{◌≡◌, ◌<◌, ◌≤◌, true, ℕ, length, Some, option_map, IfOk, IfSome};
ghost use Rattle.gem_object.specs.declared.body.MethodCode.{MethodCode};
ghost use Rattle.gem_language.specs.LookUp.{Start, start_of_object};
ghost use Rattle.running_objects.specs.gem_world.Access.{a_read};
ghost use Rattle.running_objects.specs.Acted.{Reached};
ghost use Rattle.running_objects.specs.Seen.{Seen};
ghost use Rattle.look_up_cache.specs.Calm.{Begins, plain_start};
ghost use Rattle.look_up_cache.specs.Remembered.{Finds};
ghost use Rattle.look_up_cache.specs.Table.{held_at, AllHeld};
ghost use Rattle.look_up_cache.specs.Memory.{start_at, IsMet, IsFound, IsCoded, coded_by, Holds, Where, BeginsFor, FindsFor, founds};

use crate::kept::MethodCodeKept;
use crate::memory::{Beginning, Entry, Memory, Receiver};
use crate::table::{beside, empty_all, free_place, held_at, put_at};
use gem_language::Found;
use gem_object::{Body, Oid, Text, Value};
use prim_parts::class_of_plain;
use running_objects::Objects;
use std::alloc::AllocError;
use std::mem;

/// Forgets all, unless it holds. The tables keep their places.
#[tactic(auto, using(crate::proofs::Places::none_held, crate::proofs::Again::where_true))]
pub(crate) fn renew<T: MethodCodeKept>(memory: &mut Memory<T>, held: bool)
    ensures holds { (seen : Seen) → Where held (Holds memory.old seen) → Holds memory.new seen }
    ensures coded { AllHeld (IsCoded T.is_of) memory.old.methods.items
        → AllHeld (IsCoded T.is_of) memory.new.methods.items }
{
    if held {
        return;
    }
    empty_all(&mut memory.receivers);
    empty_all(&mut memory.methods);
    empty_all(&mut memory.variables);
    empty_all(&mut memory.counts);
    empty_all(&mut memory.operators);
}

/// The place of what a look-up for this receiver is known to find.
#[inline(always)]
pub(crate) fn known_place<T>(memory: &Memory<T>, receiver: &Value, selector: &Text) -> Option<usize>
    ensures { (seen : Seen) → Holds memory.now seen → IfSome result (λ at.
        FindsFor receiver.now selector.now (held_at (founds memory.now.methods.items) at) seen) }
{
    let start = known_start(memory, receiver)?;
    place_of(memory, &start, selector)
}

// Where a look-up for this receiver is known to begin.
#[tactic(auto, using(crate::proofs::Again::plain_begins))]
#[inline(always)]
fn known_start<T>(memory: &Memory<T>, receiver: &Value) -> Option<Beginning>
    ensures { (seen : Seen) → Holds memory.now seen
        → IfSome result (λ start. BeginsFor receiver.now (start_at start) seen) }
{
    match receiver {
        Value::Ref(name) => object_start(&memory.receivers, *name),
        _ => start_of_plain(receiver),
    }
}

/// The same for a value that is no reference.
#[inline(always)]
pub(crate) fn start_of_plain(receiver: &Value) -> Option<Beginning>
    ensures { option_map start_at result ≡ plain_start receiver.now }
{
    let class = class_of_plain(receiver)?;
    Some(Beginning {
        class: Some(class),
        class_side: false,
    })
}

/// The same for an object.
#[inline(always)]
pub(crate) fn object_start(receivers: &Vec<Option<Receiver>>, name: Oid) -> Option<Beginning>
    ensures { (seen : Seen) → AllHeld (IsMet seen) receivers.now.items
        → IfSome result (λ start. Begins name (start_at start) seen.setting seen.world) }
{
    let receiver = receiver_of(receivers, name)?;
    Some(receiver.start.copy())
}

/// What is remembered of the object of this name. It takes no memory.
#[inline(always)]
pub(crate) fn receiver_of(receivers: &Vec<Option<Receiver>>, name: Oid) -> Option<&Receiver>
    ensures name { IfSome result (λ receiver. receiver.now.name ≡ name) }
    ensures met { (seen : Seen) → AllHeld (IsMet seen) receivers.now.items
        → IfSome result (λ receiver. IsMet seen receiver.now) }
{
    let first = receiver_place(name);
    match receiver_at(receivers, first, name) {
        Some(receiver) => Some(receiver),
        None => receiver_at(receivers, beside(first), name),
    }
}

#[inline(always)]
fn receiver_at(receivers: &Vec<Option<Receiver>>, at: usize, name: Oid) -> Option<&Receiver>
    ensures name { IfSome result (λ receiver. receiver.now.name ≡ name) }
    ensures met { (seen : Seen) → AllHeld (IsMet seen) receivers.now.items
        → IfSome result (λ receiver. IsMet seen receiver.now) }
{
    let receiver = held_at(receivers, at)?;
    if receiver.name == name {
        Some(receiver)
    } else {
        None
    }
}

// The place of a look-up that is known.
#[inline(always)]
fn place_of<T>(memory: &Memory<T>, start: &Beginning, selector: &Text) -> Option<usize>
    ensures { (seen : Seen) → Holds memory.now seen → IfSome result (λ at.
        Finds (start_at start.now) selector.now (held_at (founds memory.now.methods.items) at)
        seen.setting seen.world) }
{
    let first = method_place(start, selector);
    if is_at(&memory.methods, first, start, selector) {
        return Some(first);
    }
    let second = beside(first);
    if is_at(&memory.methods, second, start, selector) {
        return Some(second);
    }
    None
}

// Whether this look-up stands at a place.
#[inline(always)]
fn is_at<T>(methods: &Vec<Option<Entry<T>>>, at: usize, start: &Beginning, selector: &Text) -> bool
    ensures { result ≡ true → (seen : Seen) → AllHeld (IsFound seen) methods.now.items
        → Finds (start_at start.now) selector.now (held_at (founds methods.now.items) at)
        seen.setting seen.world }
{
    match held_at(methods, at) {
        Some(entry) => is_for(entry, start, selector),
        None => false,
    }
}

/// Whether a look-up is this one.
#[inline(always)]
pub(crate) fn is_for<T>(entry: &Entry<T>, start: &Beginning, selector: &Text) -> bool
    ensures start { result ≡ true → start_at entry.now.start ≡ start_at start.now }
    ensures selector { result ≡ true → entry.now.selector ≡ selector.now }
{
    same_start(&entry.start, start) && same_text(&entry.selector, selector)
}

/// Whether two texts are the same. Short ones take two comparisons, and no call.
#[inline(always)]
pub(crate) fn same_text(one: &Text, other: &Text) -> bool
    ensures { result ≡ true → one.now ≡ other.now }
{
    let one = one.bytes();
    let other = other.bytes();
    if one.len() != other.len() {
        return false;
    }
    match one.len() {
        8..=16 => same_words(one, other),
        4..=7 => same_half_words(one, other),
        2..=3 => same_pairs(one, other),
        1 => same_firsts(one, other),
        _ => one == other,
    }
}

// Whether texts of a length, of 8 to 16 bytes, are the same: by their first and last 8.
#[inline(always)]
fn same_words(one: &[u8], other: &[u8]) -> bool
    requires length { length one.now ≡ length other.now }
    requires short { length one.now ≤ 16 }
    ensures { result ≡ true → one.now ≡ other.now }
{
    let Some(front) = one.first_chunk::<8>() else {
        return false;
    };
    let Some(other_front) = other.first_chunk::<8>() else {
        return false;
    };
    let Some(back) = one.last_chunk::<8>() else {
        return false;
    };
    let Some(other_back) = other.last_chunk::<8>() else {
        return false;
    };
    u64::from_le_bytes(*front) == u64::from_le_bytes(*other_front)
        && u64::from_le_bytes(*back) == u64::from_le_bytes(*other_back)
}

// Whether texts of a length, of 4 to 7 bytes, are the same: by their first and last 4.
#[inline(always)]
fn same_half_words(one: &[u8], other: &[u8]) -> bool
    requires length { length one.now ≡ length other.now }
    requires short { length one.now ≤ 8 }
    ensures { result ≡ true → one.now ≡ other.now }
{
    let Some(front) = one.first_chunk::<4>() else {
        return false;
    };
    let Some(other_front) = other.first_chunk::<4>() else {
        return false;
    };
    let Some(back) = one.last_chunk::<4>() else {
        return false;
    };
    let Some(other_back) = other.last_chunk::<4>() else {
        return false;
    };
    u32::from_le_bytes(*front) == u32::from_le_bytes(*other_front)
        && u32::from_le_bytes(*back) == u32::from_le_bytes(*other_back)
}

// Whether texts of a length, of 2 or 3 bytes, are the same: by their first and last 2.
#[inline(always)]
fn same_pairs(one: &[u8], other: &[u8]) -> bool
    requires length { length one.now ≡ length other.now }
    requires short { length one.now ≤ 4 }
    ensures { result ≡ true → one.now ≡ other.now }
{
    let Some(front) = one.first_chunk::<2>() else {
        return false;
    };
    let Some(other_front) = other.first_chunk::<2>() else {
        return false;
    };
    let Some(back) = one.last_chunk::<2>() else {
        return false;
    };
    let Some(other_back) = other.last_chunk::<2>() else {
        return false;
    };
    u16::from_le_bytes(*front) == u16::from_le_bytes(*other_front)
        && u16::from_le_bytes(*back) == u16::from_le_bytes(*other_back)
}

// Whether texts of one byte are the same.
#[inline(always)]
fn same_firsts(one: &[u8], other: &[u8]) -> bool
    requires length { length one.now ≡ length other.now }
    requires short { length one.now ≤ 1 }
    ensures { result ≡ true → one.now ≡ other.now }
{
    let Some(first) = one.first() else {
        return false;
    };
    let Some(other_first) = other.first() else {
        return false;
    };
    *first == *other_first
}

/// Whether look-ups begin at the same class on the same side.
#[inline(always)]
pub(crate) fn same_start(one: &Beginning, other: &Beginning) -> bool
    ensures { result ≡ true → start_at one.now ≡ start_at other.now }
{
    if one.class_side != other.class_side {
        return false;
    }
    match (one.class, other.class) {
        (Some(class), Some(wanted)) => class == wanted,
        (None, None) => true,
        _ => false,
    }
}

// The first place at which a receiver may stand.
fn receiver_place(name: Oid) -> usize {
    (name.number() % 1024) as usize
}

// The place at which a receiver comes: where it stands or nothing does, and else the first one.
fn place_for(receivers: &Vec<Option<Receiver>>, name: Oid) -> usize {
    let first = receiver_place(name);
    let second = beside(first);
    if !is_free_for(receivers, first, name) && is_free_for(receivers, second, name) {
        second
    } else {
        first
    }
}

fn is_free_for(receivers: &Vec<Option<Receiver>>, at: usize, name: Oid) -> bool {
    match held_at(receivers, at) {
        Some(receiver) => receiver.name == name,
        None => true,
    }
}

// The first place at which a look-up may stand.
#[inline(always)]
fn method_place(start: &Beginning, selector: &Text) -> usize {
    let class = match start.class {
        Some(class) => class.number() % 1024,
        None => 0,
    };
    let side = if start.class_side { 256 } else { 0 };
    let bytes = selector.bytes();
    let first = byte_of(bytes.first());
    let last = byte_of(bytes.last());
    ((class * 5 + side + first * 3 + last * 7 + (bytes.len() % 64) as u64 * 11) % 512) as usize
}

pub(crate) fn byte_of(byte: Option<&u8>) -> u64
    ensures { result < 256 }
{
    match byte {
        Some(byte) => *byte as u64,
        None => 0,
    }
}

/// Remembers what a look-up found, and tells its place.
pub(crate) fn remember<O: Objects, T: MethodCodeKept>(
    memory: &mut Memory<T>,
    objects: &O,
    receiver: &Value,
    selector: &Text,
    found: Option<Found>,
) -> Result<usize, AllocError>
    requires { FindsFor receiver.now selector.now found (O.seen objects.now) }
    ensures told { IfOk result (λ at. held_at (founds memory.new.methods.items) at ≡ found) }
    ensures holds { IfOk result (λ _. Holds memory.old (O.seen objects.now)
        → Holds memory.new (O.seen objects.now)) }
    ensures coded { AllHeld (IsCoded T.is_of) memory.old.methods.items
        → AllHeld (IsCoded T.is_of) memory.new.methods.items }
{
    let Some(start) = start_now(objects, receiver) else {
        return Err(AllocError);
    };
    remember_receiver(&mut memory.receivers, receiver, &start)?;
    let at = free_place(&memory.methods, method_place(&start, selector));
    let entry = Entry {
        start,
        selector: selector.clone()?,
        found,
        code: None,
    };
    put_at(&mut memory.methods, at, entry)?;
    Ok(at)
}

// Where a look-up for this receiver begins, by what is seen of it.
fn start_now<O: Objects>(objects: &O, receiver: &Value) -> Option<Beginning>
    ensures { (start : Start) → BeginsFor receiver.now start (O.seen objects.now)
        → option_map start_at result ≡ Some start }
{
    match receiver {
        Value::Ref(name) => start_of_object(objects, *name),
        _ => start_of_plain(receiver),
    }
}

#[tactic(auto, using(crate::proofs::Again::begun_now, crate::proofs::Again::begun_there))]
fn start_of_object<O: Objects>(objects: &O, name: Oid) -> Option<Beginning>
    ensures { (start : Start)
        → Begins name start (O.seen objects.now).setting (O.seen objects.now).world
        → option_map start_at result ≡ Some start }
{
    let object = objects.object(name)?;
    Some(start_by(name, object.class, &object.body))
}

fn start_by(name: Oid, class: Oid, body: &Body) -> Beginning
    ensures { start_at result ≡ start_of_object name class body.now }
{
    match body {
        Body::Class(_) => Beginning {
            class: Some(name),
            class_side: true,
        },
        _ => Beginning {
            class: Some(class),
            class_side: false,
        },
    }
}

// Remembers a receiver that is an object.
fn remember_receiver(
    receivers: &mut Vec<Option<Receiver>>,
    receiver: &Value,
    start: &Beginning,
) -> Result<(), AllocError>
    ensures { (seen : Seen) → BeginsFor receiver.now (start_at start.now) seen
        → AllHeld (IsMet seen) receivers.old.items → AllHeld (IsMet seen) receivers.new.items }
{
    match receiver {
        Value::Ref(name) => meet_object(receivers, *name, start),
        _ => Ok(()),
    }
}

// Remembers an object that was read. Of one that is known all that is remembered stays.
fn meet_object(
    receivers: &mut Vec<Option<Receiver>>,
    name: Oid,
    start: &Beginning,
) -> Result<(), AllocError>
    ensures { (seen : Seen) → Begins name (start_at start.now) seen.setting seen.world
        → AllHeld (IsMet seen) receivers.old.items → AllHeld (IsMet seen) receivers.new.items }
{
    if is_calm(receivers, name) {
        return Ok(());
    }
    remember_object(receivers, name, start)
}

// Remembers an object, and nothing of it but where look-ups for it begin.
fn remember_object(
    receivers: &mut Vec<Option<Receiver>>,
    name: Oid,
    start: &Beginning,
) -> Result<(), AllocError>
    ensures { (seen : Seen) → Begins name (start_at start.now) seen.setting seen.world
        → AllHeld (IsMet seen) receivers.old.items → AllHeld (IsMet seen) receivers.new.items }
{
    let receiver = Receiver {
        name,
        start: start.copy(),
        written: false,
        reads_elements: false,
        puts_elements: false,
    };
    put_receiver(receivers, &receiver)
}

/// Remembers of an object what is known of it, in place of what was remembered before.
pub(crate) fn put_receiver(
    receivers: &mut Vec<Option<Receiver>>,
    receiver: &Receiver,
) -> Result<(), AllocError>
    ensures { (seen : Seen) → IsMet seen receiver.now
        → AllHeld (IsMet seen) receivers.old.items → AllHeld (IsMet seen) receivers.new.items }
{
    let at = place_for(receivers, receiver.name);
    let copy = Receiver {
        start: receiver.start.copy(),
        ..*receiver
    };
    put_at(receivers, at, copy)
}

/// Whether the object of this name is known to be read without a change of anything.
#[tactic(auto, using(crate::proofs::AfterReads::found_reached))]
pub(crate) fn is_calm(receivers: &Vec<Option<Receiver>>, name: Oid) -> bool
    ensures { (seen : Seen) → AllHeld (IsMet seen) receivers.now.items → result ≡ true
        → Reached a_read name seen seen }
{
    object_start(receivers, name).is_some()
}

/// Remembers an object that was read, where what is remembered holds.
pub(crate) fn remember_read<O: Objects, T>(
    memory: &mut Memory<T>,
    objects: &O,
    held: bool,
    name: Oid,
)
    ensures holds { (before : Seen) → Reached a_read name before (O.seen objects.now)
        → Where held (Holds memory.old (O.seen objects.now))
        → Where held (Holds memory.new (O.seen objects.now)) }
    ensures methods { memory.new.methods.items ≡ memory.old.methods.items }
{
    if held {
        remember_object_read(&mut memory.receivers, objects, name);
    }
}

fn remember_object_read<O: Objects>(receivers: &mut Vec<Option<Receiver>>, objects: &O, name: Oid)
    ensures { (before : Seen) → Reached a_read name before (O.seen objects.now)
        → AllHeld (IsMet (O.seen objects.now)) receivers.old.items
        → AllHeld (IsMet (O.seen objects.now)) receivers.new.items }
{
    if let Some(object) = objects.object(name) {
        let start = start_by(name, object.class, &object.body);
        let _ = remember_object(receivers, name, &start);
    }
}

/// Keeps code beside the method that stands at a place. Where nothing stands there nothing changes.
pub(crate) fn keep_at<T: MethodCodeKept>(methods: &mut Vec<Option<Entry<T>>>, at: usize, code: T)
    requires { IfSome (held_at (founds methods.old.items) at) (λ found. T.is_of code found.code) }
    ensures founds { founds methods.new.items ≡ founds methods.old.items }
    ensures found { (seen : Seen) → AllHeld (IsFound seen) methods.old.items
        → AllHeld (IsFound seen) methods.new.items }
    ensures coded { AllHeld (IsCoded T.is_of) methods.old.items
        → AllHeld (IsCoded T.is_of) methods.new.items }
{
    if at >= methods.len() {
        return;
    }
    let entry = mem::replace(&mut methods[at], None);
    methods[at] = with_code(entry, code);
}

// The same look-up with this code beside it.
fn with_code<T: Drop>(entry: Option<Entry<T>>, code: T) -> Option<Entry<T>>
    ensures { result ≡ option_map (coded_by code) entry }
{
    let entry = entry?;
    Some(Entry {
        start: entry.start,
        selector: entry.selector,
        found: entry.found,
        code: Some(code),
    })
}
