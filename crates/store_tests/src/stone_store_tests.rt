// A store that is made, grows, is stored anew and grows again, on a disk that stops behind each of
// its calls, and is opened after each crash. Expected values are worked by hand.
ghost use Rattle.std.specs.Prelude.{◌≡◌, ◌<◌, ◌++◌, ◌∷◌, [], true, is_some, is_ok, IfOk, IfSome, IsTrue};
ghost use Rattle.gem_object.specs.Spelling.{IsOid, IsSpelled};
ghost use Rattle.gem_record.specs.declared.mode.Mode.{Mode};
ghost use Rattle.gem_record.specs.declared.effect.Effect.{Effect};
ghost use Rattle.tran_log.specs.Log.{spelled_record};

use crate::again::body_of;
use crate::untold::Untold;
use body_codec::read_effect;
use gem_disk::{Images, Pick};
use gem_image::Image;
use gem_keeper::Keeper;
use gem_object::{Body, Counter, Object, Oid};
use gem_record::{Effect, Mode};
use kernel_image::kernel;
use radix_pages::Steps;
use std::alloc::{AllocError, Global};
use std::marker::Brand;
use std::process::Abort;
use std::sync::ledger::{Blank, Ledger};
use std::test::Fail;
use stone_store::{FoundImage, Opened, Store, StoreFault, open_store};

// The name 1:3.
fn name() -> Oid
    ensures { IsOid result }
{
    Oid::from_parts(1, 3)
}

// The counter that a commit of this number leaves: its value is the number.
fn counter(number: u16) -> Object
    ensures { IsSpelled result }
{
    Object {
        class: Oid::from_parts(0, 19),
        segment: Oid::from_parts(0, 30),
        changed: u64::from(number),
        body: Body::Counter(Counter {
            value: i64::from(number),
        }),
    }
}

// The effect of such a commit but for the counter's value: one object of this name, class and
// segment.
const ENTRY: &[u8] = b"\x01\0\0\0\x03\0\0\x01\0\0\0\0\x13\0\0\0\0\0\0\0\x1e\0\0\0\0\0\0\0\x06";

fn effect(alloc: Global, number: u16) -> Result<Effect, AllocError> {
    let mut bytes = ENTRY.to_vec(alloc)?;
    bytes.extend_from_slice(&u64::from(number).to_le_bytes())?;
    match read_effect(alloc, &bytes, u64::from(number)) {
        Ok((effect, _)) => Ok(effect),
        Err(_) => Err(AllocError),
    }
}

// The body of the record of an effect.
fn body(alloc: Global, effect: &Effect) -> Result<Vec<u8>, AllocError>
    ensures { IfOk result (λ body. (mode : Mode) × (effect : Effect)
        × (body.items ≡ spelled_record mode effect ++ (0 ∷ []))) }
{
    body_of(alloc, Mode::Full, effect)
}

// The image behind it.
fn image_behind<L: Ledger>(
    alloc: Global,
    number: u16,
    steps: &mut Steps<L>,
) -> Result<Image, AllocError> {
    let image = kernel(alloc, steps)?;
    if number == 0 {
        return Ok(image);
    }
    image.with(alloc, name(), counter(number), steps)
}

// A call on the store: the next commit, or a checkpoint.
#[derive(Clone, Copy, Debug, PartialEq, Eq)]
enum Call {
    Commit,
    Check,
}

// A first checkpoint, three commits, a checkpoint, two commits, a checkpoint and a commit.
const CALLS: &[Call] = &[
    Call::Check,
    Call::Commit,
    Call::Commit,
    Call::Commit,
    Call::Check,
    Call::Commit,
    Call::Commit,
    Call::Check,
    Call::Commit,
];

// What a store is opened to: its number and the value of the counter, 0 where there is none.
#[derive(Clone, Copy, Debug, PartialEq, Eq)]
enum Found {
    Stands(u64, i64),
    Fails,
}

fn value_in(image: &Image) -> i64 {
    match image.look(name()) {
        Some(
            Object {
                body: Body::Counter(counter),
                ..
            },
        ) => counter.value,
        _ => 0,
    }
}

fn what_stands(given: &Result<FoundImage, StoreFault>) -> Found {
    match given {
        Ok(found) => Found::Stands(found.number, value_in(&found.image)),
        Err(_) => Found::Fails,
    }
}

// Adds the next commit.
fn commit(alloc: Global, store: &mut Store<Untold>, number: u16) -> Result<Option<u16>, AllocError>
    requires { is_some store.old.parts ≡ true }
    ensures { IfOk result (λ next. IfSome next (λ _. is_some store.new.parts ≡ true)) }
{
    let next = number.saturating_add(1);
    let body = body(alloc, &effect(alloc, next)?)?;
    match store.append(&body) {
        Ok(()) => Ok(Some(next)),
        Err(_) => Ok(None),
    }
}

// Makes a checkpoint.
fn checkpoint<L: Ledger>(
    alloc: Global,
    store: &mut Store<Untold>,
    number: u16,
    steps: &mut Steps<L>,
) -> Result<Option<u16>, AllocError>
    requires { is_some store.old.parts ≡ true }
    ensures { IfOk result (λ next. IfSome next (λ _. is_some store.new.parts ≡ true)) }
{
    let image = image_behind(alloc, number, steps)?;
    match store.checkpoint(alloc, &image, u64::from(number)) {
        Ok(()) => Ok(Some(number)),
        Err(_) => Ok(None),
    }
}

// One call, where this is the number so far: the number behind it, if it went well.
fn make<L: Ledger>(
    alloc: Global,
    store: &mut Store<Untold>,
    call: Call,
    number: u16,
    steps: &mut Steps<L>,
) -> Result<Option<u16>, AllocError>
    requires { is_some store.old.parts ≡ true }
    ensures { IfOk result (λ next. IfSome next (λ _. is_some store.new.parts ≡ true)) }
{
    match call {
        Call::Commit => commit(alloc, store, number),
        Call::Check => checkpoint(alloc, store, number, steps),
    }
}

// How far the calls came: the number of the last commit that was acknowledged, whether the call that
// failed was a commit, and whether none failed.
#[derive(Clone, Copy)]
struct Served {
    number: u16,
    in_flight: bool,
    done: bool,
}

fn serve<L: Ledger>(
    alloc: Global,
    store: &mut Store<Untold>,
    steps: &mut Steps<L>,
) -> Result<Served, AllocError>
    requires { is_some store.old.parts ≡ true }
{
    let mut number: u16 = 0;
    for call in CALLS {
        match make(alloc, store, *call, number, steps)? {
            Some(next) => number = next,
            None => {
                return Ok(Served {
                    number,
                    in_flight: *call == Call::Commit,
                    done: false,
                });
            }
        }
    }
    Ok(Served {
        number,
        in_flight: false,
        done: true,
    })
}

// What is left by the calls on a disk that stops behind so many of its own.
#[derive(Drop)]
struct Left {
    served: Served,
    images: Images,
}

fn run<L: Ledger>(
    alloc: Global,
    stop: u64,
    pick: Pick,
    steps: &mut Steps<L>,
) -> Result<Left, AllocError> {
    let mut disk = Untold::new(Vec::new(alloc), Vec::new(alloc));
    disk.stop_after(stop);
    let Opened {
        result: given,
        mut store,
    } = open_store(alloc, disk);
    let served = if given.is_ok() {
        serve(alloc, &mut store, steps)?
    } else {
        Served {
            number: 0,
            in_flight: false,
            done: false,
        }
    };
    let images = store.close().crash(pick)?;
    Ok(Left { served, images })
}

// Whether what is left is opened to the last commit that was acknowledged, or to the one in flight.
fn is_kept<L: Ledger>(
    alloc: Global,
    stop: u64,
    pick: Pick,
    steps: &mut Steps<L>,
) -> Result<bool, AllocError> {
    let Left { served, images } = run(alloc, stop, pick, steps)?;
    let Images { extent, log } = images;
    let opened = open_store(alloc, Untold::new(log, extent));
    let found = what_stands(&opened.result);
    let number = served.number;
    let next = number.saturating_add(1);
    let stands = found == Found::Stands(u64::from(number), i64::from(number));
    let flies = found == Found::Stands(u64::from(next), i64::from(next));
    Ok(stands || (served.in_flight && flies))
}

// The same wherever the disk stops from one call of it up to another one.
fn check_stops<R: Abort, L: Ledger>(
    rt: &R,
    alloc: Global,
    blank: Blank,
    from: u64,
    to: u64,
    pick: Pick,
) -> Result<(), Fail>
    requires name { blank.name ≡ L.name }
    requires parts { blank.parts ≡ L.parts }
    requires some_parts { 0 < L.parts }
{
    let mut steps = Steps::<L>::start(blank);
    for stop in from..to {
        assert!(rt; is_kept(alloc, stop, pick, &mut steps)?);
    }
    Ok(())
}

fn check_whole<R: Abort, L: Ledger>(rt: &R, alloc: Global, blank: Blank) -> Result<(), Fail>
    requires name { blank.name ≡ L.name }
    requires parts { blank.parts ≡ L.parts }
    requires some_parts { 0 < L.parts }
{
    let mut steps = Steps::<L>::start(blank);
    let whole = run(alloc, 1_000, Pick::Old, &mut steps)?;
    assert!(rt; whole.served.done);
    assert_eq!(rt; whole.served.number, 6);
    Ok(())
}

#[test]
fn whole_run(rt: HostRuntime) -> Result<(), Fail> {
    check_whole::<HostRuntime, Brand>(&rt, rt.alloc(), Blank::new(1))
}

#[test]
fn stopped_and_lost(rt: HostRuntime) -> Result<(), Fail> {
    check_stops::<HostRuntime, Brand>(&rt, rt.alloc(), Blank::new(1), 0, 96, Pick::Old)
}

#[test]
fn stopped_and_kept(rt: HostRuntime) -> Result<(), Fail> {
    check_stops::<HostRuntime, Brand>(&rt, rt.alloc(), Blank::new(1), 0, 96, Pick::New)
}

#[test]
fn stopped_and_torn(rt: HostRuntime) -> Result<(), Fail> {
    check_stops::<HostRuntime, Brand>(&rt, rt.alloc(), Blank::new(1), 0, 96, Pick::Torn(0))
}
