// A Stone over the kernel's image and two boxes, for two sessions that commit at once, and its
// calls.
ghost use Rattle.std.specs.Prelude.{◌≡◌, ◌<◌, ◌≤◌, ◌^◌, ℕ, true, false, IfOk, OnOk};
ghost use Rattle.gem_object.specs.gem_value.Oid.{oid_number};
ghost use Rattle.gem_object.specs.Spelling.{IsSpelled};
ghost use Rattle.gem_sound.specs.Sound.{IsSoundImage};
ghost use Rattle.gem_meaning.specs.commit_check.Conflicts.{last_change};
ghost use Rattle.gem_meaning.specs.Serial.{most_at_opening};
ghost use Rattle.stone_tests.specs.Setting.{one_commit, two_sessions, HasBoxes, IsReady};

use gem_image::Image;
use gem_keeper::Keeper;
use gem_object::{Body, Object, Oid, Text, Value, Values};
use gem_sound::names::{ARRAY_CLASS, DATA_CURATOR_SEGMENT, KERNEL_SERIAL};
use image_check::sound;
use kernel_image::kernel;
use kernel_image::laws::kernel_is_unchanged;
use lock_table::LockKind;
use radix_pages::Steps;
use shell_words::{Command, Script, SessionScript};
use std::alloc::{AllocError, Global};
use std::sync::Arc;
use std::sync::ledger::Ledger;
use std::test::Fail;
use stone_core::{CheckAnswer, LockAnswer, Stone, largest_serial};

/// The serial of the boxes.
pub const SERIAL: u32 = 1;

/// The counters of the two boxes.
pub const BOX: u32 = 1;

pub const CUP: u32 = 2;

/// The box with this counter.
pub fn name(counter: u32) -> Oid
    requires { counter < 2 ^ 24 }
    ensures { result ≡ oid_number 1 counter }
{
    Oid::from_parts(SERIAL, counter)
}

fn session(alloc: Global) -> Result<SessionScript, AllocError>
    ensures { IfOk result (λ session. session ≡ one_commit) }
{
    let user = Text::of(Vec::from_slice(alloc, b"DataCurator")?);
    Ok(SessionScript::of(user, vec![in alloc; Command::Commit]?))
}

fn script(alloc: Global) -> Result<Arc<Script>, AllocError>
    ensures { IfOk result (λ script. script.value ≡ two_sessions) }
{
    let sessions = vec![in alloc; session(alloc)?, session(alloc)?]?;
    Ok(Arc::new(alloc, Script::of(sessions))?)
}

// An array of one slot, which the commit with this number changed last.
fn array(alloc: Global, changed: u64) -> Result<Object, AllocError>
    ensures spelled { IfOk result IsSpelled }
    ensures changed { IfOk result (λ array. array.changed ≡ changed) }
{
    Ok(Object {
        class: Oid::from_parts(KERNEL_SERIAL, ARRAY_CLASS),
        segment: Oid::from_parts(KERNEL_SERIAL, DATA_CURATOR_SEGMENT),
        changed,
        body: Body::Plain(Values::of(vec![in alloc; Value::Nil]?)),
    })
}

// The kernel's image with the boxes, which the commit with this number changed last.
fn boxes<L: Ledger>(alloc: Global, changed: u64, steps: &mut Steps<L>) -> Result<Image, AllocError>
    ensures boxes { IfOk result HasBoxes }
    ensures changed { IfOk result (λ image. (oid : ℕ) → last_change image oid ≤ changed) }
{
    let image = kernel(alloc, steps)?;
    kernel_is_unchanged();
    let with_box = image.with(alloc, name(BOX), array(alloc, changed)?, steps)?;
    with_box.with(alloc, name(CUP), array(alloc, changed)?, steps)
}

fn check_sound(alloc: Global, image: &Image) -> Result<(), Fail>
    ensures { OnOk result (IsSoundImage image.now) }
{
    Ok(sound(alloc, image)?)
}

/// A Stone over this keeper that is opened with the kernel's image, the boxes and so many commits,
/// the last of which changed the boxes.
pub fn opened<K: Keeper + Drop, L: Ledger>(
    alloc: Global,
    number: u64,
    keeper: K,
    steps: &mut Steps<L>,
) -> Result<Stone<K>, Fail>
    requires number { number ≤ most_at_opening }
    requires ready { K.ready keeper ≡ true }
    requires silent { K.tells ≡ false }
    ensures { IfOk result (λ stone. IsReady stone.told) }
{
    let image = boxes(alloc, number, steps)?;
    if largest_serial(&image) != SERIAL {
        return Err(Fail::from("the serial of the boxes isn't the largest"));
    }
    check_sound(alloc, &image)?;
    image.invariant();
    let script = script(alloc)?;
    match Stone::start(alloc, image, number, script, keeper) {
        Ok(stone) => Ok(stone),
        Err(_) => Err(Fail::from(AllocError)),
    }
}

/// Asks for a lock on the box with this counter.
pub fn lock<K: Keeper + Drop>(
    stone: &mut Stone<K>,
    session: u32,
    counter: u32,
    kind: LockKind,
) -> LockAnswer
    requires ready { IsReady stone.old.told }
    requires first { 1 ≤ session }
    requires last { session ≤ 2 }
    requires from { 1 ≤ counter }
    requires to { counter ≤ 2 }
    ensures { IsReady stone.new.told }
{
    stone.lock(session, name(counter), kind)
}

/// Gives the lock on the box with this counter back.
pub fn unlock<K: Keeper + Drop>(stone: &mut Stone<K>, session: u32, counter: u32) -> bool
    requires ready { IsReady stone.old.told }
    requires first { 1 ≤ session }
    requires last { session ≤ 2 }
    requires to { counter ≤ 2 }
    ensures { IsReady stone.new.told }
{
    stone.unlock(session, name(counter))
}

/// Ends the session.
pub fn logout<K: Keeper + Drop>(stone: &mut Stone<K>, session: u32) -> bool
    requires ready { IsReady stone.old.told }
    requires first { 1 ≤ session }
    requires last { session ≤ 2 }
    ensures { IsReady stone.new.told }
{
    stone.logout(session)
}

/// Makes a checkpoint for the session.
pub fn checkpoint<K: Keeper + Drop>(
    stone: &mut Stone<K>,
    alloc: Global,
    session: u32,
) -> CheckAnswer
    requires ready { IsReady stone.old.told }
    requires first { 1 ≤ session }
    requires last { session ≤ 2 }
    ensures { IsReady stone.new.told }
{
    stone.checkpoint(alloc, session)
}
