//! Transactions of DataCurator, on a plain state or on a view.
ghost use Rattle.std.specs.Prelude.{◌≡◌, ◌<◌, ◌≤◌, ◌^◌, ℕ, true, None, is_some};
ghost use Rattle.gem_object.specs.gem_value.Oid.{oid_number};
ghost use Rattle.gem_sound.specs.declared.names.TheConstants.{KERNEL_SERIAL, DATA_CURATOR};
ghost use Rattle.gem_image.specs.Image.{objects_in};
ghost use Rattle.gem_sound.specs.Parts.{user_at, user_of};
ghost use Rattle.gem_sound.specs.Sound.{IsSoundImage};
ghost use Rattle.plain_state.specs.State.{BeginsSound};

use gem_image::Image;
use gem_object::{Body, Oid};
use gem_sound::names::{DATA_CURATOR, KERNEL_SERIAL};
use image_check::sound;
use kernel_image::kernel;
use kernel_image::laws::{kernel_by_names, kernel_is_sound};
use plain_state::PlainState;
use plain_state::laws::begins_on_sound_images;
use radix_pages::Steps;
use running_objects::RunsChunks;
use session_view::View;
use std::alloc::{AllocError, Global};
use std::sync::ledger::Ledger;

/// The serial of the session.
const SERIAL: u32 = 1;

/// What chunks run on, and a transaction is.
pub trait Begins: RunsChunks + Drop {
    /// A transaction of DataCurator over an image, which draws its names from this counter on.
    fn over(alloc: Global, image: Image, first: u32) -> Result<Self, AllocError>
        requires { BeginsSound image image (oid_number KERNEL_SERIAL DATA_CURATOR) 1
            first };
}

impl Begins for PlainState {
    fn over(alloc: Global, image: Image, first: u32) -> Result<PlainState, AllocError> {
        let view = image.share()?;
        Ok(PlainState::start(alloc, image, view, curator(), SERIAL, first))
    }
}

impl Begins for View {
    fn over(alloc: Global, image: Image, first: u32) -> Result<View, AllocError> {
        View::start(alloc, image, SERIAL, first, curator())
    }
}

// The name of the profile of DataCurator.
fn curator() -> Oid
    ensures { result ≡ oid_number KERNEL_SERIAL DATA_CURATOR }
{
    Oid::from_parts(KERNEL_SERIAL, DATA_CURATOR)
}

/// A transaction of DataCurator on the kernel's objects, which draws its names from this counter
/// on.
pub fn begin<S: Begins, L: Ledger>(
    alloc: Global,
    first: u32,
    steps: &mut Steps<L>,
) -> Result<S, AllocError>
    requires some { 0 < first }
    requires bound { first ≤ 2 ^ 24 }
{
    let image = kernel(alloc, steps)?;
    kernel_is_sound();
    kernel_by_names();
    begins_on_sound_images();
    S::over(alloc, image, first)
}

/// A transaction of DataCurator over any image, if that is sound, and has no object of the names
/// that the transaction may draw.
pub fn begin_over<S: Begins>(
    alloc: Global,
    image: Image,
    first: u32,
) -> Result<Option<S>, AllocError>
    requires some { 0 < first }
    requires bound { first ≤ 2 ^ 24 }
{
    match sound(alloc, &image) {
        Ok(()) => begin_on_sound(alloc, image, first),
        Err(_) => Ok(None),
    }
}

// The same over an image that is sound.
fn begin_on_sound<S: Begins>(
    alloc: Global,
    image: Image,
    first: u32,
) -> Result<Option<S>, AllocError>
    requires sound { IsSoundImage image }
    requires some { 0 < first }
    requires bound { first ≤ 2 ^ 24 }
{
    if !has_curator(&image) {
        return Ok(None);
    }
    if !are_free(&image, first) {
        return Ok(None);
    }
    image.invariant();
    begins_on_sound_images();
    Ok(Some(S::over(alloc, image, first)?))
}

// Whether DataCurator is there.
fn has_curator(image: &Image) -> bool
    ensures { result ≡ is_some (user_at (objects_in image.now)
        (oid_number KERNEL_SERIAL DATA_CURATOR)) }
{
    match image.look(curator()) {
        Some(object) => is_user(&object.body),
        None => false,
    }
}

fn is_user(body: &Body) -> bool
    ensures { result ≡ is_some (user_of body.now) }
{
    matches!(body, Body::User(_))
}

// Whether no object has a name of the session's serial with this counter or a later one.
fn are_free(image: &Image, first: u32) -> bool
    ensures { result ≡ true → (counter : ℕ) → first ≤ counter → counter < 2 ^ 24
        → objects_in image.now (oid_number 1 counter) ≡ None }
{
    let start = (1 << 24) + first as u64;
    match image.next_from(start) {
        Some(entry) => entry.0.number() >= 1 << 25,
        None => true,
    }
}
