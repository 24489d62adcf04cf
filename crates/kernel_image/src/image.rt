//! The image of the kernel.
ghost use Rattle.std.specs.Prelude.{◌≡◌, ◌+◌, ◌*◌, ◌≤◌, ℕ, IfOk};
ghost use Rattle.std.specs.FinMap as map;
ghost use Rattle.kernel_image.specs.Objects.{kernel_objects, kernel_image};

use crate::build::named_objects;
use gem_image::Image;
use radix_pages::Steps;
use std::alloc::{AllocError, Global};
use std::sync::ledger::Ledger;

/// The image with which a store begins: the classes with their methods, the two segments, the two
/// users, and the dictionaries that lead to them.
///
/// # Errors
///
/// `AllocError` where memory ran out.
pub fn kernel<L: Ledger>(alloc: Global, steps: &mut Steps<L>) -> Result<Image, AllocError>
    ensures image { IfOk result (λ image. image ≡ kernel_image) }
    ensures objects { IfOk result (λ image. (number : ℕ) →
        map.get image number ≡ kernel_objects number) }
    ensures nodes { steps.new ≤ steps.old + 8 * 35 }
{
    Image::empty().with_all(alloc, named_objects(alloc)?, steps)
}
