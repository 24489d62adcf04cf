//! What follows from the definitions alone. Each law is the contract of a function that does
//! nothing.
ghost use Rattle.std.specs.Prelude.{ℕ};
ghost use Rattle.gem_image.specs.Image.{Image, IsImage, objects_in};
ghost use Rattle.object_programs.specs.gem_sound.Sound.{IsSoundFor};
ghost use Rattle.object_programs.specs.Laws.{Stays};
ghost use Rattle.plain_state.specs.State.{BeginsSound};

use object_programs::laws::{guard_admits, sound_at_place};

/// Where a transaction may begin: on an image that is sound for its user and its names, and at a
/// later place than its view, where both are, and every object of the view is at the place with the
/// same fixed part.
pub fn begins_on_sound_images()
    ensures image { (image : Image) (user serial first : ℕ) → IsImage image
        → IsSoundFor (objects_in image) user serial first
        → BeginsSound image image user serial first }
    ensures later { (place view : Image) (user serial first : ℕ) → Stays view place
        → BeginsSound place place user serial first → BeginsSound view view user serial first
        → BeginsSound place view user serial first }
{
    guard_admits();
    sound_at_place();
}
