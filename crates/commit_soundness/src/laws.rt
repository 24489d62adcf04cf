//! What a commit makes of a sound image. Each law is the contract of a function that does nothing.
ghost use Rattle.std.specs.Prelude.{◌≡◌, ℕ, None};
ghost use Rattle.std.specs.List.{Contains};
ghost use Rattle.std.specs.FinMap.{get};
ghost use Rattle.commit_check.specs.gem_object.declared.object.Object.{Object};
ghost use Rattle.commit_check.specs.gem_image.Image.{IsImage, objects_in};
ghost use Rattle.gem_meaning.specs.gem_sound.Sound.{IsSoundFor, IsSoundImage};
ghost use Rattle.gem_meaning.specs.object_programs.Laws.{Stays};
ghost use Rattle.gem_meaning.specs.Effect.{MergesFit};
ghost use Rattle.commit_soundness.specs.Placing.{Placing, left_by, record_placed, effect_placed, image_made, CanRun, IsDrawnIn};

use commit_check::laws::exactly_the_merged;
use gem_update::laws::spelling_stays;

/// A transaction's commit is placed at a place that is sound for it, whether it ran there or where
/// ordinary objects were as they had been before. Where the merged objects can be stored, the image
/// that the commit makes is sound again and can be stored, also for this user and the names that are
/// still to be drawn. Whether or not they can, objects
/// stay with their fixed parts, each new object has a name that the commands drew, and each changed
/// one has the number of the commit. It may be any number.
///
/// What a merge makes is bounded by no limit of objects: a bag, a dictionary or a queue that was
/// below 2^32 pairs or items at the place may reach them by a merge, and then has no spelling. So
/// that premise stands here.
pub fn commits_keep_images_sound()
    ensures sound { (p : Placing) → CanRun p → MergesFit p.place (record_placed p)
        → IsSoundImage (image_made p) }
    ensures image { (p : Placing) → CanRun p → MergesFit p.place (record_placed p)
        → IsImage (image_made p) }
    ensures goes_on { (p : Placing) → CanRun p → MergesFit p.place (record_placed p)
        → IsSoundFor (objects_in (image_made p)) p.user p.serial (left_by p).next }
    ensures stays { (p : Placing) → CanRun p → Stays p.place (image_made p) }
    ensures drawn { (p : Placing) → CanRun p → (name : ℕ) (object : Object)
        → Contains (effect_placed p) (name, object) → get p.place name ≡ None
        → IsDrawnIn p name }
    ensures stamped { (p : Placing) → (name : ℕ) (object : Object)
        → Contains (effect_placed p) (name, object) → object.changed ≡ p.number }
{
    exactly_the_merged();
    spelling_stays();
}
