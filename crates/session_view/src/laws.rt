//! What follows from the definitions alone. Each law is the contract of a function that does
//! nothing.
ghost use Rattle.std.specs.Prelude.{◌≡◌, ◌≢◌, ℕ, true, Some, None};
ghost use Rattle.std.specs.FinMap.{get};
ghost use Rattle.gem_object.specs.Kinds.{is_shared};
ghost use Rattle.gem_object.specs.declared.body.Body.{Body};
ghost use Rattle.gem_update.specs.declared.update.Update.{Update};
ghost use Rattle.gem_image.specs.Image.{Image, Contents, objects_in};
ghost use Rattle.gem_record.specs.gem_world.World.{Setting, World, touch, next_name};
ghost use Rattle.gem_record.specs.gem_world.Changes.{with_body, in_segment};
ghost use Rattle.running_objects.specs.Seen.{Seen, object_at};
ghost use Rattle.plain_state.specs.Parts.{asked};
ghost use Rattle.plain_state.specs.Writes.{changed_to, moved_to, updated_to, added};
ghost use Rattle.plain_state.specs.State.{begun};

/// A view is begun over one image, and no call changes what it is over: every object that isn't
/// among its changes it shows as that image has it.
pub fn image_stays()
    ensures begun { (image : Image) (user serial first name : ℕ)
        → let seen = begun image image user serial first in
        object_at name seen ≡ objects_in image name }
    ensures unchanged { (seen : Seen) (name : ℕ) → seen.setting.view ≡ seen.setting.place
        → get seen.world.changes name ≡ None
        → object_at name seen ≡ objects_in seen.setting.place name }
    ensures looks { (seen : Seen) (name : ℕ) → (asked name seen).setting ≡ seen.setting }
    ensures changes { (seen : Seen) (name : ℕ) (body : Body)
        → (changed_to name body seen).setting ≡ seen.setting }
    ensures moves { (seen : Seen) (name segment : ℕ)
        → (moved_to name segment seen).setting ≡ seen.setting }
    ensures updates { (seen : Seen) (name : ℕ) (update : Update) (body : Body)
        → (updated_to name update body seen).setting ≡ seen.setting }
    ensures makes { (seen : Seen) (object : Contents)
        → (added object seen).setting ≡ seen.setting }
{}

/// What a view shows after its calls: a look leaves every object as it was; a change, a move and an
/// update change the one object alone; one that is made stands under the next name, and all others
/// as before.
pub fn bodies_are_exact()
    ensures looks { (seen : Seen) (name other : ℕ)
        → object_at other (asked name seen) ≡ object_at other seen }
    ensures changed { (seen : Seen) (name : ℕ) (body : Body) (old : Contents)
        → object_at name seen ≡ Some old
        → object_at name (changed_to name body seen) ≡ Some (with_body body old) }
    ensures others { (seen : Seen) (name other : ℕ) (body : Body) → other ≢ name
        → object_at other (changed_to name body seen) ≡ object_at other seen }
    ensures moved { (seen : Seen) (name segment : ℕ) (old : Contents)
        → object_at name seen ≡ Some old
        → object_at name (moved_to name segment seen) ≡ Some (in_segment segment old) }
    ensures stay { (seen : Seen) (name other segment : ℕ) → other ≢ name
        → object_at other (moved_to name segment seen) ≡ object_at other seen }
    ensures updated { (seen : Seen) (name : ℕ) (update : Update) (body : Body) (old : Contents)
        → object_at name seen ≡ Some old
        → object_at name (updated_to name update body seen) ≡ Some (with_body body old) }
    ensures elsewhere { (seen : Seen) (name other : ℕ) (update : Update) (body : Body)
        → other ≢ name
        → object_at other (updated_to name update body seen) ≡ object_at other seen }
    ensures made { (seen : Seen) (object : Contents)
        → object_at (next_name seen.setting seen.world) (added object seen) ≡ Some object }
    ensures beside { (seen : Seen) (object : Contents) (other : ℕ)
        → other ≢ next_name seen.setting seen.world
        → object_at other (added object seen) ≡ object_at other seen }
{}

/// A reduced-conflict object of the image is never touched.
pub fn shared_objects_untouched()
    ensures { (setting : Setting) (world : World) (name : ℕ) (old : Contents)
        → setting.view ≡ setting.place → objects_in setting.place name ≡ Some old
        → is_shared old.body ≡ true → touch name setting world ≡ world }
{}
