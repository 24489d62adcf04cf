//! What follows from the definitions alone. Each law is the contract of a function that does
//! nothing.
ghost use Rattle.std.specs.Prelude.{◌≡◌, ◌⊎◌, ◌↔◌, ◌<◌, ◌≤◌, ◌-◌, ◌+◌, ℕ, true, false, List, [], ◌∷◌, ◌++◌, length, Some, None, IsSome, is_some};
ghost use Rattle.std.specs.FinMap.{get};
ghost use Rattle.std.specs.List.{list_all};
ghost use Rattle.std.specs.Option.{IfSome};
ghost use Rattle.gem_object.specs.texts.Bytes.{Bytes as Text};
ghost use Rattle.gem_object.specs.Kinds.{is_shared};
ghost use Rattle.gem_object.specs.Spelling.{IsSpelledBody};
ghost use Rattle.gem_object.specs.declared.body.Body.{Body};
ghost use Rattle.gem_world.specs.gem_update.Update.{updated};
ghost use Rattle.gem_world.specs.gem_update.declared.update.Update.{Update};
ghost use Rattle.gem_world.specs.gem_image.Image.{Image, IsImage, Contents, Objects, objects_in};
ghost use Rattle.gem_world.specs.World.{Setting, World, untouched, name_of, shown, is_made, with_name, touch};
ghost use Rattle.gem_world.specs.Access.{IsTouched, a_read, a_write, is_allowed, with_touches};
ghost use Rattle.gem_world.specs.Changes.{with_body, in_segment, put};
ghost use Rattle.gem_sound.specs.Kernel.{kernel_body};
ghost use Rattle.gem_sound.specs.Parts.{class_of};
ghost use Rattle.gem_sound.specs.Sound.{HasMethods, KeepsRule, i1, i2, i3, i4, i5, IsSoundFor};
ghost use Rattle.object_programs.specs.Budget.{Budget, bytes_cost, is_within_limits};
ghost use Rattle.object_programs.specs.Fixed.{fixed_of, fixed_by};
ghost use Rattle.object_programs.specs.Spelled.{is_spelled};
ghost use Rattle.object_programs.specs.Methods.{methods_fit};
ghost use Rattle.object_programs.specs.Guard.{may_replace, parts_with_new, may_make};
ghost use Rattle.object_programs.specs.Atom.{Ask, Own, Kind, Made, Who, Put, Move, Note, Names, Make, Tick, Room, Show, says, done, refused, touch_missing, objects_cost, with_new, asked_by_all};
ghost use Rattle.object_programs.specs.Steps.{Step, after_steps};
ghost use Rattle.object_programs.specs.Laws.{begun_at, rebased, Stays, AgreeOnTouched, Falls, KeepsParts, AreFree, IsInReach, MightWrite, UpdatesTell, AreSound, HasSpelling, AreStored, answered, lacking, Shows};

use crate::fault::Fault;
use crate::limits::{COUNTER_LIMIT, TRANSCRIPT_LIMIT};

/// Whatever commands are performed, what was touched stays touched.
pub fn touches_grow()
    ensures { (steps : List Step) (setting : Setting) (world : World) (budget : Budget) (name : ℕ)
        → IsTouched name world
        → IsTouched name (after_steps steps setting world budget).state.world }
{}

/// Whatever commands are performed, units and space never grow, and each name that is drawn takes
/// space.
pub fn budgets_fall()
    ensures { (steps : List Step) (setting : Setting) (world : World) (budget : Budget)
        → let after = (after_steps steps setting world budget).state in
        Falls world budget after.world after.budget }
{}

/// Commands do the same at two places that have the same at each name that was touched, where
/// every object of the one is in the other with the same fixed part.
pub fn frame()
    ensures { (steps : List Step) (setting : Setting) (world : World) (budget : Budget)
        (other : Image) → Stays setting.place other
        → AgreeOnTouched setting.place other (after_steps steps setting world budget).state.world
        → after_steps steps (rebased other setting) world budget
        ≡ after_steps steps setting world budget }
{}

/// Whatever commands are performed, every fixed part stays, where the names that are still to be
/// drawn are free.
pub fn fixed_parts_stay()
    ensures { (steps : List Step) (setting : Setting) (world : World) (budget : Budget)
        → AreFree setting world
        → KeepsParts (fixed_by setting world)
        (fixed_by setting (after_steps steps setting world budget).state.world) }
{}

/// Whatever commands are performed, what is written, made or updated has a name that was drawn in
/// the transaction, or one at which there was an object before.
pub fn names_are_drawn()
    ensures { (steps : List Step) (setting : Setting) (world : World) (budget : Budget)
        → IsInReach setting world
        → IsInReach setting (after_steps steps setting world budget).state.world }
{}

/// Whatever commands are performed, what comes among the changes was made in the transaction, or
/// the user might write it at the beginning of one of the commands.
pub fn written_or_made()
    ensures { (steps : List Step) (setting : Setting) (world : World) (budget : Budget) (name : ℕ)
        → setting.first ≤ world.next → get world.changes name ≡ None
        → let after = (after_steps steps setting world budget).state.world in
        is_some (get after.changes name) ≡ true
        → (is_made name setting after ≡ true) ⊎ MightWrite name steps setting world budget }
{}

/// Whatever commands are performed, sound objects stay sound.
pub fn soundness_stays()
    ensures { (steps : List Step) (setting : Setting) (world : World) (budget : Budget)
        → AreSound setting world
        → AreSound setting (after_steps steps setting world budget).state.world }
{}

/// Whatever commands are performed, a reduced-conflict object that was there before, and wasn't
/// made in the transaction, is changed by its noted updates alone: class and segment stay, and its
/// body is the one before after these updates in their order. So it is before anything is done.
pub fn updates_tell_shared()
    ensures stays { (steps : List Step) (setting : Setting) (world : World) (budget : Budget)
        → UpdatesTell setting world
        → UpdatesTell setting (after_steps steps setting world budget).state.world }
    ensures begins { (setting : Setting) → UpdatesTell setting (untouched setting.first) }
{}

/// What accesses and questions say and leave. A read and a write touch the object, its segment and
/// the user's profile, and then the right decides; a name without an object is touched alone. An
/// allowed write leaves an ordinary object written, as it is. The user's own profile is looked at
/// without a right; a fixed part is seen without a touch.
pub fn accesses_are_exact()
    ensures read { (name : ℕ) (setting : Setting) (world : World) (budget : Budget)
        (object : Contents) → is_allowed a_read name setting world ≡ true
        → shown name setting world ≡ Some object → done (Ask a_read name) setting world budget
        ≡ answered object (with_touches name setting world) budget }
    ensures write { (name : ℕ) (setting : Setting) (world : World) (budget : Budget)
        (object : Contents) → is_allowed a_write name setting world ≡ true
        → shown name setting world ≡ Some object → is_shared object.body ≡ false
        → done (Ask a_write name) setting world budget
        ≡ answered object (put name object (with_touches name setting world)) budget }
    ensures write_shared { (name : ℕ) (setting : Setting) (world : World) (budget : Budget)
        (object : Contents) → is_allowed a_write name setting world ≡ true
        → shown name setting world ≡ Some object → is_shared object.body ≡ true
        → done (Ask a_write name) setting world budget
        ≡ answered object (with_touches name setting world) budget }
    ensures read_refused { (name : ℕ) (setting : Setting) (world : World) (budget : Budget)
        → is_allowed a_read name setting world ≡ false → done (Ask a_read name) setting world budget
        ≡ refused (Fault.NoReadRight name) (with_touches name setting world) budget }
    ensures write_refused { (name : ℕ) (setting : Setting) (world : World) (budget : Budget)
        → is_allowed a_write name setting world ≡ false
        → done (Ask a_write name) setting world budget
        ≡ refused (Fault.NoWriteRight name) (with_touches name setting world) budget }
    ensures read_nothing { (name : ℕ) (setting : Setting) (world : World) (budget : Budget)
        → shown name setting world ≡ None → done (Ask a_read name) setting world budget
        ≡ refused (Fault.NoReadRight name) (touch name setting world) budget }
    ensures write_nothing { (name : ℕ) (setting : Setting) (world : World) (budget : Budget)
        → shown name setting world ≡ None → done (Ask a_write name) setting world budget
        ≡ refused (Fault.NoWriteRight name) (touch name setting world) budget }
    ensures own { (setting : Setting) (world : World) (budget : Budget)
        → done Own setting world budget
        ≡ answered (shown setting.user setting world) (touch setting.user setting world) budget }
    ensures kind { (name : ℕ) (setting : Setting) (world : World) (budget : Budget)
        (object : Contents) → shown name setting world ≡ Some object
        → done (Kind name) setting world budget ≡ answered (Some (fixed_of object)) world budget }
    ensures kind_nothing { (name : ℕ) (setting : Setting) (world : World) (budget : Budget)
        → shown name setting world ≡ None → done (Kind name) setting world budget
        ≡ answered None (record world { touched = with_name world.touched name }) budget }
    ensures made { (name : ℕ) (setting : Setting) (world : World) (budget : Budget)
        → done (Made name) setting world budget
        ≡ answered (is_made name setting world) world budget }
    ensures who { (setting : Setting) (world : World) (budget : Budget)
        → done Who setting world budget ≡ answered setting.user world budget }
{}

/// What puts and moves leave; they say nothing. They act only on an object among the changes: one
/// that was made here, or an ordinary one, which was written before. Where the new object doesn't
/// fit, or the object is a reduced-conflict one that wasn't made here, nothing changes but that the
/// names are touched which the new object lacks. At another name nothing happens at all: so nothing
/// is changed that wasn't made or asked for.
pub fn edits_are_exact()
    ensures put_made { (name : ℕ) (body : Body) (setting : Setting)
        (world : World) (budget : Budget) (old : Contents)
        → get world.changes name ≡ Some old → is_made name setting world ≡ true
        → may_replace name old (with_body body old) setting world ≡ true
        → done (Put name body) setting world budget
        ≡ answered tt (put name (with_body body old) world) budget }
    ensures put_written { (name : ℕ) (body : Body) (setting : Setting)
        (world : World) (budget : Budget) (old : Contents)
        → get world.changes name ≡ Some old → is_shared old.body ≡ false
        → may_replace name old (with_body body old) setting world ≡ true
        → done (Put name body) setting world budget
        ≡ answered tt (put name (with_body body old) world) budget }
    ensures put_shared { (name : ℕ) (body : Body) (setting : Setting)
        (world : World) (budget : Budget) (old : Contents)
        → get world.changes name ≡ Some old → is_made name setting world ≡ false
        → is_shared old.body ≡ true → done (Put name body) setting world budget
        ≡ answered tt (lacking name (with_body body old) setting world) budget }
    ensures put_unfit { (name : ℕ) (body : Body) (setting : Setting)
        (world : World) (budget : Budget) (old : Contents)
        → get world.changes name ≡ Some old
        → may_replace name old (with_body body old) setting world ≡ false
        → done (Put name body) setting world budget
        ≡ answered tt (lacking name (with_body body old) setting world) budget }
    ensures put_apart { (name : ℕ) (body : Body) (setting : Setting)
        (world : World) (budget : Budget)
        → get world.changes name ≡ None
        → done (Put name body) setting world budget ≡ answered tt world budget }
    ensures move_made { (name : ℕ) (segment : ℕ) (setting : Setting)
        (world : World) (budget : Budget) (old : Contents)
        → get world.changes name ≡ Some old → is_made name setting world ≡ true
        → may_replace name old (in_segment segment old) setting world ≡ true
        → done (Move name segment) setting world budget
        ≡ answered tt (put name (in_segment segment old) world) budget }
    ensures move_written { (name : ℕ) (segment : ℕ) (setting : Setting)
        (world : World) (budget : Budget) (old : Contents)
        → get world.changes name ≡ Some old → is_shared old.body ≡ false
        → may_replace name old (in_segment segment old) setting world ≡ true
        → done (Move name segment) setting world budget
        ≡ answered tt (put name (in_segment segment old) world) budget }
    ensures move_shared { (name : ℕ) (segment : ℕ) (setting : Setting)
        (world : World) (budget : Budget) (old : Contents)
        → get world.changes name ≡ Some old → is_made name setting world ≡ false
        → is_shared old.body ≡ true → done (Move name segment) setting world budget
        ≡ answered tt (lacking name (in_segment segment old) setting world) budget }
    ensures move_unfit { (name : ℕ) (segment : ℕ) (setting : Setting)
        (world : World) (budget : Budget) (old : Contents)
        → get world.changes name ≡ Some old
        → may_replace name old (in_segment segment old) setting world ≡ false
        → done (Move name segment) setting world budget
        ≡ answered tt (lacking name (in_segment segment old) setting world) budget }
    ensures move_apart { (name : ℕ) (segment : ℕ) (setting : Setting)
        (world : World) (budget : Budget)
        → get world.changes name ≡ None
        → done (Move name segment) setting world budget ≡ answered tt world budget }
{}

/// What updates leave; they say nothing. The touches are those of a write. Where the user may write
/// the object, and its body takes the update, it has the updated body from then on; the update is
/// noted, unless the object was made here. Else nothing else changes.
pub fn updates_are_exact()
    ensures nothing { (name : ℕ) (update : Update) (setting : Setting)
        (world : World) (budget : Budget)
        → shown name setting world ≡ None → done (Note name update) setting world budget
        ≡ answered tt (touch name setting world) budget }
    ensures forbidden { (name : ℕ) (update : Update) (setting : Setting)
        (world : World) (budget : Budget)
        → is_allowed a_write name setting world ≡ false
        → done (Note name update) setting world budget
        ≡ answered tt (with_touches name setting world) budget }
    ensures refused { (name : ℕ) (update : Update) (setting : Setting)
        (world : World) (budget : Budget) (old : Contents)
        → is_allowed a_write name setting world ≡ true → shown name setting world ≡ Some old
        → updated update old.body ≡ None → done (Note name update) setting world budget
        ≡ answered tt (with_touches name setting world) budget }
    ensures noted { (name : ℕ) (update : Update) (setting : Setting)
        (world : World) (budget : Budget) (old : Contents)
        (body : Body) → is_allowed a_write name setting world ≡ true
        → shown name setting world ≡ Some old → updated update old.body ≡ Some body
        → may_replace name old (with_body body old) setting world ≡ true
        → is_made name setting world ≡ false → let now = with_touches name setting world in
        done (Note name update) setting world budget ≡ answered tt
        (put name (with_body body old)
        (record now { updates = now.updates ++ (name, update) ∷ [] })) budget }
    ensures made { (name : ℕ) (update : Update) (setting : Setting)
        (world : World) (budget : Budget) (old : Contents)
        (body : Body) → is_allowed a_write name setting world ≡ true
        → shown name setting world ≡ Some old → updated update old.body ≡ Some body
        → may_replace name old (with_body body old) setting world ≡ true
        → is_made name setting world ≡ true → done (Note name update) setting world budget
        ≡ answered tt (put name (with_body body old) (with_touches name setting world)) budget }
    ensures unfit { (name : ℕ) (update : Update) (setting : Setting)
        (world : World) (budget : Budget) (old : Contents)
        (body : Body) → is_allowed a_write name setting world ≡ true
        → shown name setting world ≡ Some old → updated update old.body ≡ Some body
        → may_replace name old (with_body body old) setting world ≡ false
        → done (Note name update) setting world budget
        ≡ answered tt (lacking name (with_body body old) setting (with_touches name setting world))
        budget }
{}

/// What is asked of budgets, and what it takes: names (E16), units (E13), space (E15), and room on
/// the transcript (E17 before E15). A refusal takes nothing.
pub fn budgets_are_exact()
    ensures names { (setting : Setting) (world : World) (budget : Budget) (count : ℕ)
        → world.next + count ≤ COUNTER_LIMIT
        → done (Names count) setting world budget ≡ answered tt world budget }
    ensures names_used_up { (setting : Setting) (world : World) (budget : Budget) (count : ℕ)
        → COUNTER_LIMIT < world.next + count
        → done (Names count) setting world budget ≡ refused Fault.NamesUsedUp world budget }
    ensures unit { (setting : Setting) (world : World) (budget : Budget) → 0 < budget.units
        → done Tick setting world budget
        ≡ answered tt world (record budget { units = budget.units - 1 }) }
    ensures no_unit { (setting : Setting) (world : World) (budget : Budget) → budget.units ≡ 0
        → done Tick setting world budget ≡ refused Fault.SendBudget world budget }
    ensures room { (setting : Setting) (world : World) (budget : Budget) (slots : ℕ)
        → slots ≤ budget.slots → done (Room slots) setting world budget
        ≡ answered tt world (record budget { slots = budget.slots - slots }) }
    ensures no_room { (setting : Setting) (world : World) (budget : Budget) (slots : ℕ)
        → budget.slots < slots
        → done (Room slots) setting world budget ≡ refused Fault.Space world budget }
    ensures show { (setting : Setting) (world : World) (budget : Budget) (text : Text)
        → length budget.text + length text ≤ TRANSCRIPT_LIMIT
        → bytes_cost (length text) ≤ budget.slots → done (Show text) setting world budget
        ≡ answered tt world (record {
          units = budget.units;
          slots = budget.slots - bytes_cost (length text);
          text = budget.text ++ text;
        }) }
    ensures show_long { (setting : Setting) (world : World) (budget : Budget) (text : Text)
        → TRANSCRIPT_LIMIT < length budget.text + length text
        → done (Show text) setting world budget ≡ refused Fault.ObjectTooLarge world budget }
    ensures show_no_room { (setting : Setting) (world : World) (budget : Budget) (text : Text)
        → length budget.text + length text ≤ TRANSCRIPT_LIMIT
        → budget.slots < bytes_cost (length text)
        → done (Show text) setting world budget ≡ refused Fault.Space world budget }
{}

/// A make asks for the size first (E17), then for names (E16), then for space (E15), and a refusal
/// changes nothing. After that objects that fit are made, one after the other, and take their
/// space; others are refused (E17), and the names that they lack are touched.
pub fn makes_in_order()
    ensures large { (objects_at : ℕ → List Contents) (setting : Setting) (world : World)
        (budget : Budget) → let objects = objects_at (name_of setting world.next) in
        list_all is_within_limits objects ≡ false
        → done (Make objects_at) setting world budget
        ≡ refused Fault.ObjectTooLarge world budget }
    ensures used_up { (objects_at : ℕ → List Contents) (setting : Setting) (world : World)
        (budget : Budget) → let objects = objects_at (name_of setting world.next) in
        list_all is_within_limits objects ≡ true → COUNTER_LIMIT < world.next + length objects
        → done (Make objects_at) setting world budget ≡ refused Fault.NamesUsedUp world budget }
    ensures too_little { (objects_at : ℕ → List Contents) (setting : Setting) (world : World)
        (budget : Budget) → let objects = objects_at (name_of setting world.next) in
        list_all is_within_limits objects ≡ true → world.next + length objects ≤ COUNTER_LIMIT
        → budget.slots < objects_cost objects
        → done (Make objects_at) setting world budget ≡ refused Fault.Space world budget }
    ensures made { (objects_at : ℕ → List Contents) (setting : Setting) (world : World)
        (budget : Budget) → let objects = objects_at (name_of setting world.next) in
        may_make objects setting world ≡ true → list_all is_within_limits objects ≡ true
        → world.next + length objects ≤ COUNTER_LIMIT → objects_cost objects ≤ budget.slots
        → done (Make objects_at) setting world budget ≡ record {
          answer = says (name_of setting world.next);
          world = with_new objects setting world;
          budget = record budget { slots = budget.slots - objects_cost objects };
        } }
    ensures unfit { (objects_at : ℕ → List Contents) (setting : Setting) (world : World)
        (budget : Budget) → let objects = objects_at (name_of setting world.next) in
        may_make objects setting world ≡ false → list_all is_within_limits objects ≡ true
        → world.next + length objects ≤ COUNTER_LIMIT → objects_cost objects ≤ budget.slots
        → let parts = parts_with_new objects setting world in
        done (Make objects_at) setting world budget ≡ refused Fault.ObjectTooLarge
        (touch_missing parts (asked_by_all parts objects) world) budget }
{}

/// The guard's tests of bodies tell what is meant: a body passes where it has a spelling, and the
/// methods of a class where the rule on methods is kept, and nowhere else.
pub fn what_is_spelled()
    ensures bodies { (body : Body) → is_spelled body ≡ true ↔ IsSpelledBody body }
    ensures methods { (name : ℕ) (body : Body)
        → methods_fit name body ≡ true ↔ IfSome (class_of body) (HasMethods name) }
{}

/// What is sound by the tests of the guard keeps the rules of a sound image, and can be stored: so
/// does each of the objects which are seen.
pub fn sound_objects_keep_the_rules()
    ensures references { (objects : Objects) (setting : Setting) (world : World)
        → Shows objects setting world → AreSound setting world → (number : ℕ) (object : Contents)
        → objects number ≡ Some object → KeepsRule objects i1 number object }
    ensures methods { (objects : Objects) (setting : Setting) (world : World)
        → Shows objects setting world → AreSound setting world → (number : ℕ) (object : Contents)
        → objects number ≡ Some object → KeepsRule objects i2 number object }
    ensures classes { (objects : Objects) (setting : Setting) (world : World)
        → Shows objects setting world → AreSound setting world → (number : ℕ) (object : Contents)
        → objects number ≡ Some object → KeepsRule objects i3 number object }
    ensures bodies { (objects : Objects) (setting : Setting) (world : World)
        → Shows objects setting world → AreSound setting world → (number : ℕ) (object : Contents)
        → objects number ≡ Some object → KeepsRule objects i4 number object }
    ensures fitting { (objects : Objects) (setting : Setting) (world : World)
        → Shows objects setting world → AreSound setting world → (number : ℕ) (object : Contents)
        → objects number ≡ Some object → KeepsRule objects i5 number object }
    ensures spelled { (objects : Objects) (setting : Setting) (world : World)
        → Shows objects setting world → AreSound setting world → (number : ℕ) (object : Contents)
        → objects number ≡ Some object → HasSpelling object }
    ensures kernel { (objects : Objects) (setting : Setting) (world : World)
        → Shows objects setting world → AreSound setting world → (number : ℕ)
        → IsSome (kernel_body number) → IsSome (objects number) }
    ensures all { (objects : Objects) (setting : Setting) (world : World)
        → Shows objects setting world → AreSound setting world
        → IsSoundFor objects setting.user setting.serial world.next × AreStored objects }
{}

/// Sound objects that can be stored pass the tests of the guard: so a transaction can begin on a
/// sound image.
pub fn guard_admits()
    ensures objects { (objects : Objects) (setting : Setting) (world : World)
        → Shows objects setting world → AreStored objects
        → IsSoundFor objects setting.user setting.serial world.next → AreSound setting world }
    ensures image { (image : Image) (user serial first : ℕ) → IsImage image
        → IsSoundFor (objects_in image) user serial first
        → AreSound (begun_at image image user serial first) (untouched first) }
{}

/// A transaction that begins at a later place than its view sees sound objects too: where place and
/// view are both sound for it, and every object of the view is at the place with the same fixed
/// part, so are the ordinary objects of the place with the reduced-conflict ones of the view.
pub fn sound_at_place()
    ensures { (place view : Image) (user serial first : ℕ) → Stays view place
        → AreSound (begun_at place place user serial first) (untouched first)
        → AreSound (begun_at view view user serial first) (untouched first)
        → AreSound (begun_at place view user serial first) (untouched first) }
{}
