//! What follows from the definitions alone. Each law is the contract of a function that does
//! nothing.
ghost use Rattle.std.specs.Prelude.{◌≡◌, ℕ, true, false, List, Option, Some, None, Ok};
ghost use Rattle.gem_object.specs.declared.value.Value.{Value};
ghost use Rattle.gem_object.specs.declared.value.Value.TheVariants as value;
ghost use Rattle.gem_language.specs.tree_meaning.Place.{Frame};
ghost use Rattle.gem_object.specs.texts.Bytes.{Bytes as Text};
ghost use Rattle.running_objects.specs.gem_image.Image.{Contents};
ghost use Rattle.running_objects.specs.gem_world.World.{Setting, World, shown};
ghost use Rattle.running_objects.specs.gem_world.Access.{Access, a_read, is_allowed, with_touches};
ghost use Rattle.gem_object.specs.declared.body.Body.{Body};
ghost use Rattle.gem_object.specs.declared.object.Object.{Object};
ghost use Rattle.gem_update.specs.declared.update.Update.{Update};
ghost use Rattle.running_objects.specs.object_programs.Atom.{Put, Note, Names, Tick, Room, Show};
ghost use Rattle.running_objects.specs.Acted.{Acted, Accessed, Owned, Known, Edited, Made};
ghost use Rattle.gem_language.specs.declared.found.Found.{Found};
ghost use Rattle.gem_language.specs.LookUp.{Start, start_of_receiver, found_at, find_method};
ghost use Rattle.running_objects.specs.Seen.{Seen, object_at, IsSoundState};
ghost use Rattle.running_objects.specs.object_programs.Guard.{chain_limit};
ghost use Rattle.running_objects.specs.object_programs.Run.{give, and_then};
ghost use Rattle.gem_language.specs.tree_meaning.Names.{index_of};
ghost use Rattle.gem_language.specs.prim_rules.Parts.{named_slots};
ghost use Rattle.gem_language.specs.OutOfScope.{instance_names};
ghost use Rattle.prim_parts.specs.Does.{Does, IsThere};
ghost use Rattle.look_up_cache.specs.Lasting.{lasting_body, lasting_of};
ghost use Rattle.look_up_cache.specs.Calm.{Calm, Begins};
ghost use Rattle.look_up_cache.specs.Remembered.{Finds};
ghost use Rattle.look_up_cache.specs.Variables.{Stands};
ghost use Rattle.look_up_cache.specs.Counted.{Counted};
ghost use Rattle.look_up_cache.specs.Operators.{IsAnswered, IntegersAnswer};
ghost use Rattle.look_up_cache.specs.declared.operator.IntegerOperator.{IntegerOperator};
ghost use Rattle.look_up_cache.specs.Memory.{FindsFor};
ghost use Rattle.look_up_cache.specs.Remains.{Remains};

/// What is remembered of a receiver and of a look-up is what they come to now, and nothing changes.
pub fn look_ups_repeat()
    ensures begins { (name : ℕ) (start : Start) (seen : Seen)
        → Begins name start seen.setting seen.world
        → Does (start_of_receiver (value.Ref name)) seen (Ok start) seen }
    ensures finds { (start : Start) (selector : Text) (found : Option Found) (seen : Seen)
        → Finds start selector found seen.setting seen.world
        → Does (found_at start selector) seen (Ok found) seen }
    ensures whole { (frame : Frame) (receiver : Value) (selector : Text) (found : Option Found)
        (seen : Seen) → FindsFor receiver selector found seen
        → Does (find_method false frame receiver selector) seen (Ok found) seen }
{}

/// What is remembered remains where nothing happens that look-ups depend on, and an object that was
/// read is calm from then on.
pub fn memories_stay()
    ensures begins { (name : ℕ) (start : Start) (before after : Seen) → Remains before after
        → Begins name start before.setting before.world
        → Begins name start after.setting after.world }
    ensures finds { (start : Start) (selector : Text) (found : Option Found) (before after : Seen)
        → Remains before after → Finds start selector found before.setting before.world
        → Finds start selector found after.setting after.world }
    ensures calm { (name : ℕ) (object : Contents) (setting : Setting) (world : World)
        → shown name setting world ≡ Some object → is_allowed a_read name setting world ≡ true
        → Calm name (lasting_of object) setting (with_touches name setting world) }
{}

/// A look-up that found something, or that there is nothing, leaves what is remembered of it, and
/// all else that is remembered remains.
pub fn look_ups_are_told()
    ensures { (frame : Frame) (receiver : Value) (selector : Text) (found : Option Found)
        (before after : Seen)
        → Does (find_method false frame receiver selector) before (Ok found) after
        → Remains before after × FindsFor receiver selector found after }
{}

/// In which slot an instance variable stands, and how many slots a class names, is remembered as it
/// is found now, without a change; it remains, as look-ups do, and what was looked for leaves it.
pub fn slots_are_remembered()
    ensures variable { (holder : ℕ) (name : Text) (found : Option ℕ) (seen : Seen)
        → Stands holder name found seen.setting seen.world
        → Does (and_then (instance_names holder) (λ names. give (index_of name names))) seen
        (Ok found) seen }
    ensures count { (class named : ℕ) (seen : Seen) → IsSoundState seen → IsThere class seen
        → Counted seen.setting seen.world chain_limit class named
        → Does (named_slots class) seen (Ok named) seen }
    ensures stands { (holder : ℕ) (name : Text) (found : Option ℕ) (before after : Seen)
        → Remains before after → Stands holder name found before.setting before.world
        → Stands holder name found after.setting after.world }
    ensures counted { (class named : ℕ) (before after : Seen) → Remains before after
        → Counted before.setting before.world chain_limit class named
        → Counted after.setting after.world chain_limit class named }
    ensures told { (holder : ℕ) (name : Text) (found : Option ℕ) (before after : Seen)
        → Does (and_then (instance_names holder) (λ names. give (index_of name names))) before
        (Ok found) after
        → Remains before after × Stands holder name found after.setting after.world }
{}

/// What is remembered of an operator is that integers answer it by the primitive of its number, and
/// it remains.
pub fn operators_are_remembered()
    ensures answers { (operator : IntegerOperator) (seen : Seen) → IsAnswered seen operator
        → IntegersAnswer operator seen }
    ensures remains { (operator : IntegerOperator) (before after : Seen) → Remains before after
        → IsAnswered before operator → IsAnswered after operator }
{}

/// What calls leave that say what an atom does, where they end well: nothing happened that look-ups
/// depend on. A put must leave the body of a class, a segment or a user as it is.
pub fn calls_keep_memories()
    ensures unit { (before after : Seen) → Acted Tick before (Ok tt) after
        → Remains before after }
    ensures room { (slots : ℕ) (before after : Seen) → Acted (Room slots) before (Ok tt) after
        → Remains before after }
    ensures names { (count : ℕ) (before after : Seen) → Acted (Names count) before (Ok tt) after
        → Remains before after }
    ensures show { (text : Text) (before after : Seen) → Acted (Show text) before (Ok tt) after
        → Remains before after }
    ensures access { (access : Access) (name : ℕ) (before after : Seen)
        → Accessed access name before (Ok tt) after → Remains before after }
    ensures own { (before after : Seen) → Owned before (Ok tt) after → Remains before after }
    ensures known { (name : ℕ) (before after : Seen) → Known name before (Ok tt) after
        → Remains before after }
    ensures put { (name : ℕ) (body : Body) (before after : Seen) → lasting_body body ≡ None
        → Acted (Put name body) before (Ok tt) after → Remains before after }
    ensures edited { (name : ℕ) (edit : Body → Body) (object : Contents) (before after : Seen)
        → object_at name before ≡ Some object → ((body : Body) → lasting_body (edit body) ≡ lasting_body body)
        → Edited name edit before (Ok tt) after → Remains before after }
    ensures note { (name : ℕ) (update : Update) (before after : Seen)
        → Acted (Note name update) before (Ok tt) after → Remains before after }
    ensures made { (objects : List Object) (first : ℕ) (before after : Seen)
        → IsSoundState before → Made objects before (Ok first) after → Remains before after }
{}
