//! What a running transaction may do to objects.
ghost use Rattle.std.specs.Prelude.{◌≡◌, ◌<◌, ℕ, true, List, Option, map, SomeIff, IfSome, OnOk, OnErr, option_map, option_copied, Some, None};
ghost use Rattle.std.specs.List.{list_all};
ghost use Rattle.std.specs.Result.{IfErr};
ghost use Rattle.gem_object.specs.Edits.{with_slot, with_slot_more, without_slot, with_byte, with_value_at, without_value_at};
ghost use Rattle.object_programs.specs.gem_image.Image.{contents_of};
ghost use Rattle.object_programs.specs.gem_world.World.{is_made, next_name};
ghost use Rattle.object_programs.specs.gem_world.Access.{a_read, a_write};
ghost use Rattle.object_programs.specs.Methods.{methods_fit};
ghost use Rattle.object_programs.specs.Atom.{Put, Move, Note, Names, Tick, Room, Show};
ghost use Rattle.object_programs.specs.declared.limits.TheConstants.{COUNTER_LIMIT};
ghost use Rattle.running_objects.specs.Seen.{Seen, object_at, IsSoundState};
ghost use Rattle.running_objects.specs.Acted.{Acted, Accessed, Owned, Known, Edited, EditedWithin, Made, stored_bytes};

use crate::stop::Stop;
use gem_object::{Body, Object, Oid, Value};
use gem_update::Update;

/// The objects of a running transaction, with its budget. Code that is written over this trait runs
/// on any state that has it.
///
/// Each call that may change something says by one atom what it does, and what holds where memory
/// ran out: then it stops with `NoMemory`, and objects, budget and names are as the atom's laws let
/// them be. A call whose object or value doesn't fit changes nothing, as the atom says; what is
/// missing is touched.
pub trait Objects {
    /// What the state shows.
    ghost seen: { Self → Seen };

    /// What holds of every state: its objects are sound. It does nothing at run time.
    fn sound(&self)
        ensures { IsSoundState (seen self.now) };

    /// The name of the user. It takes no memory, and touches nothing.
    fn user(&self) -> Oid
        ensures { result ≡ (seen self.now).setting.user };

    /// The name that is drawn next; None where no name is left. It takes no memory.
    fn next_name(&self) -> Option<Oid>
        ensures { SomeIff result ((seen self.now).world.next < COUNTER_LIMIT)
            (next_name (seen self.now).setting (seen self.now).world) };

    /// The object of this name, if there is one, as it is now. It takes no memory, asks for no
    /// right and touches nothing: it serves to see what an access or `know` has allowed. What it
    /// says of the number of the last commit isn't claimed.
    fn object(&self, oid: Oid) -> Option<&Object>
        ensures { option_map contents_of (option_copied result) ≡ object_at oid (seen self.now) };

    /// Whether the object of this name was made in the transaction. It takes no memory.
    fn is_made(&self, oid: Oid) -> bool
        ensures { result ≡ is_made oid (seen self.now).setting (seen self.now).world };

    /// The bytes that the fields of the object's body take where it is stored; the number stays at
    /// 2^64 - 1 once it is there. Of an object that was written or made it is known without a look
    /// at its contents. It takes no memory.
    fn stored_bytes(&self, oid: Oid) -> Option<u64>
        ensures { result ≡ option_map stored_bytes (object_at oid (seen self.now)) };

    /// Takes a unit: E13 where none is left.
    fn tick(&mut self) -> Result<(), Stop>
        ensures { Acted Tick (seen self.old) result (seen self.new) };

    /// Takes so much space: E15 where there is less.
    fn room(&mut self, slots: u64) -> Result<(), Stop>
        ensures { Acted (Room slots) (seen self.old) result (seen self.new) };

    /// Whether so many names can still be drawn: E16 where they can't. It draws none.
    fn names(&mut self, count: u64) -> Result<(), Stop>
        ensures { Acted (Names count) (seen self.old) result (seen self.new) };

    /// Writes a text on the transcript: E17 where it gets too long, E15 where there is too little
    /// space.
    fn show(&mut self, text: &[u8]) -> Result<(), Stop>
        ensures { Acted (Show text.now) (seen self.old) result (seen self.new) };

    /// Reads the object of this name: E10 where the user may not, or where there is none. The
    /// object is then asked for by `object`.
    fn read(&mut self, oid: Oid) -> Result<(), Stop>
        ensures { Accessed a_read oid (seen self.old) result (seen self.new) };

    /// Writes the object of this name: E11 where the user may not, or where there is none. The
    /// object is then asked for by `object`; an ordinary one is among the written ones, and its
    /// body has been copied once.
    fn write(&mut self, oid: Oid) -> Result<(), Stop>
        ensures { Accessed a_write oid (seen self.old) result (seen self.new) };

    /// Looks at the user's own profile, which is then asked for by `object`. No right is asked.
    fn own(&mut self) -> Result<(), Stop>
        ensures { Owned (seen self.old) result (seen self.new) };

    /// Asks for the fixed part of the object of this name: its class, the kind of its body, and
    /// what of a class is fixed. It is then seen in what `object` gives. Nothing is touched where
    /// the object is there; a name without an object is touched.
    fn know(&mut self, oid: Oid) -> Result<(), Stop>
        ensures { Known oid (seen self.old) result (seen self.new) };

    /// Puts a body in place of that of an object that was written or made. The methods of a class
    /// have to be such as the class may have; all else is tested. To change one place of a large
    /// body use the calls below, which copy nothing.
    fn put(&mut self, oid: Oid, body: Body) -> Result<(), Stop>
        requires { methods_fit oid body ≡ true }
        ensures { Acted (Put oid body) (seen self.old) result (seen self.new) };

    /// Puts a value in a slot of an object that was written or made. Where there is no such slot
    /// nothing changes.
    fn set_slot(&mut self, oid: Oid, at: usize, value: Value) -> Result<(), Stop>
        ensures { Edited oid (with_slot at value) (seen self.old) result (seen self.new) };

    /// Puts a value in a slot of an object that was written or made, at one look: where there is
    /// that slot, the value may come into it, and the object then is within the limits of objects.
    /// Else the value is given back, and nothing changes; that doesn't say that `set_slot` would
    /// change nothing. It takes no memory.
    fn set_slot_within(&mut self, oid: Oid, at: usize, value: Value) -> Result<(), Value>
        ensures put { OnOk result
            (EditedWithin oid (with_slot at value) (seen self.old) (seen self.new)) }
        ensures given { IfErr result (λ given. given ≡ value) }
        ensures unchanged { OnErr result (seen self.new ≡ seen self.old) };

    /// Puts a slot with this value at a place of an object that was written or made; the slots from
    /// there on move up by one. Behind the last slot it comes at the end.
    fn insert_slot(&mut self, oid: Oid, at: usize, value: Value) -> Result<(), Stop>
        ensures { Edited oid (with_slot_more at value) (seen self.old) result (seen self.new) };

    /// Takes the slot at a place of an object away that was written or made; the slots after it
    /// move down by one. Where there is no such slot nothing changes.
    fn remove_slot(&mut self, oid: Oid, at: usize) -> Result<(), Stop>
        ensures { Edited oid (without_slot at) (seen self.old) result (seen self.new) };

    /// Puts a byte at a place of an object that was written or made. Where there is no such place
    /// nothing changes.
    fn set_byte(&mut self, oid: Oid, at: usize, byte: u8) -> Result<(), Stop>
        ensures { Edited oid (with_byte at byte) (seen self.old) result (seen self.new) };

    /// Puts a value at a key of a dictionary that was written or made: a key that is there keeps
    /// its place, and a new one comes last.
    fn put_at(&mut self, oid: Oid, key: Value, value: Value) -> Result<(), Stop>
        ensures { Edited oid (with_value_at key value) (seen self.old) result (seen self.new) };

    /// Takes a key's pair away from a dictionary that was written or made.
    fn remove_at(&mut self, oid: Oid, key: &Value) -> Result<(), Stop>
        ensures { Edited oid (without_value_at key.now) (seen self.old) result (seen self.new) };

    /// Puts an object that was written or made into another segment.
    fn move_to(&mut self, oid: Oid, segment: Oid) -> Result<(), Stop>
        ensures { Acted (Move oid segment) (seen self.old) result (seen self.new) };

    /// Updates a reduced-conflict object that the user may write, and notes the update, unless the
    /// object was made here.
    fn note(&mut self, oid: Oid, update: Update) -> Result<(), Stop>
        ensures { Acted (Note oid update) (seen self.old) result (seen self.new) };

    /// Makes new objects, each at the name after that of the one before it; the name of the first.
    /// They may refer to one another by `next_name`. E17 where one is too large, E16 where there
    /// aren't so many names, E15 where there is too little space. A new class has no methods yet.
    fn make(&mut self, objects: Vec<Object>) -> Result<Oid, Stop>
        requires { (name : ℕ)
            → list_all (λ object. methods_fit name object.body) objects.items ≡ true }
        ensures { Made objects.items (seen self.old) result (seen self.new) };
}
