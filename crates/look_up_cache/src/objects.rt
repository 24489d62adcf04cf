//! What programs do on objects that remember look-ups. Each call is that of the objects, but for a
//! read or a write of one that is known to be read or written without a change. After an error, and
//! where a class, a segment or a user changes or an object moves, all is forgotten.
ghost use Rattle.std.specs.Prelude.{◌≡◌, true, ◌&&◌, None, is_some, is_ok};
ghost use Rattle.running_objects.specs.Seen.{object_at};
ghost use Rattle.look_up_cache.specs.Lasting.{lasting_body};

use crate::finding::{is_calm, remember_read};
use crate::kept::MethodCodeKept;
use crate::known::KnownObjects;
use crate::writes::{is_written, remember_write};
use gem_object::{Body, Object, Oid, Value};
use gem_update::Update;
use running_objects::{Objects, RunsChunks, Stop};

impl<O: Objects, T: MethodCodeKept> Objects for KnownObjects<O, T> {
    ghost seen = { λ known. O.seen known.0 };

    fn sound(&self) {
        self.objects.sound();
    }

    fn user(&self) -> Oid {
        self.objects.user()
    }

    fn next_name(&self) -> Option<Oid> {
        self.objects.next_name()
    }

    fn object(&self, oid: Oid) -> Option<&Object> {
        self.objects.object(oid)
    }

    fn is_made(&self, oid: Oid) -> bool {
        self.objects.is_made(oid)
    }

    fn stored_bytes(&self, oid: Oid) -> Option<u64> {
        self.objects.stored_bytes(oid)
    }

    fn tick(&mut self) -> Result<(), Stop> {
        self.take_unit()
    }

    fn room(&mut self, slots: u64) -> Result<(), Stop> {
        let result = self.objects.room(slots);
        self.holds = still(self.holds, &result);
        result
    }

    fn names(&mut self, count: u64) -> Result<(), Stop> {
        let result = self.objects.names(count);
        self.holds = still(self.holds, &result);
        result
    }

    fn show(&mut self, text: &[u8]) -> Result<(), Stop> {
        let result = self.objects.show(text);
        self.holds = still(self.holds, &result);
        result
    }

    fn read(&mut self, oid: Oid) -> Result<(), Stop> {
        if self.holds && is_calm(&self.memory.receivers, oid) {
            return Ok(());
        }
        let result = self.objects.read(oid);
        self.holds = still(self.holds, &result);
        remember_read(&mut self.memory, &self.objects, self.holds, oid);
        result
    }

    fn write(&mut self, oid: Oid) -> Result<(), Stop> {
        if self.holds && is_written(&self.memory.receivers, oid) {
            return Ok(());
        }
        let result = self.objects.write(oid);
        self.holds = still(self.holds, &result);
        remember_write(&mut self.memory, &self.objects, self.holds, oid);
        result
    }

    fn own(&mut self) -> Result<(), Stop> {
        let result = self.objects.own();
        self.holds = still(self.holds, &result);
        result
    }

    fn know(&mut self, oid: Oid) -> Result<(), Stop> {
        let result = self.objects.know(oid);
        self.holds = still(self.holds, &result);
        result
    }

    fn put(&mut self, oid: Oid, body: Body) -> Result<(), Stop> {
        let held = stays(self.holds, &body);
        let result = self.objects.put(oid, body);
        self.holds = still(held, &result);
        result
    }

    fn set_slot(&mut self, oid: Oid, at: usize, value: Value) -> Result<(), Stop> {
        let held = is_there(self.holds, &self.objects, oid);
        let result = self.objects.set_slot(oid, at, value);
        self.holds = still(held, &result);
        result
    }

    fn set_slot_within(&mut self, oid: Oid, at: usize, value: Value) -> Result<(), Value> {
        self.objects.set_slot_within(oid, at, value)
    }

    fn insert_slot(&mut self, oid: Oid, at: usize, value: Value) -> Result<(), Stop> {
        let held = is_there(self.holds, &self.objects, oid);
        let result = self.objects.insert_slot(oid, at, value);
        self.holds = still(held, &result);
        result
    }

    fn remove_slot(&mut self, oid: Oid, at: usize) -> Result<(), Stop> {
        let held = is_there(self.holds, &self.objects, oid);
        let result = self.objects.remove_slot(oid, at);
        self.holds = still(held, &result);
        result
    }

    fn set_byte(&mut self, oid: Oid, at: usize, byte: u8) -> Result<(), Stop> {
        let held = is_there(self.holds, &self.objects, oid);
        let result = self.objects.set_byte(oid, at, byte);
        self.holds = still(held, &result);
        result
    }

    fn put_at(&mut self, oid: Oid, key: Value, value: Value) -> Result<(), Stop> {
        let held = is_there(self.holds, &self.objects, oid);
        let result = self.objects.put_at(oid, key, value);
        self.holds = still(held, &result);
        result
    }

    fn remove_at(&mut self, oid: Oid, key: &Value) -> Result<(), Stop> {
        let held = is_there(self.holds, &self.objects, oid);
        let result = self.objects.remove_at(oid, key);
        self.holds = still(held, &result);
        result
    }

    fn move_to(&mut self, oid: Oid, segment: Oid) -> Result<(), Stop> {
        self.holds = false;
        self.objects.move_to(oid, segment)
    }

    fn note(&mut self, oid: Oid, update: Update) -> Result<(), Stop> {
        let result = self.objects.note(oid, update);
        self.holds = still(self.holds, &result);
        result
    }

    fn make(&mut self, objects: Vec<Object>) -> Result<Oid, Stop> {
        self.objects.sound();
        let result = self.objects.make(objects);
        self.holds = still(self.holds, &result);
        result
    }
}

impl<O: RunsChunks, T: MethodCodeKept> RunsChunks for KnownObjects<O, T> {
    fn begin_chunk(&mut self) {
        self.objects.begin_chunk();
    }

    fn transcript(&self) -> &[u8] {
        self.objects.transcript()
    }
}

// Whether what is remembered is so after a call with this result.
fn still<A>(held: bool, ended: &Result<A, Stop>) -> bool
    ensures { result ≡ (held && is_ok ended.now) }
{
    held && ended.is_ok()
}

// Whether what is remembered stays so where this body is put.
fn stays(held: bool, body: &Body) -> bool
    ensures held { result ≡ true → held ≡ true }
    ensures body { result ≡ true → lasting_body body.now ≡ None }
{
    match body {
        Body::Plain(_) => held,
        Body::Bytes(_) => held,
        Body::Dict(_) => held,
        Body::Class(_) => false,
        Body::Segment(_) => false,
        Body::User(_) => false,
        Body::Counter(_) => held,
        Body::Bag(_) => held,
        Body::RcDict(_) => held,
        Body::Queue(_) => held,
    }
}

/// Whether what is remembered is so, and there is an object of this name.
#[tactic(auto, using(crate::proofs::There::there_by))]
pub(crate) fn is_there<O: Objects>(held: bool, objects: &O, oid: Oid) -> bool
    ensures held { result ≡ true → held ≡ true }
    ensures there { result ≡ true → is_some (object_at oid (O.seen objects.now)) ≡ true }
{
    held && objects.object(oid).is_some()
}
