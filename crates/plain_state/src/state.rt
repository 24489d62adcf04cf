//! The plain state: its parts, with sound objects.
ghost use Rattle.std.specs.Prelude.{◌≡◌};
ghost use Rattle.plain_state.specs.State.{begun, BeginsSound};

use crate::parts::Parts;
use crate::shown::Shown;
use gem_image::Image;
use gem_object::{Body, Object, Oid, Value};
use gem_update::Update;
use indexmap::IndexSet;
use object_programs::{COUNTER_LIMIT, SPACE_LIMIT, UNIT_LIMIT};
use running_objects::{Objects, RunsChunks, Stop};
use std::alloc::Global;
use std::marker::Model;

/// The objects of a running transaction over two images, with its budget. What it changes stands
/// beside the images, which stay as they are.
#[derive(Drop)]
pub struct PlainState {
    pub(crate) parts: Parts,
}

impl Model for PlainState {
    ghost use Rattle.gem_object.specs.contracts.object.Object as object;
    ghost use Rattle.gem_object.specs.contracts.body.Body as body;
    ghost use Rattle.gem_update.specs.contracts.update.Update as update;
    ghost use Rattle.running_objects.specs.Seen.{IsSoundState};
    ghost use Rattle.running_objects.specs.Codes.{seen_code};
    ghost use Rattle.plain_state.specs.Room.{SeenWithRoom, with_room_code};

    ghost Value = { SeenWithRoom };

    ghost coded = { with_room_code
        (seen_code object.the_row.coded body.the_row.coded update.the_row.coded) };

    ghost view = { λ state. state.parts };

    ghost invariant = { λ state. IsSoundState state.parts.seen };
}

impl PlainState {
    /// A transaction of this user at this place with this view, before anything is done. The names
    /// that it draws are of this serial, and the first of them has this counter. Its first chunk
    /// may begin. It takes no memory.
    pub fn start(
        alloc: Global,
        place: Image,
        view: Image,
        user: Oid,
        serial: u32,
        first: u32,
    ) -> PlainState
        requires { BeginsSound place view user serial first }
        ensures { result.seen ≡ begun place view user serial first }
    {
        PlainState {
            parts: Parts {
                shown: Shown::new(alloc, place, view),
                user,
                serial,
                first,
                next: first,
                updates: Vec::new(alloc),
                touched: IndexSet::new(alloc),
                units: UNIT_LIMIT,
                slots: SPACE_LIMIT,
                text: Vec::new(alloc),
            },
        }
    }

    /// The units that the chunk has left, of 1,000,000.
    pub fn units(&self) -> u64
        ensures { result ≡ self.now.seen.budget.units }
    {
        self.parts.units
    }

    /// The space that the chunk has left, in slots, of 4,000,000.
    pub fn slots(&self) -> u64
        ensures { result ≡ self.now.seen.budget.slots }
    {
        self.parts.slots
    }
}

impl Objects for PlainState {
    ghost seen = { λ state. state.seen };

    fn sound(&self) {
        let _parts = &self.parts;
    }

    fn user(&self) -> Oid {
        self.parts.user()
    }

    fn next_name(&self) -> Option<Oid> {
        if (self.parts.next as u64) < COUNTER_LIMIT {
            Some(Oid::from_parts(self.parts.serial, self.parts.next))
        } else {
            None
        }
    }

    #[inline(always)]
    fn object(&self, oid: Oid) -> Option<&Object> {
        self.parts.look(oid)
    }

    fn is_made(&self, oid: Oid) -> bool {
        self.parts.is_made(oid)
    }

    fn stored_bytes(&self, oid: Oid) -> Option<u64> {
        self.parts.stored_bytes(oid)
    }

    fn tick(&mut self) -> Result<(), Stop> {
        self.parts.tick()
    }

    fn room(&mut self, slots: u64) -> Result<(), Stop> {
        self.parts.room(slots)
    }

    fn names(&mut self, count: u64) -> Result<(), Stop> {
        self.parts.names(count)
    }

    fn show(&mut self, text: &[u8]) -> Result<(), Stop> {
        self.parts.show(text)
    }

    fn read(&mut self, oid: Oid) -> Result<(), Stop> {
        self.parts.bring(oid);
        self.parts.read(oid)
    }

    fn write(&mut self, oid: Oid) -> Result<(), Stop> {
        self.parts.bring(oid);
        self.parts.write(oid)
    }

    fn own(&mut self) -> Result<(), Stop> {
        self.parts.own()
    }

    fn know(&mut self, oid: Oid) -> Result<(), Stop> {
        self.parts.know(oid)
    }

    fn put(&mut self, oid: Oid, body: Body) -> Result<(), Stop> {
        self.parts.put(oid, body)
    }

    fn set_slot(&mut self, oid: Oid, at: usize, value: Value) -> Result<(), Stop> {
        self.parts.set_slot(oid, at, value)
    }

    #[inline(always)]
    fn set_slot_within(&mut self, oid: Oid, at: usize, value: Value) -> Result<(), Value> {
        self.parts.set_slot_within(oid, at, value)
    }

    fn insert_slot(&mut self, oid: Oid, at: usize, value: Value) -> Result<(), Stop> {
        self.parts.insert_slot(oid, at, value)
    }

    fn remove_slot(&mut self, oid: Oid, at: usize) -> Result<(), Stop> {
        self.parts.remove_slot(oid, at)
    }

    fn set_byte(&mut self, oid: Oid, at: usize, byte: u8) -> Result<(), Stop> {
        self.parts.set_byte(oid, at, byte)
    }

    fn put_at(&mut self, oid: Oid, key: Value, value: Value) -> Result<(), Stop> {
        self.parts.put_at(oid, key, value)
    }

    fn remove_at(&mut self, oid: Oid, key: &Value) -> Result<(), Stop> {
        self.parts.remove_at(oid, key)
    }

    fn move_to(&mut self, oid: Oid, segment: Oid) -> Result<(), Stop> {
        self.parts.move_to(oid, segment)
    }

    fn note(&mut self, oid: Oid, update: Update) -> Result<(), Stop> {
        self.parts.note(oid, update)
    }

    fn make(&mut self, objects: Vec<Object>) -> Result<Oid, Stop> {
        self.parts.make(objects)
    }
}

impl RunsChunks for PlainState {
    fn begin_chunk(&mut self) {
        self.parts.refill();
    }

    fn transcript(&self) -> &[u8] {
        self.parts.text.as_slice()
    }
}
