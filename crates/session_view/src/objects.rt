//! What programs do on a view.
use crate::view::View;
use gem_object::{Body, Object, Oid, Value};
use gem_update::Update;
use running_objects::{Objects, RunsChunks, Stop};

impl Objects for View {
    ghost seen = { λ view. view.state.seen };

    fn sound(&self) {
        self.state.sound();
    }

    fn user(&self) -> Oid {
        self.state.user()
    }

    fn next_name(&self) -> Option<Oid> {
        self.state.next_name()
    }

    #[inline(always)]
    fn object(&self, oid: Oid) -> Option<&Object> {
        self.state.object(oid)
    }

    fn is_made(&self, oid: Oid) -> bool {
        self.state.is_made(oid)
    }

    fn stored_bytes(&self, oid: Oid) -> Option<u64> {
        self.state.stored_bytes(oid)
    }

    fn tick(&mut self) -> Result<(), Stop> {
        self.state.tick()
    }

    fn room(&mut self, slots: u64) -> Result<(), Stop> {
        self.state.room(slots)
    }

    fn names(&mut self, count: u64) -> Result<(), Stop> {
        self.state.names(count)
    }

    fn show(&mut self, text: &[u8]) -> Result<(), Stop> {
        self.state.show(text)
    }

    fn read(&mut self, oid: Oid) -> Result<(), Stop> {
        self.state.read(oid)
    }

    fn write(&mut self, oid: Oid) -> Result<(), Stop> {
        self.state.write(oid)
    }

    fn own(&mut self) -> Result<(), Stop> {
        self.state.own()
    }

    fn know(&mut self, oid: Oid) -> Result<(), Stop> {
        self.state.know(oid)
    }

    fn put(&mut self, oid: Oid, body: Body) -> Result<(), Stop> {
        self.state.put(oid, body)
    }

    #[inline(always)]
    fn set_slot(&mut self, oid: Oid, at: usize, value: Value) -> Result<(), Stop> {
        self.state.set_slot(oid, at, value)
    }

    #[inline(always)]
    fn set_slot_within(&mut self, oid: Oid, at: usize, value: Value) -> Result<(), Value> {
        self.state.set_slot_within(oid, at, value)
    }

    fn insert_slot(&mut self, oid: Oid, at: usize, value: Value) -> Result<(), Stop> {
        self.state.insert_slot(oid, at, value)
    }

    fn remove_slot(&mut self, oid: Oid, at: usize) -> Result<(), Stop> {
        self.state.remove_slot(oid, at)
    }

    fn set_byte(&mut self, oid: Oid, at: usize, byte: u8) -> Result<(), Stop> {
        self.state.set_byte(oid, at, byte)
    }

    fn put_at(&mut self, oid: Oid, key: Value, value: Value) -> Result<(), Stop> {
        self.state.put_at(oid, key, value)
    }

    fn remove_at(&mut self, oid: Oid, key: &Value) -> Result<(), Stop> {
        self.state.remove_at(oid, key)
    }

    fn move_to(&mut self, oid: Oid, segment: Oid) -> Result<(), Stop> {
        self.state.move_to(oid, segment)
    }

    fn note(&mut self, oid: Oid, update: Update) -> Result<(), Stop> {
        self.state.note(oid, update)
    }

    fn make(&mut self, objects: Vec<Object>) -> Result<Oid, Stop> {
        self.state.make(objects)
    }
}

impl RunsChunks for View {
    fn begin_chunk(&mut self) {
        View::begin_chunk(self);
    }

    fn transcript(&self) -> &[u8] {
        View::transcript(self)
    }
}
