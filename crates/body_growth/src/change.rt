//! What goes away from a body and what comes.
ghost use Rattle.std.specs.Prelude.{◌+◌, ◌-◌, ◌≡◌};
ghost use Rattle.gem_object.specs.declared.body.Body.{Body};
ghost use Rattle.body_growth.specs.Changes.{Changes, counted};

/// The slots that go away from a body and those that come, and so of the bytes that its fields take
/// where it is stored. A number of bytes stays at 2^64 - 1 once it is there.
#[derive(Clone, Copy, Debug, PartialEq, Eq)]
pub struct Change {
    /// Two at most.
    pub slots_freed: u64,
    pub slots_taken: u64,
    pub bytes_freed: u64,
    pub bytes_taken: u64,
}

impl Change {
    /// The change where slots and bytes stay as they are.
    pub fn none() -> Change
        ensures { (body : Body) → Changes result body body }
    {
        Change {
            slots_freed: 0,
            slots_taken: 0,
            bytes_freed: 0,
            bytes_taken: 0,
        }
    }

    /// The slots after the change, where there were so many before. The number stays at 2^64 - 1
    /// once it is there.
    pub fn slots_after(self, slots: u64) -> u64
        ensures { result ≡ counted (slots - self.slots_freed + self.slots_taken) }
    {
        slots
            .saturating_sub(self.slots_freed)
            .saturating_add(self.slots_taken)
    }

    /// The bytes after the change, where there were so many before. The number stays at 2^64 - 1
    /// once it is there, so it is exact where neither that before nor that after stands there.
    pub fn bytes_after(self, bytes: u64) -> u64
        ensures { result ≡ counted (bytes - self.bytes_freed + self.bytes_taken) }
    {
        bytes
            .saturating_sub(self.bytes_freed)
            .saturating_add(self.bytes_taken)
    }
}
