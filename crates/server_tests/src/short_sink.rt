//! A sink that fails once it is full.
ghost use Rattle.std.specs.Prelude.{◌<◌, None};

use gem_io::{Failed, Sink};

/// A sink that takes so many bytes more, and then fails.
#[derive(Drop)]
pub(crate) struct ShortSink {
    room: usize,
    taken: Vec<u8>,
    faults: u64,
}

impl ShortSink {
    /// A sink that takes so many bytes, into this list.
    pub(crate) fn new(room: usize, taken: Vec<u8>) -> ShortSink {
        ShortSink {
            room,
            taken,
            faults: 0,
        }
    }

    /// What it took.
    pub(crate) fn taken(&self) -> &[u8] {
        &self.taken
    }
}

impl Sink for ShortSink {
    ghost written = { λ _. None };

    ghost faults = { λ s. s.faults };

    fn put(&mut self, piece: &[u8]) -> Result<usize, Failed> {
        let count = piece.len().min(self.room);
        if count == 0 || self.taken.extend_from_slice(&piece[..count]).is_err() {
            self.faults = self.faults.saturating_add(1);
            return Err(Failed);
        }
        self.room -= count;
        Ok(count)
    }
}
