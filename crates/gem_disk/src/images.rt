//! What a crash leaves of a disk in memory.
use std::marker::Model;

/// Which of the images that a crash may leave.
#[derive(Clone, Copy, Debug, PartialEq, Eq)]
pub enum Pick {
    /// Each file as at its last sync, or as at first.
    Old,
    /// Each file as it reads.
    New,
    /// Each file as it reads, but with this byte all over what was written since its last sync.
    Torn(u8),
}

/// The bytes of both files after a crash.
#[derive(Debug, Drop)]
pub struct Images {
    /// The pages of the store.
    pub extent: Vec<u8>,
    /// The records since.
    pub log: Vec<u8>,
}

impl Model for Images {
    ghost use Rattle.gem_disk.specs.Disk.{Files};

    ghost Value = { Files };

    ghost view = { λ s. record { extent = s.extent.items; log = s.log.items } };
}
