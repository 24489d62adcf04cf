//! A store that is open.
ghost use Rattle.std.specs.Prelude.{◌≡◌, IsTrue};
ghost use Rattle.gem_disk.specs.Disk.{as_read};
ghost use Rattle.stone_store.specs.Whole.{RestsBy, StoresBy};

use crate::adding::append_to;
use crate::checking::checkpoint_to;
use crate::parts::Parts;
use gem_disk::Disk;
use gem_image::Image;
use gem_keeper::{CheckFault, Keeper};
use std::alloc::Global;
use std::marker::Model;
use tran_log::AppendFault;

/// A store of two files, an extent with the last checkpoint and a log of the commits since.
///
/// It is ready where it was opened with success, until a call on it answers that the disk failed.
/// Contracts see its disk, and where what it stores lies while it is ready. Where the disk tells its
/// contents, all of both files is on the disk between calls as long as the store is ready.
#[derive(Drop)]
pub struct Store<D: Disk + Drop> {
    pub(crate) disk: D,
    pub(crate) parts: Option<Parts>,
}

impl<D: Disk + Drop> Model for Store<D> {
    ghost use Rattle.std.specs.Prelude.{IsTrue};
    ghost use Rattle.stone_store.specs.Whole.{StoreOf, RestsBy};

    ghost Value = { StoreOf D };

    ghost view = { λ s. record { disk = s.disk; parts = s.parts } };

    ghost invariant = { λ s. IsTrue D.tells → RestsBy (D.past s.disk) s.parts };
}

impl<D: Disk + Drop> Store<D> {
    /// What holds of every store that is ready, where its disk tells its contents: both files are at
    /// rest, and what is stored is what they have. This does nothing at run time.
    pub fn invariant(&self)
        ensures rests { IsTrue D.tells → RestsBy (D.past self.now.disk) self.now.parts }
        ensures stored { IsTrue D.tells →
            StoresBy (as_read (D.past self.now.disk)) self.now.parts }
    {
        let _parts = &self.parts;
    }

    /// Gives the disk back. It takes no memory.
    pub fn close(self) -> D
        ensures { result ≡ self.disk }
    {
        self.disk
    }
}

impl<D: Disk + Drop> Keeper for Store<D> {
    ghost use Rattle.std.specs.Prelude.{true, is_some};
    ghost use Rattle.stone_store.specs.Resting.{stored_by};
    ghost use Rattle.stone_store.specs.Whole.{store_moment, store_stands, store_left};

    ghost counts_pages = { true };

    ghost ready = { λ store. is_some store.parts };

    ghost faults = { λ store. D.faults store.disk };

    ghost stored = { λ store. stored_by store.parts };

    ghost tells = { D.tells };

    ghost moment = { store_moment D.past };

    ghost stands = { store_stands D.past };

    ghost left_since = { store_left D.past };

    fn append(&mut self, body: &[u8]) -> Result<(), AppendFault> {
        append_to(&mut self.disk, &mut self.parts, body)
    }

    fn checkpoint(&mut self, alloc: Global, image: &Image, number: u64) -> Result<(), CheckFault> {
        checkpoint_to(alloc, &mut self.disk, &mut self.parts, image, number)
    }
}
