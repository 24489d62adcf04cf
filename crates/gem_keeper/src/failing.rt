//! A keeper whose disk fails.
ghost use Rattle.std.specs.Prelude.{◌≡◌, ◌≤◌, None};
ghost use Rattle.gem_keeper.specs.Memory.{stored_in};
ghost use Rattle.gem_keeper.specs.Failing.{IsCounted};

use crate::keeper::{CheckFault, Keeper};
use crate::memory::MemKeeper;
use gem_image::Image;
use std::alloc::Global;
use tran_log::AppendFault;

/// A keeper in memory whose disk fails once so many calls have gone well, and in each call after
/// these. It is meant for tests.
#[derive(Debug, Drop)]
pub struct FailingKeeper {
    kept: MemKeeper,
    left: u64,
    faults: u64,
}

impl FailingKeeper {
    /// A keeper with an empty log and no root, of which so many calls go well. It takes no memory.
    pub fn after(calls: u64) -> FailingKeeper
        ensures stored { stored_in result.kept ≡ record { log_length = 1; root = None } }
        ensures calls { result.left ≡ calls }
        ensures faults { result.faults ≡ 0 }
    {
        FailingKeeper {
            kept: MemKeeper::new(),
            left: calls,
            faults: 0,
        }
    }

    // Whether this call goes well.
    fn goes_well(&mut self) -> bool
        ensures kept { self.new.kept ≡ self.old.kept }
        ensures faults { IsCounted self.old.faults self.new.faults result }
        ensures later { self.old.faults ≤ self.new.faults }
    {
        if self.left > 0 {
            self.left -= 1;
            return true;
        }
        self.faults = self.faults.saturating_add(1);
        false
    }
}

impl Keeper for FailingKeeper {
    ghost use Rattle.std.specs.Prelude.{true, false, None};
    ghost use Rattle.gem_keeper.specs.Memory.{stored_in};

    ghost counts_pages = { false };

    ghost ready = { λ _. true };

    ghost faults = { λ keeper. keeper.faults };

    ghost stored = { λ keeper. stored_in keeper.kept };

    ghost tells = { false };

    ghost moment = { λ _. 0 };

    ghost stands = { λ _. None };

    ghost left_since = { λ _ _ _. ⊥ };

    fn append(&mut self, body: &[u8]) -> Result<(), AppendFault> {
        self.kept.append(body)?;
        if self.goes_well() {
            Ok(())
        } else {
            Err(AppendFault::Disk)
        }
    }

    fn checkpoint(&mut self, alloc: Global, image: &Image, number: u64) -> Result<(), CheckFault> {
        self.kept.checkpoint(alloc, image, number)?;
        if self.goes_well() {
            Ok(())
        } else {
            Err(CheckFault::Disk)
        }
    }
}
