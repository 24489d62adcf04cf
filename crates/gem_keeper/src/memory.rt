//! A keeper that stores nothing.
ghost use Rattle.std.specs.Prelude.{◌≡◌, None};
ghost use Rattle.gem_keeper.specs.Memory.{stored_in};

use crate::keeper::{CheckFault, Keeper};
use gem_image::Image;
use gem_record::LOG_LIMIT;
use std::alloc::Global;
use tran_log::AppendFault;

/// A keeper of a Stone that is nowhere stored: it counts how long a log would be, and knows the
/// number of the last checkpoint. It never fails, counts no pages, and tells nothing of crashes.
#[derive(Debug, Drop)]
pub struct MemKeeper {
    length: u64,
    root: Option<u64>,
}

impl MemKeeper {
    /// A keeper with an empty log and no root. It takes no memory.
    pub fn new() -> MemKeeper
        ensures { stored_in result ≡ record { log_length = 1; root = None } }
    {
        MemKeeper {
            length: 1,
            root: None,
        }
    }
}

impl Keeper for MemKeeper {
    ghost use Rattle.std.specs.Prelude.{true, false, None};
    ghost use Rattle.gem_keeper.specs.Memory.{stored_in};

    ghost counts_pages = { false };

    ghost ready = { λ _. true };

    ghost faults = { λ _. 0 };

    ghost stored = { stored_in };

    ghost tells = { false };

    ghost moment = { λ _. 0 };

    ghost stands = { λ _. None };

    ghost left_since = { λ _ _ _. ⊥ };

    fn append(&mut self, body: &[u8]) -> Result<(), AppendFault> {
        let (length, size) = (self.length, body.len() as u64);
        if length.saturating_add(size) > LOG_LIMIT {
            return Err(AppendFault::Full { length, size });
        }
        self.length = length + size;
        Ok(())
    }

    #[tactic(auto, unfolding(gem_record::specs::Stored::pages_needed, gem_record::specs::Stored::pages_counted))]
    fn checkpoint(
        &mut self,
        _alloc: Global,
        _image: &Image,
        number: u64,
    ) -> Result<(), CheckFault> {
        self.length = 1;
        self.root = Some(number);
        Ok(())
    }
}
