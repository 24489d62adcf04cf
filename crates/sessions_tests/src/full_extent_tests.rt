// An extent that is nearly full, so that a checkpoint has no room.
ghost use Rattle.std.specs.Prelude.{IsTrue};
ghost use Rattle.sessions_tests.specs.Crowded.{ArePlain};

use crate::keepers::reported;
use gem_image::Image;
use gem_keeper::{CheckFault, Keeper};
use gem_record::LOG_LIMIT;
use std::alloc::Global;
use std::test::Fail;
use tran_log::AppendFault;

// A keeper in memory that tells of a root of 262,141 pages, to which all objects belong that no
// commit has changed. It makes no checkpoint: it counts the pages of one where all objects are such
// and stand in one leaf, and has no memory for any other.
#[derive(Drop)]
struct CrowdedKeeper {
    length: u64,
}

// Whether no commit has changed an object, and all have names below 64.
fn are_plain(image: &Image) -> bool
    ensures { IsTrue result → ArePlain image.now }
{
    let mut next = 0;
    while let Some(entry) = image.next_from(next) {
        let (oid, object) = entry;
        if object.changed > 0 || oid.number() >= 64 {
            return false;
        }
        next = oid.number() + 1;
    }
    true
}

impl Keeper for CrowdedKeeper {
    ghost use Rattle.std.specs.Prelude.{true, false, None};
    ghost use Rattle.sessions_tests.specs.Crowded.{crowded};

    ghost counts_pages = { true };

    ghost ready = { λ _. true };

    ghost faults = { λ _. 0 };

    ghost stored = { λ keeper. crowded keeper.length };

    ghost tells = { false };

    ghost moment = { λ _. 0 };

    ghost stands = { λ _. None };

    ghost left_since = { λ _ _ _. ⊥ };

    fn append(&mut self, body: &[u8]) -> Result<(), AppendFault> {
        let (length, size) = (self.length, body.len() as u64);
        if length.saturating_add(size) > LOG_LIMIT {
            return Err(AppendFault::Full { length, size });
        }
        self.length = length + size;
        Ok(())
    }

    #[tactic(auto, using(crate::proofs::Crowded::is_counted, crate::proofs::Crowded::is_over))]
    fn checkpoint(
        &mut self,
        _alloc: Global,
        image: &Image,
        _number: u64,
    ) -> Result<(), CheckFault> {
        if are_plain(image) {
            return Err(CheckFault::Full { pages: 262_145 });
        }
        Err(CheckFault::NoMemory)
    }
}

/// A checkpoint of the kernel's objects needs the 3 pages at the front, the 262,141 of the root and
/// one for a directory: one more than there may be. All else goes on.
const CROWDED: &str = "\
session DataCurator
checkpoint
lock read Globals
run
Globals at: #T put: 3
%
checkpoint
commit
session DataCurator
printit
T
%
";

const CROWDED_REPORT: &str = "\
session 1 DataCurator
[0] login view 0
[1] extent full at 262145
[2] locked read 0:27 clean
[3] ok
[4] extent full at 262145
[5] committed 1 view 1
[6] logout
session 2 DataCurator
[0] login view 1
[1] 3
[2] logout
commits 1
1 session 1 transaction 1 view 0
";

#[test]
fn full_extent(rt: HostRuntime) -> Result<(), Fail> {
    let keeper = CrowdedKeeper { length: 1 };
    let told = reported(&rt, rt.alloc(), CROWDED, keeper)?;
    assert!(rt; told.as_slice() == CROWDED_REPORT.as_bytes());
    Ok(())
}
