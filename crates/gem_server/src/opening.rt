//! Opens the store that a script is to be served over.
ghost use Rattle.std.specs.Prelude.{◌≡◌, ◌≤◌, IfOk, IfErr};
ghost use Rattle.gem_image.specs.Image.{IsImage};
ghost use Rattle.stone_store.specs.Opening.{MayGoOn};
ghost use Rattle.gem_server.specs.Starting.{HasRoom, IsFull, IsStarted, IsRefused};

use crate::status::Status;
use gem_disk::Disk;
use script_run::Start;
use shell_words::Script;
use std::alloc::Global;
use stone_core::largest_serial;
use stone_store::{FoundImage, Opened, Store, open_store};

// The end of the serials that names can have.
const SERIAL_LIMIT: u32 = 1 << 24;

/// The most commits in an image with which a Stone is opened.
pub(crate) const NUMBER_LIMIT: u64 = 1 << 62;

/// Why sessions can't run over a disk, and the disk.
#[derive(Drop)]
pub(crate) struct Refused<D: Drop> {
    /// Why.
    pub status: Status,
    /// The number of commits in the image of the store, or 0 where it wasn't opened.
    pub first: u64,
    /// The serial from which those of sessions would go on there, or 0.
    pub base: u32,
    /// The disk that was handed in.
    pub disk: D,
}

/// Opens the store on the disk, with what the sessions of this script start with.
pub(crate) fn open_for<D: Disk + Drop>(
    alloc: Global,
    disk: D,
    script: &Script,
) -> Result<Start<Store<D>>, Refused<D>>
    ensures ok { IfOk result (IsStarted D.tells D.past D.faults disk script.now) }
    ensures err { IfErr result (IsRefused D.tells D.past D.faults disk script.now) }
{
    let Opened { result, store } = open_store(alloc, disk);
    let found = match result {
        Ok(found) => found,
        Err(fault) => return Err(refused_over(Status::of_store(fault), 0, 0, store)),
    };
    found.image.invariant();
    match room_for(&found, script) {
        Ok(base) => Ok(Start {
            image: found.image,
            number: found.number,
            base,
            keeper: store,
        }),
        Err(none) => {
            let (base, sessions) = (none.base, none.sessions);
            let status = Status::SerialsUsed { base, sessions };
            Err(refused_over(status, found.number, base, store))
        }
    }
}

fn refused_over<D: Disk + Drop>(
    status: Status,
    first: u64,
    base: u32,
    store: Store<D>,
) -> Refused<D>
    ensures status { result.status ≡ status }
    ensures first { result.first ≡ first }
    ensures base { result.base ≡ base }
    ensures disk { result.disk ≡ store.disk }
{
    Refused {
        status,
        first,
        base,
        disk: store.close(),
    }
}

// So many sessions would have to begin at this serial.
#[derive(Drop)]
struct NoRoom {
    base: u32,
    sessions: u32,
}

// The serial of the first session, where there are serials and numbers for all of them.
fn room_for(found: &FoundImage, script: &Script) -> Result<u32, NoRoom>
    ensures ok { IfOk result (HasRoom found.now script.now) }
    ensures err { IfErr result (λ none. IsFull found.now script.now none.base none.sessions) }
{
    let base = largest_serial(&found.image) + 1;
    let sessions = script.sessions().len() as u32;
    if base + sessions > SERIAL_LIMIT || found.number > NUMBER_LIMIT {
        return Err(NoRoom { base, sessions });
    }
    Ok(base)
}
