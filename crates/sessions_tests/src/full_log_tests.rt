// Sessions whose commits fill a log in memory to its last byte.
ghost use Rattle.std.specs.Prelude.{◌≡◌, ◌++◌, ◌∷◌, [], IfOk};
ghost use Rattle.gem_record.specs.declared.mode.Mode.{Mode};
ghost use Rattle.gem_record.specs.declared.effect.Effect.{Effect};
ghost use Rattle.tran_log.specs.Log.{spelled_record};

use crate::keepers::reported;
use body_codec::write_effect;
use gem_keeper::{Keeper, MemKeeper};
use gem_object::{Body, ByteString, Object, Oid};
use gem_record::{ByName, Effect, Mode};
use std::alloc::{AllocError, Global};
use std::process::Abort;
use std::sync::Wait;
use std::test::Fail;
use tran_log::spell_body;

// An effect that changes an object of so many bytes.
fn effect(alloc: Global, count: usize) -> Result<Effect, AllocError> {
    let object = Object {
        class: Oid::from_parts(0, 1),
        segment: Oid::from_parts(0, 2),
        changed: 1,
        body: Body::Bytes(ByteString::of(vec![in alloc; 0; count]?)),
    };
    let objects = vec![in alloc; (Oid::from_parts(1, 1), object)]?;
    Ok(Effect {
        number: 1,
        objects: ByName::of(objects),
    })
}

// The bytes of its record's body besides those of the object: 14, 4 for the count of objects, 8 for
// the name, 17 for the object's class, segment and kind, and 4 for the count of bytes.
const AROUND: usize = 47;

// The body of the record of such an effect that has so many bytes.
fn body(alloc: Global, size: usize) -> Result<Vec<u8>, AllocError>
    ensures { IfOk result (λ body.
        (mode : Mode) × (effect : Effect)
        × (body.items ≡ spelled_record mode effect ++ 0 ∷ [])) }
{
    let effect = effect(alloc, size.saturating_sub(AROUND))?;
    let spelled = write_effect(alloc, &effect)?;
    spell_body(alloc, effect.number, Mode::Full, &spelled)
}

// The longest body here: the log has room for 64 of them.
const PIECE: usize = 1_048_576;

// A keeper whose log has room for so many bytes more, which are fewer than those of a piece: behind
// the first byte stand 63 pieces and a body that leaves this room.
fn filled(rt: &impl Abort, alloc: Global, room: usize) -> Result<MemKeeper, Fail> {
    let long = body(alloc, PIECE)?;
    let mut keeper = MemKeeper::new();
    for _ in 0..63 {
        assert!(rt; keeper.append(&long).is_ok());
    }
    let last = body(alloc, (PIECE - 1).saturating_sub(room))?;
    assert!(rt; keeper.append(&last).is_ok());
    Ok(keeper)
}

// The bytes of the record of a commit that changes the user's own globals, which then hold
// themselves and K: 14, 4 for the count of objects, 8 for the name, 17 for the class, segment and
// kind, 4 for the count of pairs, 23 for the key UserGlobals with a reference, and 13 for the key K
// with an integer.
const RECORD: usize = 83;

/// The first commit fills the log to its last byte. The second one has no room, as often as it is
/// tried, until a checkpoint has emptied the log.
const FILLED: &str = "\
session DataCurator
run
UserGlobals at: #K put: 1
%
commit
run
UserGlobals at: #K put: 2
%
commit
lock read Globals
commit
checkpoint
commit
session DataCurator
printit
K
%
";

const FILLED_REPORT: &str = "\
session 1 DataCurator
[0] login view 0
[1] ok
[2] committed 1 view 1
[3] ok
[4] log full at 67108864 by 83
[5] locked read 0:27 clean
[6] log full at 67108864 by 83
[7] checkpoint 1
[8] committed 2 view 2
[9] logout
session 2 DataCurator
[0] login view 2
[1] 2
[2] logout
commits 2
1 session 1 transaction 1 view 0
2 session 1 transaction 2 view 1
";

/// The log has one byte too few for the first commit. What is refused so may be aborted, a commit
/// of nothing needs no room, and another session's checkpoint empties the log.
const ONE_BYTE_SHORT: &str = "\
session DataCurator
run
UserGlobals at: #K put: 1
%
commit
abort
commit
session DataCurator
checkpoint
run
UserGlobals at: #K put: 2
%
commit
";

const ONE_BYTE_SHORT_REPORT: &str = "\
session 1 DataCurator
[0] login view 0
[1] ok
[2] log full at 67108782 by 83
[3] aborted view 0
[4] committed unchanged at 0 view 0
[5] logout
session 2 DataCurator
[0] login view 0
[1] checkpoint 0
[2] ok
[3] committed 1 view 1
[4] logout
commits 1
1 session 2 transaction 1 view 0
";

// Whether a script is reported so over a log that has so many bytes of room.
fn is_reported<R: Abort + Wait>(
    rt: &R,
    alloc: Global,
    room: usize,
    script: &str,
    report: &str,
) -> Result<bool, Fail> {
    let keeper = filled(rt, alloc, room)?;
    Ok(reported(rt, alloc, script, keeper)?.as_slice() == report.as_bytes())
}

fn check_sessions<R: Abort + Wait>(rt: &R, alloc: Global) -> Result<(), Fail> {
    assert!(rt; is_reported(rt, alloc, RECORD, FILLED, FILLED_REPORT)?);
    assert!(rt; is_reported(rt, alloc, RECORD - 1, ONE_BYTE_SHORT, ONE_BYTE_SHORT_REPORT)?);
    Ok(())
}

#[test]
fn full_log(rt: HostRuntime) -> Result<(), Fail> {
    check_sessions(&rt, rt.alloc())
}
