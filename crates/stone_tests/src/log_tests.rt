// A log in memory that is filled to its last byte.
ghost use Rattle.std.specs.Prelude.{◌≡◌, ◌++◌, ◌∷◌, [], IfOk};
ghost use Rattle.gem_record.specs.declared.mode.Mode.{Mode};
ghost use Rattle.gem_record.specs.declared.effect.Effect.{Effect};
ghost use Rattle.tran_log.specs.Log.{spelled_record};

use body_codec::write_effect;
use gem_keeper::{Keeper, MemKeeper};
use gem_object::{Body, ByteString, Object, Oid};
use gem_record::{ByName, Effect, Mode};
use gem_sound::names::{DATA_CURATOR_SEGMENT, KERNEL_SERIAL, STRING_CLASS};
use sorted_pairs::ascend;
use std::alloc::{AllocError, Global};
use std::process::Abort;
use std::test::Fail;
use tran_log::{AppendFault, spell_body};

// An effect that changes a string of so many bytes.
fn effect(rt: &impl Abort, alloc: Global, count: usize) -> Result<Effect, AllocError> {
    let string = Object {
        class: Oid::from_parts(KERNEL_SERIAL, STRING_CLASS),
        segment: Oid::from_parts(KERNEL_SERIAL, DATA_CURATOR_SEGMENT),
        changed: 1,
        body: Body::Bytes(ByteString::of(vec![in alloc; 0; count]?)),
    };
    let objects = vec![in alloc; (Oid::from_parts(1, 1), string)]?;
    assert!(rt; ascend(&objects));
    Ok(Effect {
        number: 1,
        objects: ByName::of(objects),
    })
}

// The body of its record: 14 bytes, 4 for the count of objects, 8 for the name, 17 for the object's
// class, segment and kind, 4 for the count of bytes, and these.
fn body(rt: &impl Abort, alloc: Global, count: usize) -> Result<Vec<u8>, AllocError>
    ensures { IfOk result (λ body.
        (mode : Mode) × (effect : Effect)
        × (body.items ≡ spelled_record mode effect ++ 0 ∷ [])) }
{
    let effect = effect(rt, alloc, count)?;
    let spelled = write_effect(alloc, &effect)?;
    spell_body(alloc, effect.number, Mode::Full, &spelled)
}

// A body of 2^20 bytes fits 63 times behind the first byte, and one that is a byte shorter then fills
// the log.
fn check_full(rt: &impl Abort, alloc: Global) -> Result<(), Fail> {
    let long = body(rt, alloc, 1_048_529)?;
    let mut keeper = MemKeeper::new();
    for _ in 0..63 {
        assert!(rt; keeper.append(&long).is_ok());
    }
    let late = AppendFault::Full {
        length: 66_060_289,
        size: 1_048_576,
    };
    assert!(rt; keeper.append(&long) == Err(late));
    assert!(rt; keeper.append(&body(rt, alloc, 1_048_528)?).is_ok());
    let full = AppendFault::Full {
        length: 67_108_864,
        size: 47,
    };
    assert!(rt; keeper.append(&body(rt, alloc, 0)?) == Err(full));
    Ok(())
}

#[test]
fn full_log(rt: HostRuntime) -> Result<(), Fail> {
    check_full(&rt, rt.alloc())
}
