// A Stone may go to another thread where its keeper may.
ghost use Rattle.std.specs.Prelude.{◌≡◌, ◌<◌};

use crate::setting::opened;
use gem_keeper::{FailingKeeper, Keeper, MemKeeper};
use radix_pages::Steps;
use std::alloc::Global;
use std::marker::Brand;
use std::process::Abort;
use std::sync::ledger::{Blank, Ledger};
use std::test::Fail;
use stone_core::Stone;

// Takes only what may go to another thread.
fn is_sent<T: Send>(_value: &T) -> bool {
    true
}

// Whatever the keeper is, as long as it may go there itself.
fn is_stone_sent<K: Keeper + Send + Drop>(stone: &Stone<K>) -> bool {
    is_sent(stone)
}

fn check_sent<R: Abort, L: Ledger>(rt: &R, alloc: Global, blank: Blank) -> Result<(), Fail>
    requires name { blank.name ≡ L.name }
    requires parts { blank.parts ≡ L.parts }
    requires some_parts { 0 < L.parts }
{
    let mut steps = Steps::<L>::start(blank);
    let stone = opened(alloc, 4, MemKeeper::new(), &mut steps)?;
    assert!(rt; is_stone_sent(&stone));
    let failing = opened(alloc, 4, FailingKeeper::after(1), &mut steps)?;
    assert!(rt; is_stone_sent(&failing));
    Ok(())
}

#[test]
fn sent_to_threads(rt: HostRuntime) -> Result<(), Fail> {
    check_sent::<HostRuntime, Brand>(&rt, rt.alloc(), Blank::new(1))
}
