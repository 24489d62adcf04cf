//! What follows from the definitions alone, and that maps which share nodes change one by one.
ghost use Rattle.std.specs.Prelude.{◌≡◌, ◌≢◌, ◌*◌, ◌^◌, ◌<◌, ℕ, Some, IfOk};
ghost use Rattle.std.specs.Ordering.{nat_cmp};
ghost use Rattle.std.specs.FinMap as map;

use crate::pages::Pages;
use crate::steps::Steps;
use std::alloc::{AllocError, Global};
use std::sync::ledger::Ledger;

/// A key that is set has its value, and every other key the one that it had. Of two values that are
/// set at one key the last one counts.
pub fn set_twice<T>()
    ensures same_key { (pages : map.FinMap nat_cmp T) (key : ℕ) (value : T) →
        map.get (map.insert pages key value) key ≡ Some value }
    ensures other_key { (pages : map.FinMap nat_cmp T) (key other : ℕ) (value : T) → other ≢ key →
        map.get (map.insert pages key value) other ≡ map.get pages other }
    ensures last { (pages : map.FinMap nat_cmp T) (key : ℕ) (first last : T) →
        map.insert (map.insert pages key first) key last ≡ map.insert pages key last }
{}

/// Values that are set at two keys may be set in either order.
pub fn set_apart<T>()
    ensures { (pages : map.FinMap nat_cmp T) (key other : ℕ) (value worth : T) → other ≢ key →
        map.insert (map.insert pages key value) other worth
        ≡ map.insert (map.insert pages other worth) key value }
{}

/// The old map stays: what is set in a map that shares its nodes with it is set there alone.
pub fn old_map_stays<T: Drop, const BITS: usize, const LEVELS: usize, L: Ledger>(
    old: Pages<T, BITS, LEVELS>,
    alloc: Global,
    key: u64,
    value: T,
    steps: &mut Steps<L>,
) -> Result<(Pages<T, BITS, LEVELS>, Pages<T, BITS, LEVELS>), AllocError>
    requires { key < 2 ^ (BITS * LEVELS) }
    ensures old { IfOk result (λ maps. maps.0 ≡ old) }
    ensures new { IfOk result (λ maps. maps.1 ≡ map.insert old key value) }
{
    let mut new = old.share()?;
    new.insert(alloc, key, value, steps)?;
    Ok((old, new))
}
