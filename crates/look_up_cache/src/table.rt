//! Tables of places, at each of which something may stand.
ghost use Rattle.std.specs.Prelude.{◌≡◌, ◌<◌, ◌⊎◌, ℕ, length, None, Some, IfOk, option_copied};
ghost use Rattle.look_up_cache.specs.Table.{held_at, NoneHeld};

use std::alloc::AllocError;

/// What stands at a place. It takes no memory.
pub(crate) fn held_at<X>(places: &Vec<Option<X>>, at: usize) -> Option<&X>
    ensures { option_copied result ≡ held_at places.now.items at }
{
    let place = places.get(at)?;
    place.as_ref()
}

/// The other place for what may stand at one.
pub(crate) fn beside(place: usize) -> usize {
    place ^ 1
}

/// Where something new comes that may stand at a place or beside it: where nothing stands, and else
/// at the first of the two. It takes no memory.
pub(crate) fn free_place<X>(places: &Vec<Option<X>>, first: usize) -> usize {
    let second = beside(first);
    if held_at(places, first).is_some() && held_at(places, second).is_none() {
        second
    } else {
        first
    }
}

/// Makes a table wide enough that it has this place.
#[tactic(auto, using(crate::proofs::Places::held_added))]
pub(crate) fn widen<X: Drop>(places: &mut Vec<Option<X>>, at: usize) -> Result<(), AllocError>
    ensures same { (place : ℕ) (x : X) → held_at places.new.items place ≡ Some x
        → held_at places.old.items place ≡ Some x }
    ensures wide { IfOk result (λ _. at < length places.new.items) }
{
    while places.len() <= at {
        places.push(None)?;
    }
    Ok(())
}

/// Puts something at a place.
#[tactic(auto, using(crate::proofs::Places::held_set, crate::proofs::Places::held_here))]
pub(crate) fn put_at<X: Drop>(
    places: &mut Vec<Option<X>>,
    at: usize,
    x: X,
) -> Result<(), AllocError>
    ensures held { (place : ℕ) (y : X) → held_at places.new.items place ≡ Some y
        → (x ≡ y) ⊎ (held_at places.old.items place ≡ Some y) }
    ensures placed { IfOk result (λ _. held_at places.new.items at ≡ Some x) }
{
    widen(places, at)?;
    places[at] = Some(x);
    Ok(())
}

/// Takes away all that stands in a table, and leaves its places. It takes no memory.
pub(crate) fn empty_all<X: Drop>(places: &mut Vec<Option<X>>)
    ensures { NoneHeld places.new.items }
{
    let mut at = 0;
    'places: while at < places.len() {
        empty_at(places, at);
        at += 1;
    }
}

/// Takes away what stands at a place. Most of a table is empty, so it looks first.
#[inline(always)]
fn empty_at<X: Drop>(places: &mut Vec<Option<X>>, at: usize)
    requires { at < length places.old.items }
    ensures here { held_at places.new.items at ≡ None }
    ensures others { (place : ℕ) → held_at places.old.items place ≡ None
        → held_at places.new.items place ≡ None }
    ensures size { length places.new.items ≡ length places.old.items }
{
    if held_at(places, at).is_some() {
        places[at] = None;
    }
}
