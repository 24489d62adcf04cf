//! Places in code. One that can't be counted is as if memory had run out: no code is so long.
ghost use Rattle.std.specs.Prelude.{◌≡◌, ◌<◌, ◌+◌, ◌-◌, suc, IfOk};

use std::alloc::AllocError;

/// The place after this one and so many more.
pub(crate) fn ahead_of(place: usize, ahead: usize) -> Result<usize, AllocError>
    ensures place { IfOk result (λ there. there ≡ suc place + ahead) }
    ensures forward { IfOk result (λ there. place < there) }
{
    let Some(next) = place.checked_add(1) else {
        return Err(AllocError);
    };
    match next.checked_add(ahead) {
        Some(there) => Ok(there),
        None => Err(AllocError),
    }
}

/// The next place.
pub(crate) fn next_of(place: usize) -> Result<usize, AllocError>
    ensures place { IfOk result (λ there. there ≡ suc place) }
    ensures forward { IfOk result (λ there. place < there) }
{
    match place.checked_add(1) {
        Some(there) => Ok(there),
        None => Err(AllocError),
    }
}

/// The place so many before this one.
pub(crate) fn behind(place: usize, back: usize) -> usize
    ensures { result ≡ place - back }
{
    place.saturating_sub(back)
}
