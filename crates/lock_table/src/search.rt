//! How the table of locks is searched.
ghost use Rattle.std.specs.Prelude.{◌≡◌, ◌==◌, not, filter};
ghost use Rattle.std.specs.List.{list_any};
ghost use Rattle.std.specs.BTreeMap.{IsOrdered, get};
ghost use Rattle.lock_table.specs.Locks.{holding_cmp};
ghost use Rattle.lock_table.specs.LockKind.{kind_granted};
ghost use Rattle.lock_table.specs.Search.{first_in_the_way};

use crate::lock::{Holding, LockKind};
use std::collections::BTreeMap;

// The lowest session that is in the way of a request. It looks at the holders of the object alone.
pub(crate) fn first_in_the_way(
    locks: &BTreeMap<Holding, LockKind>,
    session: u32,
    oid: u64,
    kind: LockKind,
) -> Option<(u32, LockKind)>
    ensures first { result ≡ first_in_the_way session oid kind locks.now.entries }
    ensures ordered { IsOrdered holding_cmp locks.now }
{
    let first = Holding { oid, session: 0 };
    for (holding, held) in locks.range(first..) {
        if holding.oid != oid {
            return None;
        }
        if holding.session != session && (kind == LockKind::Write || *held == LockKind::Write) {
            return Some((holding.session, *held));
        }
    }
    None
}

// The kind in which a session holds what it is granted.
pub(crate) fn kind_granted(
    locks: &BTreeMap<Holding, LockKind>,
    holding: Holding,
    kind: LockKind,
) -> LockKind
    ensures { result ≡ kind_granted (get holding_cmp locks.now holding) kind }
{
    match locks.get(&holding) {
        Some(held) => kind.max(*held),
        None => kind,
    }
}

// Whether the session holds any object.
pub(crate) fn holds_any(locks: &BTreeMap<Holding, LockKind>, session: u32) -> bool
    ensures { result ≡ list_any (λ entry. entry.0.session == session) locks.now.entries }
{
    locks.iter().any(|(holding, _)| holding.session == session)
}

// Takes all the session's locks away.
pub(crate) fn remove_session(locks: &mut BTreeMap<Holding, LockKind>, session: u32)
    ensures { locks.new.entries
        ≡ filter (λ entry. not (entry.0.session == session)) locks.old.entries }
{
    locks.retain(|holding, _| holding.session != session);
}
