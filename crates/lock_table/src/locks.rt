//! The locks that sessions hold.
ghost use Rattle.std.specs.Prelude.{◌≡◌, ◌≢◌, ◌↔◌, ℕ, IsTrue, IsSome};
ghost use Rattle.std.specs.FinMap as map;
ghost use Rattle.lock_table.specs.Locks.{kind_held, after_dropped, after_left, IsDenied, IsLowestHolder, denied_for};
ghost use Rattle.lock_table.specs.Asked.{Answers};
ghost use Rattle.lock_table.specs.declared.lock.LockKind.{LockKind};

use crate::lock::{Asked, Holding, LockKind};
use crate::search::{first_in_the_way, holds_any, kind_granted, remove_session};
use std::alloc::Global;
use std::collections::BTreeMap;
use std::marker::Model;

/// The locks that sessions hold.
#[derive(Debug, Drop)]
pub struct Locks {
    held: BTreeMap<Holding, LockKind>,
}

impl Model for Locks {
    ghost use Rattle.std.specs.FinMap as map;
    ghost use Rattle.lock_table.specs.Locks.{LockSet};
    ghost use Rattle.lock_table.specs.contracts.lock.Holding as holding;
    ghost use Rattle.lock_table.specs.contracts.lock.LockKind as kind;

    ghost Value = { LockSet };

    ghost coded = { map.code holding.the_row.coded kind.the_row.coded };

    ghost view = { λ locks. map.from_entries locks.held.entries };
}

impl Locks {
    /// No locks. It takes no memory.
    pub fn new(alloc: Global) -> Self
        ensures { result ≡ map.empty }
    {
        Locks {
            held: BTreeMap::new(alloc),
        }
    }

    /// Asks for a lock on an object. The request is denied exactly where another session holds the
    /// object and one of the two kinds is `Write`. A session that holds the object already keeps
    /// the greater of the two kinds, and then needs no memory. A refusal and `NoMemory`
    /// change nothing.
    pub fn request(&mut self, session: u32, oid: u64, kind: LockKind) -> Asked
        ensures denied { (holder : ℕ) (held : LockKind) → (result ≡ Asked.Denied holder held)
            ↔ IsDenied self.old session oid kind holder held }
        ensures answer { Answers self.old session oid kind result self.new }
    {
        if let Some((holder, kind)) = first_in_the_way(&self.held, session, oid, kind) {
            return Asked::Denied { holder, kind };
        }
        let holding = Holding { oid, session };
        let granted = kind_granted(&self.held, holding, kind);
        let Ok(_) = self.held.insert(holding, granted) else {
            return Asked::NoMemory;
        };
        Asked::Granted(granted)
    }

    /// Drops the session's lock on the object, and says whether it held one. It takes no memory.
    pub fn release(&mut self, session: u32, oid: u64) -> bool
        ensures locks { self.new ≡ after_dropped self.old session oid }
        ensures held { IsTrue result ↔ IsSome (kind_held self.old session oid) }
    {
        self.held.remove(&Holding { oid, session }).is_some()
    }

    /// Drops all the session's locks, and says whether it held one. It takes no memory. It goes
    /// over all locks: a session leaves once, and an index by session would cost memory at each
    /// request.
    pub fn release_all(&mut self, session: u32) -> bool
        ensures locks { self.new ≡ after_left self.old session }
        ensures held { IsTrue result ↔ ((oid : ℕ) × IsSome (kind_held self.old session oid)) }
    {
        let held = holds_any(&self.held, session);
        remove_session(&mut self.held, session);
        held
    }

    /// For whom a request would be denied now, and how that session holds the object; None where it
    /// would be granted, or meet want of memory. It takes no memory.
    pub fn denies(&self, session: u32, oid: u64, kind: LockKind) -> Option<(u32, LockKind)>
        ensures { result ≡ denied_for self.now session oid kind }
    {
        first_in_the_way(&self.held, session, oid, kind)
    }

    /// How many locks there are, of all sessions together. It takes no memory.
    pub fn count(&self) -> usize
        ensures { result ≡ map.len self.now }
    {
        self.held.len()
    }

    /// The lowest other session that holds the object, and how it holds it. It takes no memory.
    pub fn blocks(&self, session: u32, oid: u64) -> Option<(u32, LockKind)>
        ensures lowest { (holder : ℕ) (held : LockKind) → (result ≡ Some (holder, held))
            ↔ IsLowestHolder self.now session oid holder held }
        ensures none { (result ≡ None)
            ↔ ((other : ℕ) → other ≢ session → kind_held self.now other oid ≡ None) }
        ensures value { result ≡ denied_for self.now session oid LockKind.Write }
    {
        first_in_the_way(&self.held, session, oid, LockKind::Write)
    }
}
