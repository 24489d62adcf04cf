//! What lies behind the lock: the Stone, and the pen of the clock.
ghost use Rattle.std.specs.Prelude.{◌≡◌, ◌≤◌, ◌<◌, ◌^◌, true, IfOk, IfErr, IsSome, Some, length, take, drop};
ghost use Rattle.std.specs.FinMap.{get};
ghost use Rattle.std.specs.List.{All};
ghost use Rattle.gem_clock.specs.Pairs.{Has, Knows};
ghost use Rattle.gem_clock.specs.Shown.{first_pen};
ghost use Rattle.gem_meaning.specs.Events.{OthersCame, standing};
ghost use Rattle.gem_meaning.specs.Serial.{IsRecorded};
ghost use Rattle.stone_core.specs.Port.{BeginSays, CommitSays, LockSays, UnlockSays, CheckSays, LogoutSays, GoesOn};
ghost use Rattle.stone_shared.specs.Shared.{told_at, port_at, IsStampAfter};

use crate::named::Named;
use gem_clock::{Clock, Pen, Stamp};
use gem_keeper::Keeper;
use gem_meaning::What;
use gem_object::Oid;
use gem_record::TxnRecord;
use lock_table::LockKind;
use std::alloc::{AllocError, Global};
use std::marker::{Model, PhantomData};
use stone_core::{Begun, CheckAnswer, CommitAnswer, LockAnswer, Stone, StonePort};

/// The named Stone, and the pen of the named clock, whose list is the Stone's events. Contracts see
/// these. Each call is one of a session, which hands in its stamp and gets a new one.
#[derive(Drop)]
pub(crate) struct Locked<K: Keeper + Drop, N: Named<K>> {
    stone: Stone<K>,
    pen: Pen<What>,
    of: PhantomData<N>,
}

impl<K: Keeper + Drop, N: Named<K>> Model for Locked<K, N> {
    ghost use Rattle.std.specs.Prelude.{◌≡◌, List, Some};
    ghost use Rattle.gem_meaning.specs.Events.{Event};

    ghost Value = { List Event };

    ghost view = { λ locked. locked.stone.told.events };

    ghost invariant = { λ locked. (locked.pen.clock ≡ N.clock)
        × (locked.pen.list ≡ locked.stone.told.events)
        × (locked.stone.told.opened ≡ N.opened)
        × (N.keeper ≡ Some locked.stone.started) };
}

impl<K: Keeper + Drop, N: Named<K>> Locked<K, N> {
    /// The Stone and the pen, which are the named ones.
    pub(crate) fn of(stone: Stone<K>, pen: Pen<What>) -> Locked<K, N>
        requires clock { pen.clock ≡ N.clock }
        requires list { pen.list ≡ stone.told.events }
        requires opened { stone.told.opened ≡ N.opened }
        requires started { N.keeper ≡ Some stone.started }
        ensures { result ≡ stone.told.events }
    {
        Locked {
            stone,
            pen,
            of: PhantomData,
        }
    }

    pub(crate) fn begin(
        &mut self,
        clock: &Clock<What>,
        stamp: Stamp<What>,
        session: u32,
    ) -> (Result<Begun, AllocError>, Stamp<What>)
        requires clock { clock.now ≡ N.clock }
        requires stamp { stamp.clock ≡ N.clock }
        requires serves { (port_at N.opened stamp).serves session ≡ true }
        ensures begun { IfOk result.0 (λ begun. BeginSays N.opened session stamp.list
            result.1.list begun.image begun.number) }
        ensures starved { IfErr result.0 (λ _. OthersCame session stamp.list result.1.list) }
        ensures stamp { IsStampAfter stamp result.1 }
        ensures now { result.1.list ≡ self.new }
        ensures port { GoesOn session (port_at N.opened stamp) (port_at N.opened result.1) }
    {
        clock.meet(&mut self.pen, stamp);
        let seen = self.stone.events().len();
        let begun = StonePort::begin(&mut self.stone, session);
        note(clock, &mut self.pen, self.stone.events(), session, seen);
        (begun, clock.stamp(&mut self.pen, session))
    }

    pub(crate) fn commit(
        &mut self,
        clock: &Clock<What>,
        stamp: Stamp<What>,
        alloc: Global,
        done: &TxnRecord,
    ) -> (CommitAnswer, Stamp<What>)
        requires clock { clock.now ≡ N.clock }
        requires stamp { stamp.clock ≡ N.clock }
        requires serves { (port_at N.opened stamp).serves done.now.session ≡ true }
        requires recorded { IsRecorded (told_at N.opened stamp) done.now }
        ensures says { CommitSays N.opened stamp.list result.1.list done.now result.0 }
        ensures stamp { IsStampAfter stamp result.1 }
        ensures now { result.1.list ≡ self.new }
        ensures port { GoesOn done.now.session (port_at N.opened stamp)
            (port_at N.opened result.1) }
    {
        clock.meet(&mut self.pen, stamp);
        let seen = self.stone.events().len();
        let answer = StonePort::commit(&mut self.stone, alloc, done);
        note(
            clock,
            &mut self.pen,
            self.stone.events(),
            done.session,
            seen,
        );
        (answer, clock.stamp(&mut self.pen, done.session))
    }

    pub(crate) fn lock(
        &mut self,
        clock: &Clock<What>,
        stamp: Stamp<What>,
        session: u32,
        oid: Oid,
        kind: LockKind,
    ) -> (LockAnswer, Stamp<What>)
        requires clock { clock.now ≡ N.clock }
        requires stamp { stamp.clock ≡ N.clock }
        requires serves { (port_at N.opened stamp).serves session ≡ true }
        requires there { IsSome (get (standing (told_at N.opened stamp)).image oid) }
        ensures says { LockSays N.opened stamp.list result.1.list session oid kind result.0 }
        ensures stamp { IsStampAfter stamp result.1 }
        ensures now { result.1.list ≡ self.new }
        ensures port { GoesOn session (port_at N.opened stamp) (port_at N.opened result.1) }
    {
        clock.meet(&mut self.pen, stamp);
        let seen = self.stone.events().len();
        let answer = StonePort::lock(&mut self.stone, session, oid, kind);
        note(clock, &mut self.pen, self.stone.events(), session, seen);
        (answer, clock.stamp(&mut self.pen, session))
    }

    pub(crate) fn unlock(
        &mut self,
        clock: &Clock<What>,
        stamp: Stamp<What>,
        session: u32,
        oid: Oid,
    ) -> (bool, Stamp<What>)
        requires clock { clock.now ≡ N.clock }
        requires stamp { stamp.clock ≡ N.clock }
        requires serves { (port_at N.opened stamp).serves session ≡ true }
        ensures says { UnlockSays N.opened stamp.list result.1.list session oid result.0 }
        ensures stamp { IsStampAfter stamp result.1 }
        ensures now { result.1.list ≡ self.new }
        ensures port { GoesOn session (port_at N.opened stamp) (port_at N.opened result.1) }
    {
        clock.meet(&mut self.pen, stamp);
        let seen = self.stone.events().len();
        let held = StonePort::unlock(&mut self.stone, session, oid);
        note(clock, &mut self.pen, self.stone.events(), session, seen);
        (held, clock.stamp(&mut self.pen, session))
    }

    pub(crate) fn checkpoint(
        &mut self,
        clock: &Clock<What>,
        stamp: Stamp<What>,
        alloc: Global,
        session: u32,
    ) -> (CheckAnswer, Stamp<What>)
        requires clock { clock.now ≡ N.clock }
        requires stamp { stamp.clock ≡ N.clock }
        requires serves { (port_at N.opened stamp).serves session ≡ true }
        ensures says { CheckSays N.opened stamp.list result.1.list session result.0 }
        ensures stamp { IsStampAfter stamp result.1 }
        ensures now { result.1.list ≡ self.new }
        ensures port { GoesOn session (port_at N.opened stamp) (port_at N.opened result.1) }
    {
        clock.meet(&mut self.pen, stamp);
        let seen = self.stone.events().len();
        let answer = StonePort::checkpoint(&mut self.stone, alloc, session);
        note(clock, &mut self.pen, self.stone.events(), session, seen);
        (answer, clock.stamp(&mut self.pen, session))
    }

    pub(crate) fn logout(
        &mut self,
        clock: &Clock<What>,
        stamp: Stamp<What>,
        session: u32,
    ) -> Stamp<What>
        requires clock { clock.now ≡ N.clock }
        requires stamp { stamp.clock ≡ N.clock }
        requires serves { (port_at N.opened stamp).serves session ≡ true }
        ensures says { LogoutSays N.opened stamp.list result.list session }
        ensures stamp { IsStampAfter stamp result }
        ensures now { result.list ≡ self.new }
        ensures port { GoesOn session (port_at N.opened stamp) (port_at N.opened result) }
    {
        clock.meet(&mut self.pen, stamp);
        let seen = self.stone.events().len();
        StonePort::logout(&mut self.stone, session);
        note(clock, &mut self.pen, self.stone.events(), session, seen);
        clock.stamp(&mut self.pen, session)
    }

    /// Takes a stamp back that isn't used any more, and tells what became of what it had seen.
    pub(crate) fn meet(&mut self, clock: &Clock<What>, stamp: Stamp<What>)
        requires clock { clock.now ≡ N.clock }
        requires stamp { stamp.clock ≡ N.clock }
        ensures same { self.new ≡ self.old }
        ensures met { Knows stamp.author stamp.list self.new }
    {
        clock.meet(&mut self.pen, stamp);
    }

    /// Gives the Stone back.
    pub(crate) fn into_stone(self) -> Stone<K>
        ensures events { result.told.events ≡ self }
        ensures opened { result.told.opened ≡ N.opened }
        ensures started { N.keeper ≡ Some result.started }
    {
        self.stone
    }
}

// Adds the session's events after the first ones, so many, to the pen's list, which has those.
fn note(clock: &Clock<What>, pen: &mut Pen<What>, events: &[(u32, What)], session: u32, seen: usize)
    requires clock { pen.old.clock ≡ clock.now }
    requires held { Has pen.old.held session }
    requires within { seen ≤ length events.now }
    requires list { pen.old.list ≡ take seen events.now }
    requires own { All (λ event. event.0 ≡ session) (drop seen events.now) }
    ensures { pen.new ≡ record pen.old { list = events.now } }
{
    for event in &events[seen..] {
        clock.advance(pen, session, &event.1);
    }
}
