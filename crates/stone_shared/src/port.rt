//! A session's way to a Stone that it shares.
ghost use Rattle.std.specs.Prelude.{◌≡◌};
ghost use Rattle.stone_shared.specs.Shared.{port_at};

use crate::named::Named;
use crate::shared::SharedStone;
use gem_clock::Stamp;
use gem_keeper::Keeper;
use gem_meaning::What;
use gem_object::Oid;
use gem_record::TxnRecord;
use lock_table::LockKind;
use std::alloc::{AllocError, Global};
use std::marker::Model;
use std::sync::Wait;
use stone_core::{Begun, CheckAnswer, CommitAnswer, LockAnswer, StonePort};

/// The port of one session of a shared Stone. Contracts see its stamp: the session, and the events
/// that it has seen. Each call may wait for those of other sessions.
pub struct Port<'a, R: Wait, K: Keeper + Drop, N: Named<K>> {
    shared: &'a SharedStone<K, N>,
    rt: &'a R,
    stamp: Option<Stamp<What>>,
}

impl<'a, R: Wait, K: Keeper + Drop, N: Named<K>> Model for Port<'a, R, K, N> {
    ghost use Rattle.std.specs.Prelude.{◌≡◌, Some};
    ghost use Rattle.gem_clock.specs.Shown.{StampView};
    ghost use Rattle.gem_meaning.specs.declared.event.What.{What};
    ghost use Rattle.stone_shared.specs.Shared.{stamp_in};

    ghost Value = { StampView What };

    ghost view = { λ port. stamp_in port.stamp };

    ghost invariant = { λ port. (port.stamp ≡ Some (stamp_in port.stamp))
        × ((stamp_in port.stamp).clock ≡ N.clock) };
}

impl<'a, R: Wait, K: Keeper + Drop, N: Named<K>> Port<'a, R, K, N> {
    pub(crate) fn on(
        shared: &'a SharedStone<K, N>,
        rt: &'a R,
        stamp: Stamp<What>,
    ) -> Port<'a, R, K, N>
        requires { stamp.clock ≡ N.clock }
        ensures { result ≡ stamp }
    {
        Port {
            shared,
            rt,
            stamp: Some(stamp),
        }
    }

    /// Gives the stamp back. It takes no memory.
    pub fn end(self) -> Stamp<What>
        ensures same { result ≡ self.entry }
        ensures named { result.clock ≡ N.clock }
    {
        let Port {
            shared: _,
            rt: _,
            stamp,
        } = self;
        let Some(stamp) = stamp else { unreachable!() };
        stamp
    }
}

impl<'a, R: Wait, K: Keeper + Drop, N: Named<K>> StonePort for Port<'a, R, K, N> {
    ghost state = { λ port. port_at N.opened port };

    fn begin(&mut self, session: u32) -> Result<Begun, AllocError> {
        let Some(stamp) = self.stamp.take() else {
            unreachable!()
        };
        let clock = &self.shared.clock;
        let (begun, stamp) = self
            .shared
            .locked
            .lock(self.rt)
            .begin(clock, stamp, session);
        self.stamp = Some(stamp);
        begun
    }

    fn commit(&mut self, alloc: Global, done: &TxnRecord) -> CommitAnswer {
        let Some(stamp) = self.stamp.take() else {
            unreachable!()
        };
        let clock = &self.shared.clock;
        let (answer, stamp) = self
            .shared
            .locked
            .lock(self.rt)
            .commit(clock, stamp, alloc, done);
        self.stamp = Some(stamp);
        answer
    }

    fn lock(&mut self, session: u32, oid: Oid, kind: LockKind) -> LockAnswer {
        let Some(stamp) = self.stamp.take() else {
            unreachable!()
        };
        let clock = &self.shared.clock;
        let (answer, stamp) = self
            .shared
            .locked
            .lock(self.rt)
            .lock(clock, stamp, session, oid, kind);
        self.stamp = Some(stamp);
        answer
    }

    fn unlock(&mut self, session: u32, oid: Oid) -> bool {
        let Some(stamp) = self.stamp.take() else {
            unreachable!()
        };
        let clock = &self.shared.clock;
        let (held, stamp) = self
            .shared
            .locked
            .lock(self.rt)
            .unlock(clock, stamp, session, oid);
        self.stamp = Some(stamp);
        held
    }

    fn checkpoint(&mut self, alloc: Global, session: u32) -> CheckAnswer {
        let Some(stamp) = self.stamp.take() else {
            unreachable!()
        };
        let clock = &self.shared.clock;
        let (answer, stamp) = self
            .shared
            .locked
            .lock(self.rt)
            .checkpoint(clock, stamp, alloc, session);
        self.stamp = Some(stamp);
        answer
    }

    fn logout(&mut self, session: u32) {
        let Some(stamp) = self.stamp.take() else {
            unreachable!()
        };
        let clock = &self.shared.clock;
        let stamp = self
            .shared
            .locked
            .lock(self.rt)
            .logout(clock, stamp, session);
        self.stamp = Some(stamp);
    }
}
