//! A Stone that several sessions use.
ghost use Rattle.std.specs.Prelude.{◌≡◌, [], Some};
ghost use Rattle.gem_clock.specs.Shown.{first_pen};

use crate::locked::Locked;
use crate::named::Named;
use crate::port::Port;
use crate::settled::Settled;
use gem_clock::{Clock, Pen, Stamp};
use gem_keeper::Keeper;
use gem_meaning::What;
use std::sync::{Mutex, Wait};
use stone_core::Stone;

/// The named Stone behind a lock, with the named clock. Sessions reach it by ports.
#[derive(Drop)]
pub struct SharedStone<K: Keeper + Drop, N: Named<K>> {
    pub(crate) clock: Clock<What>,
    pub(crate) locked: Mutex<Locked<K, N>>,
    ghost named: { clock ≡ N.clock },
}

impl<K: Keeper + Drop, N: Named<K>> SharedStone<K, N> {
    /// Shares a Stone that has no event yet, with a new clock. It takes no memory.
    pub fn make(stone: Stone<K>, clock: Clock<What>, pen: Pen<What>) -> SharedStone<K, N>
        requires clock { clock ≡ N.clock }
        requires pen { pen ≡ first_pen N.clock }
        requires opened { stone.told.opened ≡ N.opened }
        requires started { N.keeper ≡ Some stone.started }
        requires fresh { stone.told.events ≡ [] }
    {
        SharedStone {
            clock,
            locked: Mutex::new(Locked::of(stone, pen)),
        }
    }

    /// The port of the stamp's session. It takes no memory and waits for nobody.
    pub fn port<'a, R: Wait>(&'a self, rt: &'a R, stamp: Stamp<What>) -> Port<'a, R, K, N>
        requires { stamp.clock ≡ N.clock }
        ensures { result ≡ stamp }
    {
        Port::on(self, rt, stamp)
    }

    /// No session uses the Stone any more.
    pub fn settle(self) -> Settled<K, N> {
        Settled::of(self.clock, self.locked.into_inner())
    }
}
