//! A Stone that sessions shared.
ghost use Rattle.std.specs.Prelude.{◌≡◌, Some};
ghost use Rattle.gem_clock.specs.Pairs.{Knows};

use crate::locked::Locked;
use crate::named::Named;
use gem_clock::{Clock, Stamp};
use gem_keeper::Keeper;
use gem_meaning::What;
use std::marker::Model;
use stone_core::Stone;

/// The named Stone, which no session uses any more. Contracts see its events.
#[derive(Drop)]
pub struct Settled<K: Keeper + Drop, N: Named<K>> {
    clock: Clock<What>,
    locked: Locked<K, N>,
}

impl<K: Keeper + Drop, N: Named<K>> Model for Settled<K, N> {
    ghost use Rattle.std.specs.Prelude.{◌≡◌, List};
    ghost use Rattle.gem_meaning.specs.Events.{Event};

    ghost Value = { List Event };

    ghost view = { λ settled. settled.locked };

    ghost invariant = { λ settled. settled.clock ≡ N.clock };
}

impl<K: Keeper + Drop, N: Named<K>> Settled<K, N> {
    pub(crate) fn of(clock: Clock<What>, locked: Locked<K, N>) -> Settled<K, N>
        requires { clock ≡ N.clock }
    {
        Settled { clock, locked }
    }

    /// Takes a session's stamp, and tells what it knows: what the session had seen is a front of the
    /// Stone's events, and it had seen all its own. It takes no memory.
    pub fn meet(&mut self, stamp: Stamp<What>)
        requires { stamp.clock ≡ N.clock }
        ensures same { self.new ≡ self.old }
        ensures met { Knows stamp.author stamp.list self.new }
    {
        self.locked.meet(&self.clock, stamp);
    }

    /// Gives the Stone back. It takes no memory.
    pub fn into_stone(self) -> Stone<K>
        ensures events { result.told.events ≡ self }
        ensures opened { result.told.opened ≡ N.opened }
        ensures started { N.keeper ≡ Some result.started }
    {
        self.locked.into_stone()
    }
}
