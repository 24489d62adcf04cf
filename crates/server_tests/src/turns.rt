//! A gate at which the sessions of a script run one after another.
use gem_io::Gate;
use std::sync::{Mutex, Wait};
use std::test::Fail;
use std::thread;

// How often it is looked whether a session may begin. Then the gate gives up, and lets all begin.
const LOOKS: u32 = 20_000_000;

#[derive(Clone, Copy)]
struct Turns {
    left: u32,
    gave_up: bool,
}

/// Lets each session log in once the ones before it in the script have left.
#[derive(Drop)]
pub(crate) struct TurnGate {
    turns: Mutex<Turns>,
}

impl TurnGate {
    /// No session has left.
    pub(crate) fn new() -> TurnGate {
        TurnGate {
            turns: Mutex::new(Turns {
                left: 0,
                gave_up: false,
            }),
        }
    }

    /// Fails where a session waited for too long.
    pub(crate) fn check<R: Wait>(&self, rt: &R) -> Result<(), Fail> {
        if self.turns.lock(rt).gave_up {
            return Err(Fail::new("a session waited for too long"));
        }
        Ok(())
    }
}

impl Gate for TurnGate {
    fn pass<R: Wait>(&self, rt: &R, session: u32, command: u32) {
        if command > 0 {
            return;
        }
        for _ in 0..LOOKS {
            let Turns { left, gave_up } = *self.turns.lock(rt);
            if gave_up || session <= left.saturating_add(1) {
                return;
            }
            thread::yield_now();
        }
        self.turns.lock(rt).gave_up = true;
    }

    fn left<R: Wait>(&self, rt: &R, _session: u32) {
        let mut turns = self.turns.lock(rt);
        turns.left = turns.left.saturating_add(1);
    }
}
