//! Gates that hold sessions, and so fix which of them goes on.
use gem_io::Gate;
use std::sync::{Mutex, Wait};
use std::thread;

// How often it is looked whether a session may go on. Then the gate gives up, and lets all go on.
const LOOKS: u32 = 20_000_000;

/// What is known of the sessions at a gate, and so which of them may go on.
pub(crate) trait Rule {
    /// The session comes to the command with this number; 0 is its login.
    fn come(&mut self, session: u32, command: u32);

    /// Whether the session may begin the command. If so it has begun it.
    fn may_begin(&mut self, session: u32, command: u32) -> bool;

    /// The session has left.
    fn leave(&mut self, session: u32);

    /// Whether all came that was waited for.
    fn is_over(&self) -> bool;
}

// A rule, and whether somebody waited for too long.
#[derive(Drop)]
struct Held<U: Drop> {
    rule: U,
    gave_up: bool,
}

impl<U: Rule + Drop> Held<U> {
    fn lets(&mut self, session: u32, command: u32) -> bool {
        self.gave_up || self.rule.may_begin(session, command)
    }
}

/// A gate that holds each session until the rule lets it go on.
#[derive(Drop)]
pub(crate) struct RuleGate<U: Drop> {
    held: Mutex<Held<U>>,
}

impl<U: Rule + Drop> RuleGate<U> {
    /// A gate to which no session has come.
    pub(crate) fn new(rule: U) -> RuleGate<U> {
        RuleGate {
            held: Mutex::new(Held {
                rule,
                gave_up: false,
            }),
        }
    }

    /// Whether all came that was waited for, in time.
    pub(crate) fn is_done<R: Wait>(&self, rt: &R) -> bool {
        let held = self.held.lock(rt);
        !held.gave_up && held.rule.is_over()
    }
}

impl<U: Rule + Drop> Gate for RuleGate<U> {
    fn pass<R: Wait>(&self, rt: &R, session: u32, command: u32) {
        self.held.lock(rt).rule.come(session, command);
        for _ in 0..LOOKS {
            if self.held.lock(rt).lets(session, command) {
                return;
            }
            thread::yield_now();
        }
        self.held.lock(rt).gave_up = true;
    }

    fn left<R: Wait>(&self, rt: &R, session: u32) {
        self.held.lock(rt).rule.leave(session);
    }
}

/// Lets sessions begin commands in this order, each a session with the number of a command. The
/// next one begins when the session of the one before has come to its next command or has left.
/// Commands that aren't named begin at once.
#[derive(Drop)]
pub(crate) struct Turns<'a> {
    order: &'a [(u32, u32)],
    begun: usize,
    // The session whose turn it is, or 0.
    now: u32,
}

impl<'a> Turns<'a> {
    /// Nobody has begun.
    pub(crate) fn of(order: &'a [(u32, u32)]) -> Turns<'a> {
        Turns {
            order,
            begun: 0,
            now: 0,
        }
    }
}

impl<'a> Rule for Turns<'a> {
    fn come(&mut self, session: u32, _command: u32) {
        self.leave(session);
    }

    fn may_begin(&mut self, session: u32, command: u32) -> bool {
        let turn = (session, command);
        if !self.order.contains(&turn) {
            return true;
        }
        if self.now != 0 || self.order.get(self.begun) != Some(&turn) {
            return false;
        }
        self.begun += 1;
        self.now = session;
        true
    }

    fn leave(&mut self, session: u32) {
        if self.now == session {
            self.now = 0;
        }
    }

    fn is_over(&self) -> bool {
        self.begun == self.order.len()
    }
}

/// Holds each of so many sessions before its second command until all have come there.
#[derive(Drop)]
pub(crate) struct AllHere {
    pub(crate) count: u32,
    pub(crate) come: u32,
}

impl Rule for AllHere {
    fn come(&mut self, _session: u32, command: u32) {
        if command == 2 {
            self.come = self.come.saturating_add(1);
        }
    }

    fn may_begin(&mut self, _session: u32, command: u32) -> bool {
        command != 2 || self.come >= self.count
    }

    fn leave(&mut self, _session: u32) {}

    fn is_over(&self) -> bool {
        self.come == self.count
    }
}

/// Lets the first of so many sessions run alone. Each of the others is held once more, before its
/// second command, until all of them have come there. Then nobody is held.
#[derive(Drop)]
pub(crate) struct AfterFirst {
    pub(crate) count: u32,
    pub(crate) come: u32,
    pub(crate) left: u32,
}

impl Rule for AfterFirst {
    fn come(&mut self, session: u32, command: u32) {
        if session > 1 && command == 2 {
            self.come = self.come.saturating_add(1);
        }
    }

    fn may_begin(&mut self, session: u32, command: u32) -> bool {
        match command {
            _ if session == 1 => true,
            0 => self.left > 0,
            2 => self.come.saturating_add(1) >= self.count,
            _ => true,
        }
    }

    fn leave(&mut self, _session: u32) {
        self.left = self.left.saturating_add(1);
    }

    fn is_over(&self) -> bool {
        self.left == self.count
    }
}
