//! The commands of a session that end its transaction, are about locks, or store the image.
ghost use Rattle.std.specs.Prelude.{◌≡◌, ◌∷◌, [], IfOk, OnErr};
ghost use Rattle.shell_words.specs.declared.script.Command.TheVariants.{Commit, Lock, Unlock, Checkpoint};
ghost use Rattle.gem_record.specs.Record.{record_of};
ghost use Rattle.gem_meaning.specs.Events.{OthersCame};
ghost use Rattle.gem_meaning.specs.State.{entry_to};
ghost use Rattle.stone_core.specs.Port.{GoesOn};
ghost use Rattle.gem_session.specs.Running.{ends_transaction, commit_line, check_line, lock_line, unlock_line, may_ask, session_state, ComesTo, RepliedBy, FallsShortBy};

use crate::session::Session;
use crate::targets::{Target, kind_asked, lock_target, unlock_target};
use gem_object::{Oid, Text};
use gem_record::TxnRecord;
use gem_replies::Line;
use history_laws::laws::{images_are_sound, placed_as_recorded};
use lock_table::LockKind;
use std::alloc::{AllocError, Global};
use stone_core::{CheckAnswer, CommitAnswer, LockAnswer, StonePort};

impl Session {
    /// Commits the transaction. Where it does, or nothing was written, the next one begins.
    ///
    /// # Errors
    ///
    /// `AllocError` where the next transaction could not be begun for want of memory. The commit
    /// stands then.
    pub(crate) fn commit<P: StonePort>(
        &mut self,
        alloc: Global,
        port: &mut P,
        number: u32,
    ) -> Result<Line, AllocError>
        requires comes { ComesTo (P.state port.old) number self.old Commit }
        ensures replied { IfOk result (λ line. RepliedBy (P.state port.old) (P.state port.new)
            number self.old Commit (line ∷ []) self.new) }
        ensures fell_short { OnErr result (FallsShortBy (P.state port.old) (P.state port.new) number
            self.old Commit) }
        ensures port { GoesOn self.old.session (P.state port.old) (P.state port.new) }
    {
        placed_as_recorded();
        if self.spoiled {
            return Ok(Line::Spoiled);
        }
        let Ok(done) = self.record(number) else {
            return Ok(Line::NoMemory);
        };
        let answer = port.commit(alloc, &done);
        if ends_transaction(&answer) {
            self.begin_next(alloc, port, number)?;
            return Ok(commit_line(answer, self.number));
        }
        Ok(commit_line(answer, self.number))
    }

    /// Asks the Stone to store the image that stands.
    pub(crate) fn checkpoint<P: StonePort>(&self, alloc: Global, port: &mut P, number: u32) -> Line
        requires comes { ComesTo (P.state port.old) number self.now Checkpoint }
        ensures replied { RepliedBy (P.state port.old) (P.state port.new) number self.now
            Checkpoint (result ∷ []) self.now }
        ensures port { GoesOn self.now.session (P.state port.old) (P.state port.new) }
    {
        let answer = port.checkpoint(alloc, self.session);
        check_line(answer)
    }

    // The record of the transaction, with the commit that has this number.
    fn record(&self, number: u32) -> Result<TxnRecord, AllocError>
        ensures { IfOk result (λ done. done ≡ record_of (entry_to number (session_state self.now))
            self.now.view.state.seen.setting self.now.view.state.seen.world) }
    {
        self.view.view().finish(
            self.session,
            self.transaction,
            self.first_command,
            number,
            self.number,
            self.mode,
        )
    }

    /// Locks the object that the name refers to.
    ///
    /// # Errors
    ///
    /// `AllocError` where memory ran out for the look-up of the name or for the reply. The session
    /// has no event then.
    pub(crate) fn lock<P: StonePort>(
        &mut self,
        port: &mut P,
        number: u32,
        write: bool,
        name: &Text,
    ) -> Result<Line, AllocError>
        requires comes { ComesTo (P.state port.old) number self.old (Lock write name.now) }
        ensures replied { IfOk result (λ line. RepliedBy (P.state port.old) (P.state port.new)
            number self.old (Lock write name.now) (line ∷ []) self.new) }
        ensures starved { OnErr result (OthersCame self.old.session
            (P.state port.old).told.events (P.state port.new).told.events) }
        ensures port { GoesOn self.old.session (P.state port.old) (P.state port.new) }
    {
        let kind = kind_asked(write);
        let oid = match lock_target(self.view.view(), kind, name)? {
            Target::Replies(line) => return Ok(line),
            Target::Asks(oid) => oid,
        };
        if self.may_ask(oid) {
            images_are_sound();
            let answer = port.lock(self.session, oid, kind);
            return Ok(lock_line(answer, kind, oid, self.number));
        }
        Ok(Line::NoName(name.clone()?))
    }

    // Whether the Stone may be asked about an object that wasn't made here and on which the user
    // has a right: it stood before the transaction. Where that is spoiled, nothing is known of what
    // it changed.
    fn may_ask(&self, oid: Oid) -> bool
        ensures { result ≡ may_ask self.now oid }
    {
        !self.spoiled || self.image.look(oid).is_some()
    }

    /// Gives the lock on the object that the name refers to back.
    ///
    /// # Errors
    ///
    /// `AllocError` where memory ran out for the look-up of the name or for the reply. The session
    /// has no event then.
    pub(crate) fn unlock<P: StonePort>(
        &mut self,
        port: &mut P,
        number: u32,
        name: &Text,
    ) -> Result<Line, AllocError>
        requires comes { ComesTo (P.state port.old) number self.old (Unlock name.now) }
        ensures replied { IfOk result (λ line. RepliedBy (P.state port.old) (P.state port.new)
            number self.old (Unlock name.now) (line ∷ []) self.new) }
        ensures starved { OnErr result (OthersCame self.old.session
            (P.state port.old).told.events (P.state port.new).told.events) }
        ensures port { GoesOn self.old.session (P.state port.old) (P.state port.new) }
    {
        match unlock_target(self.view.view(), name)? {
            Target::Replies(line) => Ok(line),
            Target::Asks(oid) => {
                let held = port.unlock(self.session, oid);
                Ok(unlock_line(held, oid))
            }
        }
    }
}

// Whether a commit that was answered so ends its transaction.
fn ends_transaction(answer: &CommitAnswer) -> bool
    ensures { result ≡ ends_transaction answer.now }
{
    matches!(answer, CommitAnswer::ReadOnly(_) | CommitAnswer::Placed(_))
}

// The reply to a commit that was answered so, with this view after it.
fn commit_line(answer: CommitAnswer, view: u64) -> Line
    ensures { result ≡ commit_line answer view }
{
    match answer {
        CommitAnswer::Halted(number) => Line::Halted(number),
        CommitAnswer::ReadOnly(at) => Line::Unchanged { at, view },
        CommitAnswer::Conflicts(found) => Line::Refused(found),
        CommitAnswer::LogFull { length, size } => Line::LogFull { length, size },
        CommitAnswer::DiskFault => Line::DiskFault,
        CommitAnswer::Placed(number) => Line::Committed { number, view },
        CommitAnswer::NoMemory => Line::NoMemory,
    }
}

// The reply to a checkpoint that was answered so.
fn check_line(answer: CheckAnswer) -> Line
    ensures { result ≡ check_line answer }
{
    match answer {
        CheckAnswer::Halted(number) => Line::Halted(number),
        CheckAnswer::Full(pages) => Line::ExtentFull(pages),
        CheckAnswer::DiskFault => Line::DiskFault,
        CheckAnswer::Made(number) => Line::Checkpoint(number),
        CheckAnswer::NoMemory => Line::NoMemory,
    }
}

// The reply to a lock that was answered so, by a session at the view with this number.
fn lock_line(answer: LockAnswer, asked: LockKind, oid: Oid, view: u64) -> Line
    ensures { result ≡ lock_line answer asked oid view }
{
    match answer {
        LockAnswer::Granted { kind, changed } => Line::Locked {
            kind,
            oid,
            clean: changed <= view,
        },
        LockAnswer::Denied { holder, kind } => Line::Denied {
            kind: asked,
            oid,
            holder,
            held: kind,
        },
        LockAnswer::NoMemory => Line::NoMemory,
    }
}

// The reply to an unlock, by whether the session held the object.
fn unlock_line(held: bool, oid: Oid) -> Line
    ensures { result ≡ unlock_line held oid }
{
    if held {
        Line::Unlocked(oid)
    } else {
        Line::NotHeld(oid)
    }
}
