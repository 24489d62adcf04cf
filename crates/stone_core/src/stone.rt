//! The Stone.
ghost use Rattle.std.specs.Prelude.{◌≡◌, ◌≤◌, ◌<◌, ◌↔◌, [], ◌+◌, ◌*◌, ◌^◌, length, true, IfOk, OnErr, IfErr, IsTrue, IsSome, is_some};
ghost use Rattle.std.specs.FinMap.{get};
ghost use Rattle.std.specs.Option.{option_to_list};
ghost use Rattle.commit_check.specs.Conflicts.{last_change, merged_objects};
ghost use Rattle.gem_meaning.specs.Effect.{IsUnchanged, MergesFit, effect_at};
ghost use Rattle.gem_meaning.specs.Events.{standing, entries_of, conflicts_at, told_more, halts_in, IsRunning, OthersCame};
ghost use Rattle.gem_meaning.specs.Serial.{IsRecorded, IsConsistent, CanServe};
ghost use Rattle.gem_meaning.specs.Locks.{leaving};
ghost use Rattle.stone_core.specs.Kept.{IsKept, CommitKeeps, CheckKeeps, CommitHolds, CheckHolds};
ghost use Rattle.gem_keeper.specs.Found.{StandsFor};
ghost use Rattle.gem_keeper.specs.Crashes.{FitsNow, KeepsOnly};
ghost use Rattle.stone_core.specs.Crashes.{MayBeLeftDuring};
ghost use Rattle.stone_core.specs.Stone.{is_session};
ghost use Rattle.stone_core.specs.Port.{event_of_answer, AnswerFits, BeginSays, CommitSays, event_of_lock, LockFits, LockSays, dropping, UnlockSays, event_of_check, CheckFits, CheckSays, LogoutSays, GoesOn, alone_with};
ghost use Rattle.lock_table.specs.Locks.{kind_held};
ghost use Rattle.gem_meaning.specs.Serial.{HoldsSome};

use crate::effect::{body_of, effect_of, fit, next_image};
use crate::port::{Begun, CheckAnswer, CommitAnswer, LockAnswer, StonePort};
use commit_check::conflicts;
use gem_image::Image;
use gem_keeper::{CheckFault, Keeper};
use gem_meaning::What;
use gem_object::{Object, Oid};
use gem_record::{ByName, Entry, TxnRecord};
use history_laws::laws::{images_are_sound, names_are_free, placed_as_recorded};
use lock_table::{Asked, LockKind, Locks};
use radix_pages::Steps;
use shell_words::Script;
use std::alloc::{AllocError, Global};
use std::marker::{Brand, Model};
use std::snapshot::Snapshot;
use std::sync::Arc;
use std::sync::ledger::{Blank, Ledger};
use tran_log::AppendFault;

// The end of the numbers that can be stored.
const NUMBER_LIMIT: u64 = 1 << 63;

/// The one place where transactions of a script are committed, one after the other, and where
/// objects are locked. Each commit is judged by what has been committed since its view, and by the
/// locks that other sessions hold.
///
/// A contract sees it as a `Kept`: what it was opened with and its events since, and its keeper as
/// it was at the start and as it is. The image, the number of commits, the locks and the history
/// are those that stand after the events, which are consistent: each is of a session of the script,
/// and the commits have a serial order. There is room for an event that ends each lock, so that no
/// lock is held for want of memory. While the disk hasn't failed the keeper is ready, and its log's
/// length and its root are those that follow from the events; and it has failed only where the
/// keeper's count tells so.
#[derive(Drop)]
pub struct Stone<K: Keeper + Drop> {
    opened_image: Image,
    opened_number: u64,
    script: Arc<Script>,
    image: Image,
    number: u64,
    locks: Locks,
    history: Vec<Entry>,
    events: Vec<(u32, What)>,
    halted: Option<u64>,
    started: Snapshot<K>,
    keeper: K,
}

/// What is left of a Stone that was closed.
#[derive(Drop)]
pub struct Closed<K: Drop> {
    /// What it was kept by.
    pub keeper: K,
    /// The entries of the commits, in order.
    pub history: Vec<Entry>,
    /// The events, in order, each with the number of the session that made it.
    pub events: Vec<(u32, What)>,
    /// The number that was being stored where the disk failed, if it did.
    pub halted: Option<u64>,
}

impl<K: Keeper + Drop> Model for Stone<K> {
    ghost use Rattle.std.specs.Coded.{codes, coded_ℕ};
    ghost use Rattle.std.specs.Ordering.{nat_cmp};
    ghost use Rattle.std.specs.FinMap as map;
    ghost use Rattle.gem_object.specs.contracts.object.Object as object;
    ghost use Rattle.stone_core.specs.Kept.{Kept};
    ghost use Rattle.stone_core.specs.Inside.{kept_by, IsWholeStone};

    ghost Value = { Kept K };

    ghost coded = { Prim.hlevel (codes, map.code {R = nat_cmp} coded_ℕ object.the_row.coded, K.code) };

    ghost view = { kept_by K.counts_pages K.stored };

    ghost invariant = { IsWholeStone K.counts_pages K.stored K.ready K.faults K.tells K.moment K.stands
        K.left_since };
}

impl<K: Keeper + Drop> Stone<K> {
    /// A Stone that is opened with this image, which has so many commits, for the sessions of this
    /// script, and that stores its commits with this keeper. Where the keeper tells what it stands
    /// for, it is this image, and a crash at this moment leaves it. Each session draws names of a
    /// serial of its own, from the one after the image's largest on: `largest_serial` gives that
    /// one.
    ///
    /// # Errors
    ///
    /// The keeper, where memory ran out.
    pub fn start(
        alloc: Global,
        image: Image,
        number: u64,
        script: Arc<Script>,
        keeper: K,
    ) -> Result<Stone<K>, K>
        requires serves { CanServe (record {
          image = image;
          number = number;
          script = script.value;
          stored = K.stored keeper;
          counts_pages = K.counts_pages;
        }) }
        requires ready { K.ready keeper ≡ true }
        requires stands { IsTrue K.tells
            → FitsNow K.moment K.stands K.left_since keeper (StandsFor image number) }
        ensures stone { IfOk result (λ stone. stone ≡ record {
          told = record {
            opened = record {
              image = image;
              number = number;
              script = script.value;
              stored = K.stored keeper;
              counts_pages = K.counts_pages;
            };
            events = [];
          };
          started = keeper;
          keeper = keeper;
        }) }
        ensures keeper { IfErr result (λ back. back ≡ keeper) }
    {
        let Ok(opened_image) = image.share() else {
            return Err(keeper);
        };
        Ok(Stone {
            opened_image,
            opened_number: number,
            script,
            image,
            number,
            locks: Locks::new(alloc),
            history: Vec::new(alloc),
            events: Vec::new(alloc),
            halted: None,
            started: Snapshot::of(&keeper),
            keeper,
        })
    }

    /// The events, in order, each with the number of the session that made it.
    pub fn events(&self) -> &[(u32, What)]
        ensures { result.now ≡ self.now.told.events }
    {
        &self.events
    }

    /// The image and the number of this moment.
    ///
    /// # Errors
    ///
    /// `AllocError` where memory ran out.
    pub fn begin(&self) -> Result<Begun, AllocError>
        ensures image { IfOk result (λ begun. begun.image ≡ (standing self.now.told).image) }
        ensures number { IfOk result (λ begun. begun.number ≡ (standing self.now.told).number) }
    {
        Ok(Begun {
            image: self.image.share()?,
            number: self.number,
        })
    }

    /// Commits what a transaction did. The record has to be what running its commands gives where
    /// all stands as at its view.
    ///
    /// Where the disk had failed that is answered. Otherwise it is read only exactly where nothing
    /// was written or updated, else refused exactly where there are conflicts, else `LogFull`
    /// exactly where the log has no room for its record, and else placed, with the next number,
    /// unless the disk fails. Every other answer, also that memory ran out, leaves the Stone as it
    /// was. A merge that makes a body of 2^32 pairs or items, which can't be stored, counts as want
    /// of memory, and so does the commit with the number 2^63. An object of the effect builds at
    /// most 8 nodes of the next image, however many objects the image has.
    ///
    /// Each crash in the call leaves what one before the call may, or what one after it may. What the
    /// type says of every Stone's keeper is said of it once more. So an acknowledged commit is in what
    /// each later crash leaves, in later calls too.
    pub fn commit<L: Ledger>(
        &mut self,
        alloc: Global,
        done: &TxnRecord,
        steps: &mut Steps<L>,
    ) -> CommitAnswer
        requires recorded { IsRecorded self.old.told done.now }
        ensures events { self.new.told ≡ told_more self.old.told
            (event_of_answer (standing self.old.told).number done.now result) }
        ensures answer { AnswerFits self.old.told.opened self.old.told.events done.now result }
        ensures started { self.new.started ≡ self.old.started }
        ensures keeper { CommitKeeps K.faults self.old.keeper self.new.keeper result }
        ensures kept { IsKept K.stored K.ready K.faults K.tells K.moment K.stands K.left_since
            self.new.told self.new.started self.new.keeper }
        ensures holding { IsTrue K.tells
            → KeepsOnly K.moment K.left_since self.old.keeper self.new.keeper
            (MayBeLeftDuring self.old.told.opened self.old.told.events self.new.told.events) }
        ensures nodes { steps.new ≤ steps.old + 8 * length
            (effect_at (standing self.old.told).image ((standing self.old.told).number + 1) done.now) }
    {
        self.keeps_order();
        let answer = self.answer(alloc, done, steps);
        self.keeps_order();
        answer
    }

    /// Locks an object for the session, which has to be there. Where another session's lock is in
    /// the way the lowest such session is named. A session that asks again keeps the greater kind.
    /// Only a grant changes something.
    pub fn lock(&mut self, session: u32, oid: Oid, kind: LockKind) -> LockAnswer
        requires serves { is_session self.old.told.opened.script session ≡ true }
        requires there { IsSome (get (standing self.old.told).image oid) }
        ensures events { self.new.told ≡ told_more self.old.told (event_of_lock session oid result) }
        ensures started { self.new.started ≡ self.old.started }
        ensures keeper { self.new.keeper ≡ self.old.keeper }
        ensures answer { LockFits (standing self.old.told) session oid kind result }
    {
        if let Some((holder, held)) = self.locks.denies(session, oid.number(), kind) {
            return LockAnswer::Denied { holder, kind: held };
        }
        let room = self.locks.count() + 2;
        let Ok(()) = self.events.reserve(room) else {
            return LockAnswer::NoMemory;
        };
        let changed = last_change(&self.image, oid);
        match self.locks.request(session, oid.number(), kind) {
            Asked::Granted(now) => {
                let Ok(()) = self.events.push((session, What::Held(oid, now))) else {
                    unreachable!()
                };
                LockAnswer::Granted { kind: now, changed }
            }
            Asked::Denied { holder, kind } => LockAnswer::Denied { holder, kind },
            Asked::NoMemory => LockAnswer::NoMemory,
        }
    }

    /// Gives the session's lock on an object back; whether it held one. It takes no memory.
    pub fn unlock(&mut self, session: u32, oid: Oid) -> bool
        requires serves { is_session self.old.told.opened.script session ≡ true }
        ensures events { self.new.told ≡ told_more self.old.told (dropping result session oid) }
        ensures started { self.new.started ≡ self.old.started }
        ensures keeper { self.new.keeper ≡ self.old.keeper }
        ensures held { result ≡ is_some (kind_held (standing self.old.told).locks session oid) }
    {
        if !self.locks.release(session, oid.number()) {
            return false;
        }
        let Ok(()) = self.events.push((session, What::Dropped(oid))) else {
            unreachable!()
        };
        true
    }

    /// Ends the session: all its locks are gone. Whether it held one. It takes no memory.
    pub fn logout(&mut self, session: u32) -> bool
        requires serves { is_session self.old.told.opened.script session ≡ true }
        ensures events { self.new.told ≡ told_more self.old.told (leaving result session) }
        ensures started { self.new.started ≡ self.old.started }
        ensures keeper { self.new.keeper ≡ self.old.keeper }
        ensures held { IsTrue result ↔ HoldsSome (standing self.old.told) session }
    {
        if !self.locks.release_all(session) {
            return false;
        }
        let Ok(()) = self.events.push((session, What::Left)) else {
            unreachable!()
        };
        true
    }

    /// Stores the image that stands, and empties the log.
    ///
    /// Where the disk had failed that is answered. Otherwise it is `Full` exactly where it would
    /// count too many pages, and else made, unless the disk fails. Every other answer, also that
    /// memory ran out, leaves the Stone as it was. Of crashes it says what `commit` does.
    pub fn checkpoint(&mut self, alloc: Global, session: u32) -> CheckAnswer
        requires serves { is_session self.old.told.opened.script session ≡ true }
        ensures events { self.new.told ≡ told_more self.old.told
            (event_of_check session (standing self.old.told).number result) }
        ensures answer { CheckFits self.old.told.opened self.old.told.events result }
        ensures started { self.new.started ≡ self.old.started }
        ensures keeper { CheckKeeps K.faults self.old.keeper self.new.keeper result }
        ensures kept { IsKept K.stored K.ready K.faults K.tells K.moment K.stands K.left_since
            self.new.told self.new.started self.new.keeper }
        ensures holding { IsTrue K.tells
            → KeepsOnly K.moment K.left_since self.old.keeper self.new.keeper
            (MayBeLeftDuring self.old.told.opened self.old.told.events self.new.told.events) }
    {
        self.keeps_order();
        let answer = self.check(alloc, session);
        self.keeps_order();
        answer
    }

    // The answer to a checkpoint.
    fn check(&mut self, alloc: Global, session: u32) -> CheckAnswer
        requires serves { is_session self.old.told.opened.script session ≡ true }
        ensures events { self.new.told ≡ told_more self.old.told
            (event_of_check session (standing self.old.told).number result) }
        ensures answer { CheckFits self.old.told.opened self.old.told.events result }
        ensures started { self.new.started ≡ self.old.started }
        ensures keeper { CheckKeeps K.faults self.old.keeper self.new.keeper result }
        ensures holding { CheckHolds K.tells K.moment K.left_since self.old.told.opened
            self.old.told.events self.new.told.events self.old.keeper self.new.keeper result }
    {
        if let Some(number) = self.halted {
            return CheckAnswer::Halted(number);
        }
        let room = self.locks.count() + 1;
        let Ok(()) = self.events.reserve(room) else {
            return CheckAnswer::NoMemory;
        };
        match self.keeper.checkpoint(alloc, &self.image, self.number) {
            Ok(()) => {
                let Ok(()) = self.events.push((session, What::Checked)) else {
                    unreachable!()
                };
                CheckAnswer::Made(self.number)
            }
            Err(CheckFault::Full { pages }) => CheckAnswer::Full(pages),
            Err(CheckFault::NoMemory) => CheckAnswer::NoMemory,
            Err(CheckFault::Disk) => {
                let halted = What::Halted(self.number, None);
                let Ok(()) = self.events.push((session, halted)) else {
                    unreachable!()
                };
                self.halted = Some(self.number);
                CheckAnswer::DiskFault
            }
        }
    }

    /// Closes the Stone. It takes no memory.
    pub fn close(self) -> Closed<K>
        ensures events { result.events.items ≡ self.told.events }
        ensures history { result.history.items ≡ entries_of self.told.events }
        ensures halted { option_to_list result.halted ≡ halts_in self.told.events }
        ensures consistent { IsConsistent self.told }
        ensures keeper { result.keeper ≡ self.keeper }
        ensures kept { IsKept K.stored K.ready K.faults K.tells K.moment K.stands K.left_since
            self.told self.started self.keeper }
    {
        Closed {
            keeper: self.keeper,
            history: self.history,
            events: self.events,
            halted: self.halted,
        }
    }

    // Whether the number hasn't fallen since the opening, which is always so. What else the type
    // says of every Stone is told with it.
    fn keeps_order(&self) -> bool
        ensures opening { CanServe self.now.told.opened }
        ensures consistent { IsConsistent self.now.told }
        ensures kept { IsKept K.stored K.ready K.faults K.tells K.moment K.stands K.left_since
            self.now.told self.now.started self.now.keeper }
    {
        self.opened_number <= self.number
    }

    // The answer to a commit.
    fn answer<L: Ledger>(
        &mut self,
        alloc: Global,
        done: &TxnRecord,
        steps: &mut Steps<L>,
    ) -> CommitAnswer
        requires recorded { IsRecorded self.old.told done.now }
        ensures events { self.new.told ≡ told_more self.old.told
            (event_of_answer (standing self.old.told).number done.now result) }
        ensures answer { AnswerFits self.old.told.opened self.old.told.events done.now result }
        ensures started { self.new.started ≡ self.old.started }
        ensures keeper { CommitKeeps K.faults self.old.keeper self.new.keeper result }
        ensures holding { CommitHolds K.tells K.moment K.left_since self.old.told.opened
            self.old.told.events self.new.told.events self.old.keeper self.new.keeper result }
        ensures nodes { steps.new ≤ steps.old + 8 * length
            (effect_at (standing self.old.told).image ((standing self.old.told).number + 1) done.now) }
    {
        if let Some(number) = self.halted {
            return CommitAnswer::Halted(number);
        }
        if done.written.as_slice().is_empty() && done.updates.as_slice().is_empty() {
            return CommitAnswer::ReadOnly(done.view);
        }
        match self.place_or_refuse(alloc, done, steps) {
            Ok(answer) => answer,
            Err(AllocError) => CommitAnswer::NoMemory,
        }
    }

    // The answer to a commit of a transaction that wrote or updated something, where memory
    // suffices and what the merges make can be stored.
    fn place_or_refuse<L: Ledger>(
        &mut self,
        alloc: Global,
        done: &TxnRecord,
        steps: &mut Steps<L>,
    ) -> Result<CommitAnswer, AllocError>
        requires recorded { IsRecorded self.old.told done.now }
        requires running { IsRunning self.old.told.events }
        requires changed { IsUnchanged done.now → ⊥ }
        ensures events { IfOk result (λ answer. self.new.told ≡ told_more self.old.told
            (event_of_answer (standing self.old.told).number done.now answer)) }
        ensures answer { IfOk result (λ answer.
            AnswerFits self.old.told.opened self.old.told.events done.now answer) }
        ensures started { self.new.started ≡ self.old.started }
        ensures keeper { IfOk result (CommitKeeps K.faults self.old.keeper self.new.keeper) }
        ensures holding { IfOk result (CommitHolds K.tells K.moment K.left_since
            self.old.told.opened self.old.told.events self.new.told.events self.old.keeper
            self.new.keeper) }
        ensures starved { OnErr result (self.new ≡ self.old) }
        ensures nodes { steps.new ≤ steps.old + 8 * length
            (effect_at (standing self.old.told).image ((standing self.old.told).number + 1) done.now) }
    {
        let judged = conflicts(alloc, &self.image, done, &self.locks)?;
        if !judged.conflicts.as_slice().is_empty() {
            return Ok(CommitAnswer::Conflicts(judged.conflicts));
        }
        if !fit(judged.merged.as_slice()) {
            return Err(AllocError);
        }
        self.place(alloc, done, judged.merged, steps)
    }

    // The answer to the commit of a transaction that has no conflict. All memory is taken before
    // the keeper is asked, and before anything changes.
    fn place<L: Ledger>(
        &mut self,
        alloc: Global,
        done: &TxnRecord,
        merged: ByName<Object>,
        steps: &mut Steps<L>,
    ) -> Result<CommitAnswer, AllocError>
        requires recorded { IsRecorded self.old.told done.now }
        requires running { IsRunning self.old.told.events }
        requires changed { IsUnchanged done.now → ⊥ }
        requires no_conflict { conflicts_at (standing self.old.told) done.now ≡ [] }
        requires merged { merged ≡ merged_objects (standing self.old.told).image done.now }
        requires fit { MergesFit (standing self.old.told).image done.now }
        ensures events { IfOk result (λ answer. self.new.told ≡ told_more self.old.told
            (event_of_answer (standing self.old.told).number done.now answer)) }
        ensures answer { IfOk result (λ answer.
            AnswerFits self.old.told.opened self.old.told.events done.now answer) }
        ensures started { self.new.started ≡ self.old.started }
        ensures keeper { IfOk result (CommitKeeps K.faults self.old.keeper self.new.keeper) }
        ensures holding { IfOk result (CommitHolds K.tells K.moment K.left_since
            self.old.told.opened self.old.told.events self.new.told.events self.old.keeper
            self.new.keeper) }
        ensures starved { OnErr result (self.new ≡ self.old) }
        ensures nodes { steps.new ≤ steps.old + 8 * length
            (effect_at (standing self.old.told).image ((standing self.old.told).number + 1) done.now) }
    {
        placed_as_recorded();
        images_are_sound();
        let number = self.number + 1;
        if number >= NUMBER_LIMIT {
            return Err(AllocError);
        }
        let effect = effect_of(alloc, number, done, merged)?;
        let body = body_of(alloc, done.mode, &effect)?;
        let image = next_image(alloc, &self.image, effect, steps)?;
        self.history.reserve(1)?;
        self.events.reserve(self.locks.count() + 1)?;
        match self.keeper.append(&body) {
            Ok(()) => {
                let placed = What::Placed(done.entry());
                let Ok(()) = self.events.push((done.session, placed)) else {
                    unreachable!()
                };
                let Ok(()) = self.history.push(done.entry()) else {
                    unreachable!()
                };
                self.image = image;
                self.number = number;
                Ok(CommitAnswer::Placed(number))
            }
            Err(AppendFault::Full { length, size }) => Ok(CommitAnswer::LogFull { length, size }),
            Err(AppendFault::Disk) => {
                let halted = What::Halted(number, Some(done.entry()));
                let Ok(()) = self.events.push((done.session, halted)) else {
                    unreachable!()
                };
                self.halted = Some(number);
                Ok(CommitAnswer::DiskFault)
            }
        }
    }
}

/// A Stone alone: no event of others ever comes between. It serves the sessions of its script. The
/// keeper that it started with stays the same.
impl<K: Keeper + Drop> StonePort for Stone<K> {
    ghost state = { λ stone. alone_with stone.told };

    fn begin(&mut self, _session: u32) -> Result<Begun, AllocError>
        requires serves { is_session self.old.told.opened.script _session ≡ true }
        ensures begun { IfOk result (λ begun.
            BeginSays self.old.told.opened _session self.old.told.events self.new.told.events
            begun.image begun.number) }
        ensures starved { IfErr result (λ _.
            OthersCame _session self.old.told.events self.new.told.events) }
        ensures port { GoesOn _session (alone_with self.old.told) (alone_with self.new.told) }
        ensures started { self.new.started ≡ self.old.started }
    {
        let begun = Stone::begin(self);
        self.keeps_order();
        images_are_sound();
        names_are_free();
        begun
    }

    fn commit(&mut self, alloc: Global, done: &TxnRecord) -> CommitAnswer
        requires serves { is_session self.old.told.opened.script done.now.session ≡ true }
        requires recorded { IsRecorded self.old.told done.now }
        ensures says { CommitSays self.old.told.opened self.old.told.events self.new.told.events
            done.now result }
        ensures port { GoesOn done.now.session (alone_with self.old.told)
            (alone_with self.new.told) }
        ensures started { self.new.started ≡ self.old.started }
    {
        let answer = commit_uncounted::<K, Brand>(self, alloc, done, Blank::new(1));
        self.keeps_order();
        answer
    }

    fn lock(&mut self, session: u32, oid: Oid, kind: LockKind) -> LockAnswer
        requires serves { is_session self.old.told.opened.script session ≡ true }
        requires there { IsSome (get (standing self.old.told).image oid) }
        ensures says { LockSays self.old.told.opened self.old.told.events self.new.told.events
            session oid kind result }
        ensures port { GoesOn session (alone_with self.old.told) (alone_with self.new.told) }
        ensures started { self.new.started ≡ self.old.started }
    {
        let answer = Stone::lock(self, session, oid, kind);
        self.keeps_order();
        answer
    }

    fn unlock(&mut self, session: u32, oid: Oid) -> bool
        requires serves { is_session self.old.told.opened.script session ≡ true }
        ensures says { UnlockSays self.old.told.opened self.old.told.events self.new.told.events
            session oid result }
        ensures port { GoesOn session (alone_with self.old.told) (alone_with self.new.told) }
        ensures started { self.new.started ≡ self.old.started }
    {
        let held = Stone::unlock(self, session, oid);
        self.keeps_order();
        held
    }

    fn checkpoint(&mut self, alloc: Global, session: u32) -> CheckAnswer
        requires serves { is_session self.old.told.opened.script session ≡ true }
        ensures says { CheckSays self.old.told.opened self.old.told.events self.new.told.events
            session result }
        ensures port { GoesOn session (alone_with self.old.told) (alone_with self.new.told) }
        ensures started { self.new.started ≡ self.old.started }
    {
        let answer = Stone::checkpoint(self, alloc, session);
        self.keeps_order();
        answer
    }

    fn logout(&mut self, session: u32)
        requires serves { is_session self.old.told.opened.script session ≡ true }
        ensures says { LogoutSays self.old.told.opened self.old.told.events self.new.told.events
            session }
        ensures port { GoesOn session (alone_with self.old.told) (alone_with self.new.told) }
        ensures started { self.new.started ≡ self.old.started }
    {
        Stone::logout(self, session);
        self.keeps_order();
    }
}

// A commit whose nodes nobody counts.
fn commit_uncounted<K: Keeper + Drop, L: Ledger>(
    stone: &mut Stone<K>,
    alloc: Global,
    done: &TxnRecord,
    blank: Blank,
) -> CommitAnswer
    requires name { blank.name ≡ L.name }
    requires parts { blank.parts ≡ L.parts }
    requires some_parts { 0 < L.parts }
    requires recorded { IsRecorded stone.old.told done.now }
    ensures events { stone.new.told ≡ told_more stone.old.told
        (event_of_answer (standing stone.old.told).number done.now result) }
    ensures started { stone.new.started ≡ stone.old.started }
    ensures answer { AnswerFits stone.old.told.opened stone.old.told.events done.now result }
{
    let mut steps = Steps::<L>::start(blank);
    stone.commit(alloc, done, &mut steps)
}

// The number of the commit that last changed the object, or 0 where there is none.
fn last_change(image: &Image, oid: Oid) -> u64
    ensures { result ≡ last_change image.now oid }
{
    match image.look(oid) {
        Some(object) => object.changed,
        None => 0,
    }
}
