//! What follows from the definitions alone. Each law is the contract of a function that does
//! nothing.
ghost use Rattle.std.specs.Prelude.{◌≡◌, ◌≢◌, ◌⊎◌, ◌≤◌, ◌<◌, ◌+◌, ◌∷◌, ◌++◌, [], ℕ, List, length, Option, None, Some, IsSome};
ghost use Rattle.std.specs.FinMap.{get};
ghost use Rattle.std.specs.List.{AllByRecursion, Contains};
ghost use Rattle.gem_meaning.specs.gem_image.Image.{Image, IsImage};
ghost use Rattle.gem_meaning.specs.gem_value.Conflict.{kind_number};
ghost use Rattle.gem_meaning.specs.gem_value.declared.conflict.Conflict.{Conflict};
ghost use Rattle.gem_meaning.specs.gem_value.declared.conflict.ConflictKind.TheVariants.{WriteReadLock, WriteWriteLock};
ghost use Rattle.gem_meaning.specs.gem_record.History.{entry_of};
ghost use Rattle.gem_meaning.specs.gem_record.Record.{record_of};
ghost use Rattle.gem_meaning.specs.gem_record.declared.record.TxnRecord.{TxnRecord};
ghost use Rattle.gem_meaning.specs.gem_record.declared.record.Entry.{Entry};
ghost use Rattle.gem_meaning.specs.gem_record.declared.mode.Mode.TheVariants.{Full, NoRw};
ghost use Rattle.gem_meaning.specs.gem_sound.Sound.{IsSoundImage};
ghost use Rattle.gem_meaning.specs.lock_table.LockKind.{kind_granted};
ghost use Rattle.gem_meaning.specs.lock_table.Locks.{kind_held, denied_for};
ghost use Rattle.gem_meaning.specs.lock_table.declared.lock.LockKind.{LockKind};
ghost use Rattle.gem_meaning.specs.commit_check.Conflicts.{last_change};
ghost use Rattle.gem_meaning.specs.commit_check.Table.{IsTouched, IsWritten, IsUpdated};
ghost use Rattle.gem_meaning.specs.gem_world.World.{Setting, World};
ghost use Rattle.gem_meaning.specs.gem_world.Access.{Access, with_touches};
ghost use Rattle.gem_meaning.specs.object_programs.Atom.{access_fault};
ghost use Rattle.gem_meaning.specs.object_programs.Laws.{Stays};
ghost use Rattle.gem_meaning.specs.gem_language.Commands.{Command, failed, reply_of};
ghost use Rattle.gem_meaning.specs.gem_language.Transaction.{command_outcome};
ghost use Rattle.gem_meaning.specs.declared.event.What.TheVariants.{Placed, Held, Dropped, Left, Checked, Halted};
ghost use Rattle.gem_meaning.specs.Opened.{Opened, entry_setting, run_at};
ghost use Rattle.gem_meaning.specs.Effect.{MergesFit, effect_at};
ghost use Rattle.gem_meaning.specs.Events.{Event, Told, Standing, told_more, image_at, next_counter, NamesAreFree, ordinary_at, record_at_place, effect_of, after_events, standing, events_of, conflicts_at, IsRunning, HasHaltedAt, run_at_place};
ghost use Rattle.gem_meaning.specs.After.{stored_with, stored_after};
ghost use Rattle.gem_meaning.specs.Serial.{IsPlaced, IsOfScript, IsConsistent, IsSerial, IsRecorded, HoldsSome, CanServe};
ghost use Rattle.history_laws.specs.Accesses.{Moment, moments_of, moments_at, moments_at_place, IsRefused, IsChanged, IsNoted, BeginsByWrite, DifferUnseen};
ghost use Rattle.history_laws.specs.Clean.{IsHeldClean};
ghost use Rattle.history_laws.specs.Halts.{IsOfLocks};

use commit_soundness::laws::commits_keep_images_sound;

/// What a view shows stays the same, whatever is committed later. The number of commits never
/// falls, and grows by at most one with each event.
pub fn views_stay()
    ensures image { (t : Told) (more : List Event) (number : ℕ) → t.opened.number ≤ number
        → number ≤ (standing t).number
        → image_at (standing (told_more t more)) number ≡ image_at (standing t) number }
    ensures number { (t : Told) (more : List Event)
        → (standing t).number ≤ (standing (told_more t more)).number }
    ensures most { (o : Opened) (events : List Event)
        → (after_events o events).number ≤ o.number + length events }
{}

/// An object whose last change is at most a number of commits is the same in the image of that
/// number; where now there is none, there was none.
pub fn unchanged_since()
    ensures { (o : Opened) (events : List Event) (view name : ℕ) → o.number ≤ view
        → view ≤ (after_events o events).number
        → last_change (after_events o events).image name ≤ view
        → get (after_events o events).image name ≡ get (image_at (after_events o events) view) name }
{}

/// Every image of a history is sound and can be stored, and each object of it is in the image that
/// stands, with its fixed part.
pub fn images_are_sound()
    ensures image { (t : Told) (number : ℕ) → CanServe t.opened → IsSerial t
        → t.opened.number ≤ number → number ≤ (standing t).number
        → IsImage (image_at (standing t) number) }
    ensures sound { (t : Told) (number : ℕ) → CanServe t.opened → IsSerial t
        → t.opened.number ≤ number → number ≤ (standing t).number
        → IsSoundImage (image_at (standing t) number) }
    ensures stays { (t : Told) (number : ℕ) → CanServe t.opened → IsSerial t
        → t.opened.number ≤ number → number ≤ (standing t).number
        → Stays (image_at (standing t) number) (standing t).image }
{
    commits_keep_images_sound();
}

/// No object has a name that a session's transactions may still draw: its names of the session's
/// serial are those that its commits drew, whose counters count from 1.
pub fn names_are_free()
    ensures free { (t : Told) (session : ℕ) → CanServe t.opened → IsSerial t
        → 1 ≤ session → NamesAreFree t.opened (standing t) session }
    ensures some { (t : Told) (session : ℕ) → CanServe t.opened → IsSerial t
        → 1 ≤ next_counter (standing t) session }
{
    commits_keep_images_sound();
}

/// A record without conflicts is placed as it was recorded, if what its merges make can be stored and
/// the disk hasn't failed: its transaction says and does at its place what it said and did on its
/// view, so that what the commit changes is told by the record.
pub fn placed_as_recorded()
    ensures placed { (t : Told) (done : TxnRecord) → CanServe t.opened → IsSerial t
        → IsRunning t.events → IsRecorded t done → conflicts_at (standing t) done ≡ []
        → MergesFit (standing t).image done
        → IsPlaced t.opened t.events done.session (entry_of done) }
    ensures recorded { (t : Told) (done : TxnRecord) → CanServe t.opened
        → IsSerial t → IsRecorded t done → conflicts_at (standing t) done ≡ []
        → record_at_place t.opened (standing t) (entry_of done) ≡ done }
    ensures effect { (t : Told) (done : TxnRecord) → CanServe t.opened → IsSerial t
        → IsRecorded t done → conflicts_at (standing t) done ≡ []
        → effect_of t.opened (standing t) (entry_of done)
        ≡ effect_at (standing t).image ((standing t).number + 1) done }
{
    commits_keep_images_sound();
}

/// Where all is checked a transaction is run at its place, but that it reads reduced-conflict objects
/// as of its view. Without checks of what is only read it is run where all stands as at its view.
pub fn modes_tell_where()
    ensures full { (o : Opened) (s : Standing) (e : Entry) → e.mode ≡ Full
        → run_at_place o s e ≡ run_at o e s.image (image_at s e.view) }
    ensures unchecked { (o : Opened) (s : Standing) (e : Entry) → e.mode ≡ NoRw
        → run_at_place o s e ≡ run_at o e (image_at s e.view) (image_at s e.view) }
{}

/// What a session claims of a transaction holds whatever other sessions do, and so do the names
/// that are next for it.
pub fn records_stay()
    ensures record { (t : Told) (more : List Event) (done : TxnRecord)
        → events_of done.session more ≡ [] → IsRecorded t done
        → IsRecorded (told_more t more) done }
    ensures names { (t : Told) (more : List Event) (session : ℕ) → events_of session more ≡ []
        → next_counter (standing (told_more t more)) session
        ≡ next_counter (standing t) session }
{}

/// Events stay consistent when one more comes: while the disk hasn't failed, a commit that has no
/// conflicts and whose merged objects can be stored, or the disk's failure at it, a checkpoint, or
/// the disk's failure at it; a lock that is denied for nobody, on an object that is there, a lock that
/// is given back by a session that holds it, and the end of a session that holds one.
pub fn one_event_more()
    ensures begins { (o : Opened) → IsConsistent (record { opened = o; events = [] }) }
    ensures placed { (t : Told) (done : TxnRecord) → CanServe t.opened
        → IsConsistent t → IsRunning t.events → IsRecorded t done
        → conflicts_at (standing t) done ≡ [] → MergesFit (standing t).image done
        → IsConsistent (told_more t ((done.session, Placed (entry_of done)) ∷ [])) }
    ensures halted { (t : Told) (done : TxnRecord) → CanServe t.opened
        → IsConsistent t → IsRunning t.events → IsRecorded t done
        → conflicts_at (standing t) done ≡ [] → MergesFit (standing t).image done
        → IsConsistent (told_more t
        ((done.session, Halted ((standing t).number + 1) (Some (entry_of done))) ∷ [])) }
    ensures checked { (t : Told) (session : ℕ) → IsConsistent t
        → IsOfScript t.opened.script (session, Checked) → IsRunning t.events
        → IsConsistent (told_more t ((session, Checked) ∷ [])) }
    ensures check_halted { (t : Told) (session : ℕ) → IsConsistent t
        → IsOfScript t.opened.script (session, Halted (standing t).number None)
        → IsRunning t.events
        → IsConsistent (told_more t ((session, Halted (standing t).number None) ∷ [])) }
    ensures held { (t : Told) (session oid : ℕ) (asked kind : LockKind) → IsConsistent t
        → IsOfScript t.opened.script (session, Held oid kind)
        → denied_for (standing t).locks session oid asked ≡ None
        → kind ≡ kind_granted (kind_held (standing t).locks session oid) asked
        → IsSome (get (standing t).image oid)
        → IsConsistent (told_more t ((session, Held oid kind) ∷ [])) }
    ensures dropped { (t : Told) (session oid : ℕ) → IsConsistent t
        → IsOfScript t.opened.script (session, Dropped oid)
        → IsSome (kind_held (standing t).locks session oid)
        → IsConsistent (told_more t ((session, Dropped oid) ∷ [])) }
    ensures left { (t : Told) (session : ℕ) → IsConsistent t
        → IsOfScript t.opened.script (session, Left) → HoldsSome (standing t) session
        → IsConsistent (told_more t ((session, Left) ∷ [])) }
{
    commits_keep_images_sound();
}

/// Where the disk fails at a commit, the image with this commit is sound and can be stored, as if it
/// had been placed: so whether it is on the disk or not, what is there can be opened again. The
/// number is the one that the commit would have had.
pub fn flight_is_sound()
    ensures image { (t : Told) (before more : List Event) (session number : ℕ) (e : Entry)
        → CanServe t.opened → IsSerial t
        → t.events ≡ before ++ (session, Halted number (Some e)) ∷ more
        → IsImage (after_events t.opened (before ++ (session, Placed e) ∷ [])).image }
    ensures sound { (t : Told) (before more : List Event) (session number : ℕ) (e : Entry)
        → CanServe t.opened → IsSerial t
        → t.events ≡ before ++ (session, Halted number (Some e)) ∷ more
        → IsSoundImage (after_events t.opened (before ++ (session, Placed e) ∷ [])).image }
    ensures number { (t : Told) (before more : List Event) (session number : ℕ) (e : Entry)
        → IsSerial t → t.events ≡ before ++ (session, Halted number (Some e)) ∷ more
        → number ≡ (after_events t.opened (before ++ (session, Placed e) ∷ [])).number }
{
    commits_keep_images_sound();
}

/// After the disk has failed nothing happens to the Stone but about locks: it fails once, and the
/// image and the number are those that stood then.
pub fn nothing_after_halt()
    ensures locks { (t : Told) (before more : List Event) (session number : ℕ)
        (entry : Option Entry) → IsSerial t
        → t.events ≡ before ++ (session, Halted number entry) ∷ more
        → AllByRecursion IsOfLocks more }
    ensures once { (t : Told) (before more : List Event) (session number : ℕ)
        (entry : Option Entry) → IsSerial t
        → t.events ≡ before ++ (session, Halted number entry) ∷ more
        → HasHaltedAt t.events number }
    ensures image { (t : Told) (before more : List Event) (session number : ℕ)
        (entry : Option Entry) → IsSerial t
        → t.events ≡ before ++ (session, Halted number entry) ∷ more
        → (standing t).image ≡ (after_events t.opened before).image }
    ensures number { (t : Told) (before more : List Event) (session number : ℕ)
        (entry : Option Entry) → IsSerial t
        → t.events ≡ before ++ (session, Halted number entry) ∷ more
        → (standing t).number ≡ (after_events t.opened before).number }
{}

/// How long the log is, and what the current root is, follows from the events alone: a commit makes
/// the log longer by its record, and a checkpoint begins it anew with a root of the image that stands.
pub fn stored_by_events()
    ensures begins { (o : Opened) → stored_after o [] ≡ o.stored }
    ensures more { (o : Opened) (events : List Event) (event : Event)
        → stored_after o (events ++ event ∷ [])
        ≡ stored_with o (after_events o events) (stored_after o events) event }
{}

/// Where a session has held each object that it touched or wrote without a break since a point at
/// which its view was up to date there, and holds each that it wrote or updated to write, and has
/// itself placed no commit above the view since: then no change (C1, C2) and no lock (C3, C4)
/// stands against its commit.
pub fn clean_locks()
    ensures { (t : Told) (done : TxnRecord) → CanServe t.opened → IsSerial t
        → ((oid : ℕ) → IsTouched done oid ⊎ IsWritten done oid
        → IsHeldClean t.opened t.events done.session done.view oid)
        → ((oid : ℕ) → IsWritten done oid ⊎ IsUpdated done oid
        → kind_held (standing t).locks done.session oid ≡ Some LockKind.Write)
        → (conflict : Conflict) → Contains (conflicts_at (standing t) done) conflict
        → 5 ≤ kind_number conflict.kind }
{
    commits_keep_images_sound();
}

/// A conflict that isn't one of locks shows a commit after the view: what no commit has changed
/// since is as the transaction saw it, and there its updates are accepted. It is one of the commits
/// that stand.
pub fn shown_after_view()
    ensures after { (t : Told) (done : TxnRecord) → CanServe t.opened → IsSerial t
        → IsRecorded t done → (conflict : Conflict) → Contains (conflicts_at (standing t) done) conflict
        → conflict.kind ≢ WriteReadLock → conflict.kind ≢ WriteWriteLock
        → done.view < conflict.shown }
    ensures stands { (t : Told) (done : TxnRecord) → CanServe t.opened
        → (conflict : Conflict) → Contains (conflicts_at (standing t) done) conflict
        → conflict.kind ≢ WriteReadLock → conflict.kind ≢ WriteWriteLock
        → conflict.shown ≤ (standing t).number }
{
    commits_keep_images_sound();
}

/// Which accesses there are, and what the others come to. Each is judged by the objects that are
/// seen when it comes.
///
/// `refused_ends`: an access that isn't allowed is the last moment of its command, wherever the
/// command runs: the command's reply is the access's error, E10 or E11, and it leaves the objects as
/// they are in that moment, but for the touches of the access.
///
/// `unseen_is_unknown`: whoever runs a transaction learns nothing of an object to which no access was
/// made that was allowed, but what is open to everybody: its class, its segment, the kind of its
/// body, what of a class is fixed, and the rights of a segment. Images that differ from place and
/// view only in more than that, at such names, and not in the user's own profile, give the same
/// replies and changes, after the same moments (`same_moments`), and the same record (`same_record`).
///
/// `written`, `updated`: each object that a transaction at its place writes or updates is one that it
/// begins to change, or to update, by a write that is asked for and allowed at that moment.
pub fn accesses_are_allowed()
    ensures refused_ends { (command : Command) (setting : Setting) (world : World)
        (before later : List Moment) (moment : Moment) (access : Access) (name : ℕ)
        → moments_of command setting world ≡ before ++ moment ∷ later
        → IsRefused access name setting moment
        → (later ≡ [])
        × (reply_of (command_outcome command setting world).end
        ≡ failed (access_fault access name))
        × ((command_outcome command setting world).state.world
        ≡ with_touches name setting moment.world) }
    ensures unseen_is_unknown { (o : Opened) (e : Entry) (place view other seen : Image)
        → DifferUnseen other seen (entry_setting o e place view) (moments_at o e place view)
        → run_at o e other seen ≡ run_at o e place view }
    ensures same_moments { (o : Opened) (e : Entry) (place view other seen : Image)
        → DifferUnseen other seen (entry_setting o e place view) (moments_at o e place view)
        → moments_at o e other seen ≡ moments_at o e place view }
    ensures same_record { (o : Opened) (e : Entry) (place view other seen : Image)
        → DifferUnseen other seen (entry_setting o e place view) (moments_at o e place view)
        → record_of e (entry_setting o e other seen) (run_at o e other seen).world
        ≡ record (record_of e (entry_setting o e place view) (run_at o e place view).world)
        { base = seen } }
    ensures written { (o : Opened) (s : Standing) (e : Entry) (name : ℕ)
        → let setting = entry_setting o e (ordinary_at s e) (image_at s e.view) in
        IsWritten (record_at_place o s e) name
        → BeginsByWrite name (IsChanged name setting) setting (moments_at_place o s e) }
    ensures updated { (o : Opened) (s : Standing) (e : Entry) (name : ℕ)
        → IsUpdated (record_at_place o s e) name
        → BeginsByWrite name (IsNoted name)
        (entry_setting o e (ordinary_at s e) (image_at s e.view)) (moments_at_place o s e) }
{}
