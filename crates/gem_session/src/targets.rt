//! What locks and unlocks ask for.
ghost use Rattle.std.specs.Prelude.{◌≡◌, IfOk};
ghost use Rattle.gem_world.specs.Access.{is_allowed};
ghost use Rattle.gem_meaning.specs.Locks.{access_of, lockable, lock_target, unlock_target, kind_asked, asks};
ghost use Rattle.gem_session.specs.Names.{target_by};

use crate::names::find_name;
use gem_object::{Oid, Text, Value, may_read, may_write};
use gem_replies::Line;
use lock_table::LockKind;
use session_view::View;
use std::alloc::AllocError;

/// What comes of a name.
#[derive(Debug, Drop)]
pub(crate) enum Target {
    /// This reply, without a look at the Stone.
    Replies(Line),
    /// The Stone is asked about this object.
    Asks(Oid),
}

/// The object that is to be locked in this kind, or why it may not be.
///
/// # Errors
///
/// `AllocError` where memory ran out.
pub(crate) fn lock_target(view: &View, kind: LockKind, name: &Text) -> Result<Target, AllocError>
    ensures { IfOk result (λ target. target_by target
        ≡ lock_target kind name.now view.now.state.seen.setting view.now.state.seen.world) }
{
    match unlock_target(view, name)? {
        Target::Replies(line) => Ok(Target::Replies(line)),
        Target::Asks(oid) => Ok(lockable(view, kind, oid)),
    }
}

/// The object whose lock is to be given back, or why there is none.
///
/// # Errors
///
/// `AllocError` where memory ran out.
pub(crate) fn unlock_target(view: &View, name: &Text) -> Result<Target, AllocError>
    ensures { IfOk result (λ target. target_by target
        ≡ unlock_target name.now view.now.state.seen.setting view.now.state.seen.world) }
{
    match find_name(view, name)? {
        Some(Value::Ref(oid)) => Ok(Target::Asks(*oid)),
        Some(_) => Ok(Target::Replies(Line::NotObject(name.clone()?))),
        None => Ok(Target::Replies(Line::NoName(name.clone()?))),
    }
}

// Whether this object may be locked: it wasn't made in the transaction, and the user has the right.
fn lockable(view: &View, kind: LockKind, oid: Oid) -> Target
    ensures { target_by result
        ≡ lockable kind view.now.state.seen.setting view.now.state.seen.world (asks oid) }
{
    if view.is_made(oid) {
        return Target::Replies(Line::NotCommitted(oid));
    }
    if !is_allowed(view, kind, oid) {
        return Target::Replies(Line::NoRight(oid));
    }
    Target::Asks(oid)
}

// Whether the user has the right that a lock of this kind asks for.
#[tactic(auto, unfolding(gem_world::specs::Access::is_allowed))]
fn is_allowed(view: &View, kind: LockKind, oid: Oid) -> bool
    ensures { result ≡ is_allowed (access_of kind) oid view.now.state.seen.setting view.now.state.seen.world }
{
    match kind {
        LockKind::Read => may_read(view.right(oid)),
        LockKind::Write => may_write(view.right(oid)),
    }
}

/// The kind of lock that a command asks for.
pub(crate) fn kind_asked(write: bool) -> LockKind
    ensures { result ≡ kind_asked write }
{
    if write {
        LockKind::Write
    } else {
        LockKind::Read
    }
}
