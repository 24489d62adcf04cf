//! The queue.
ghost use Rattle.std.specs.Prelude.{◌≡◌, ◌↔◌, ◌⊎◌, ℕ, length, slice_get, option_copied, Some, None, IsTrue, false, IfOk, OnOk, OnErr, IsErrOf, Err, Ok};
ghost use Rattle.rc_queue.specs.Contents.{Contents};
ghost use Rattle.rc_queue.specs.Update.{updated, merged, first_removal, removed_since, replayed, is_removal};

use crate::update::{QueueFault, QueueUpdate};
use std::alloc::AllocError;
use std::collections::VecDeque;
use std::marker::Model;

/// Items in a line, and how often the front was removed.
///
/// Contracts see it as its `Contents`: the removal count and the list of the items, front first.
#[derive(Debug, Drop)]
pub struct Queue<T> {
    removed: u64,
    items: VecDeque<T>,
}

impl<T> Model for Queue<T> {
    ghost Value = { Contents T };

    ghost view = { λ q. record { removed = q.removed; items = q.items.items } };
}

impl<T: Ord + Clone + Drop> Queue<T> {
    /// A queue of these items, the first at the front. Takes no memory.
    pub fn of_items(removed: u64, items: Vec<T>) -> Queue<T>
        ensures { result ≡ record { removed = removed; items = items.items } }
    {
        Queue {
            removed,
            items: VecDeque::from(items),
        }
    }

    /// How often the front was removed. The count stays at 2^64 - 1 once it is there.
    pub fn removed(&self) -> u64
        ensures { result ≡ self.now.removed }
    {
        self.removed
    }

    /// How many items wait.
    pub fn size(&self) -> u64
        ensures { result ≡ length self.now.items }
    {
        self.items.len() as u64
    }

    /// The item that the next removal takes.
    pub fn front(&self) -> Option<&T>
        ensures { option_copied result ≡ slice_get self.now.items 0 }
    {
        self.items.front()
    }

    /// The item at this place, counted from 0 at the front.
    pub fn item(&self, at: u64) -> Option<&T>
        ensures { option_copied result ≡ slice_get self.now.items at }
    {
        self.items.get(at as usize)
    }

    /// The same queue once more.
    pub fn try_clone(&self) -> Result<Queue<T>, AllocError>
        requires { (x y : T) → T.is_clone x y → y ≡ x }
        ensures { IfOk result (λ queue. queue ≡ self.now) }
    {
        Ok(Queue {
            removed: self.removed,
            items: self.items.clone()?,
        })
    }

    /// Applies one update.
    ///
    /// `Remove(0)`: a removal whose item isn't the front. `NoMemory`: an add found no memory.
    /// After either the queue is as before.
    pub fn apply(&mut self, update: QueueUpdate<T>) -> Result<(), QueueFault>
        ensures applied { OnOk result (updated T.cmp update self.old ≡ Some self.new) }
        ensures refused { IsErrOf result (QueueFault.Remove 0)
            ↔ (updated T.cmp update self.old ≡ None) }
        ensures index { (at : ℕ) → IsErrOf result (QueueFault.Remove at) → at ≡ 0 }
        ensures memory { IsErrOf result QueueFault.NoMemory → is_removal update ≡ false }
        ensures unchanged { OnErr result (self.new ≡ self.old) }
    {
        match update {
            QueueUpdate::Add(item) => Ok(self.items.push_back(item)?),
            QueueUpdate::Remove(item) => {
                if self.remove(&item) {
                    Ok(())
                } else {
                    Err(QueueFault::Remove(0))
                }
            }
        }
    }

    /// What the updates, made by a session at its view, make of the queue at the commit's place.
    ///
    /// `Remove`: the index of the first removal, where the place's removal count isn't the view's,
    /// which takes no memory; or else of the first removal that meets another front or none.
    /// `NoMemory` may come in place of any answer but the first.
    pub fn merge(
        at_view: &Queue<T>,
        at_place: &Queue<T>,
        updates: &[QueueUpdate<T>],
    ) -> Result<Queue<T>, QueueFault>
        requires { (x y : T) → T.is_clone x y → y ≡ x }
        ensures ok { IfOk result (λ queue.
            merged T.cmp at_view.now at_place.now updates.now ≡ Ok queue) }
        ensures refused { (at : ℕ) → IsErrOf result (QueueFault.Remove at)
            → merged T.cmp at_view.now at_place.now updates.now ≡ Err at }
        ensures refuses { (at : ℕ) → merged T.cmp at_view.now at_place.now updates.now ≡ Err at
            → IsErrOf result (QueueFault.Remove at) ⊎ IsErrOf result QueueFault.NoMemory }
        ensures since { (at : ℕ) → removed_since at_view.now at_place.now updates.now ≡ Some at
            → IsErrOf result (QueueFault.Remove at) }
    {
        if at_view.removed != at_place.removed {
            if let Some(at) = first_removal(updates) {
                return Err(QueueFault::Remove(at));
            }
        }
        let mut queue = at_place.try_clone()?;
        queue.replay(updates)?;
        Ok(queue)
    }

    // Takes the front away where it is this item, and else changes nothing.
    fn remove(&mut self, item: &T) -> bool
        ensures done { IsTrue result
            → updated T.cmp (QueueUpdate.Remove item.now) self.old ≡ Some self.new }
        ensures refused { result ≡ false
            → updated T.cmp (QueueUpdate.Remove item.now) self.old ≡ None }
        ensures unchanged { result ≡ false → self.new ≡ self.old }
    {
        match self.front() {
            Some(front) if front.cmp(item).is_eq() => {
                self.items.pop_front();
                self.removed = self.removed.saturating_add(1);
                true
            }
            _ => false,
        }
    }

    // Applies the updates in order, until one is refused.
    fn replay(&mut self, updates: &[QueueUpdate<T>]) -> Result<(), QueueFault>
        requires { (x y : T) → T.is_clone x y → y ≡ x }
        ensures ok { OnOk result (replayed T.cmp 0 updates.now self.old ≡ Ok self.new) }
        ensures refused { (at : ℕ) → IsErrOf result (QueueFault.Remove at)
            → replayed T.cmp 0 updates.now self.old ≡ Err at }
    {
        for (at, update) in updates.iter().enumerate() {
            match update {
                QueueUpdate::Add(item) => self.items.push_back(item.clone()?)?,
                QueueUpdate::Remove(item) => {
                    if !self.remove(item) {
                        return Err(QueueFault::Remove(at as u64));
                    }
                }
            }
        }
        Ok(())
    }
}

// The index of the first removal.
fn first_removal<T>(updates: &[QueueUpdate<T>]) -> Option<u64>
    ensures { result ≡ first_removal 0 updates.now }
{
    for (at, update) in updates.iter().enumerate() {
        if let QueueUpdate::Remove(_) = update {
            return Some(at as u64);
        }
    }
    None
}
