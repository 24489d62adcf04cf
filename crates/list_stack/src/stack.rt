//! The stack.
ghost use Rattle.std.specs.Prelude.{◌≡◌, ◌<◌, ◌≤◌, List, [], ◌∷◌, ◌++◌, length, take, set, suc, get_or, slice_get, option_copied, OnOk, OnErr};
ghost use Rattle.list_stack.specs.Lists.{with_last};
ghost use Rattle.list_stack.specs.Moves.{LeftOf, PoppedBy, MovedBy, OpenedBy};
ghost use Rattle.list_stack.specs.Places.{Ascend, IsPlace};

use std::alloc::{AllocError, Global};
use std::marker::Model;

/// Lists that stand one behind the other in one stretch of memory, the uppermost one last. To open
/// a list takes no memory of its own, once the stack has been as high before.
///
/// Contracts see it as the list of its lists.
#[derive(Drop)]
pub struct ListStack<T> {
    items: Vec<T>,
    // Where each list begins. It ends where the next one begins, and the uppermost one at the end.
    starts: Vec<usize>,
}

impl<T> Model for ListStack<T> {
    ghost use Rattle.std.specs.Prelude.{List, length};
    ghost use Rattle.list_stack.specs.Lists.{lists_of};
    ghost use Rattle.list_stack.specs.Places.{AreStarts};

    ghost Value = { List (List T) };

    ghost view = { λ stack.
        lists_of (length stack.items.items) stack.items.items stack.starts.items };

    ghost invariant = { λ stack. AreStarts stack.starts.items (length stack.items.items) };
}

impl<T: Drop> ListStack<T> {
    /// The stack without lists. Takes no memory.
    pub fn new(alloc: Global) -> ListStack<T>
        ensures { result ≡ [] }
    {
        ListStack {
            items: Vec::new(alloc),
            starts: Vec::new(alloc),
        }
    }

    /// How many lists there are.
    pub fn len(&self) -> usize
        ensures { result ≡ length self.now }
    {
        self.starts.len()
    }

    /// Puts a new list without items on top.
    ///
    /// # Errors
    ///
    /// `AllocError` where memory ran out. The stack is as it was.
    #[inline(always)]
    pub fn open(&mut self) -> Result<(), AllocError>
        ensures opened { OnOk result (self.new ≡ self.old ++ [] ∷ []) }
        ensures unchanged { OnErr result (self.new ≡ self.old) }
    {
        Ok(self.starts.push(self.items.len())?)
    }

    /// Puts a new list of these items on top.
    ///
    /// # Errors
    ///
    /// `AllocError` where memory ran out. The stack is as it was.
    pub fn open_with(&mut self, mut items: Vec<T>) -> Result<(), AllocError>
        ensures opened { OnOk result (self.new ≡ self.old ++ items.items ∷ []) }
        ensures unchanged { OnErr result (self.new ≡ self.old) }
    {
        if items.is_empty() {
            return self.open();
        }
        let size = self.items.len();
        self.items.append(&mut items)?;
        if self.starts.push(size).is_err() {
            self.items.truncate(size);
            return Err(AllocError);
        }
        Ok(())
    }

    /// Puts a new list on top, of so many items from the end of a `Vec`, which are taken from there.
    ///
    /// # Errors
    ///
    /// `AllocError` where memory ran out. The stack is as it was; of the items some may be lost.
    pub fn open_taking(&mut self, from: &mut Vec<T>, count: usize) -> Result<(), AllocError>
        requires { count ≤ length from.old.items }
        ensures opened { OnOk result
            (OpenedBy self.old from.old.items count self.new from.new.items) }
        ensures unchanged { OnErr result (self.new ≡ self.old) }
        ensures left { OnErr result (LeftOf from.old.items count from.new.items) }
    {
        let size = self.items.len();
        if move_last(&mut self.items, from, count).is_err() {
            self.items.truncate(size);
            Err(AllocError)
        } else if self.starts.push(size).is_err() {
            self.items.truncate(size);
            Err(AllocError)
        } else {
            Ok(())
        }
    }

    /// Adds an item at the end of the uppermost list.
    ///
    /// # Errors
    ///
    /// `AllocError` where memory ran out. The stack is as it was.
    #[inline(always)]
    pub fn push(&mut self, item: T) -> Result<(), AllocError>
        requires { 0 < length self.old }
        ensures pushed { OnOk result (self.new ≡ with_last self.old item) }
        ensures unchanged { OnErr result (self.new ≡ self.old) }
    {
        Ok(self.items.push(item)?)
    }

    /// The item at this place of this list; None where there is no such list or place. The lowest
    /// list and the first place have the number 0.
    pub fn get(&self, list: usize, at: usize) -> Option<&T>
        ensures { option_copied result ≡ slice_get (get_or self.now list []) at }
    {
        let place = place_of(&self.starts, self.items.len(), list, at)?;
        Some(&self.items[place])
    }

    /// Sets the item at this place of this list, numbered as for `get`. Where there is no such list
    /// or place, nothing changes.
    pub fn set(&mut self, list: usize, at: usize, item: T)
        ensures { self.new ≡ set self.old list (set (get_or self.old list []) at item) }
    {
        if let Some(place) = place_of(&self.starts, self.items.len(), list, at) {
            self.items[place] = item;
        }
    }

    /// Takes away all lists but so many of the lowest ones, with their items.
    pub fn truncate(&mut self, count: usize)
        ensures { self.new ≡ take count self.old }
    {
        if count < self.starts.len() {
            let start = self.starts[count];
            cut(&mut self.items, start);
            self.starts.truncate(count);
        }
    }
}

/// Drops all items but so many of the first ones. It pops one by one, since most often there is one.
#[inline(always)]
fn cut<T: Drop>(items: &mut Vec<T>, count: usize)
    ensures { items.new.items ≡ take count items.old.items }
{
    while items.len() > count {
        let _ = items.pop();
    }
}

/// Where the item at a place of a list stands among the items of all lists, which are so many.
fn place_of(starts: &[usize], size: usize, list: usize, at: usize) -> Option<usize>
    requires { Ascend starts.now size }
    ensures { IsPlace starts.now size list at result }
{
    if list >= starts.len() {
        return None;
    }
    let start = starts[list];
    if at >= end_of(starts, size, list) - start {
        return None;
    }
    Some(start + at)
}

/// Where a list ends.
fn end_of(starts: &[usize], size: usize, list: usize) -> usize
    requires { list < length starts.now }
    ensures { result ≡ get_or starts.now (suc list) size }
{
    if list + 1 < starts.len() {
        starts[list + 1]
    } else {
        size
    }
}

/// Moves so many items from the end of a `Vec` to the end of another, in their order. Where it
/// finds no memory some of them are lost.
fn move_last<T: Drop>(to: &mut Vec<T>, from: &mut Vec<T>, count: usize) -> Result<(), AllocError>
    requires { count ≤ length from.old.items }
    ensures moved { OnOk result
        (MovedBy to.old.items from.old.items count to.new.items from.new.items) }
    ensures begins { take (length to.old.items) to.new.items ≡ to.old.items }
    ensures left { OnErr result (LeftOf from.old.items count from.new.items) }
{
    let size = to.len();
    pop_onto(to, from, count)?;
    to[size..].reverse();
    Ok(())
}

/// The same with the last one first.
#[tactic(auto, using(crate::proofs::Moving::none_popped, crate::proofs::Moving::popped_begins))]
fn pop_onto<T: Drop>(to: &mut Vec<T>, from: &mut Vec<T>, count: usize) -> Result<(), AllocError>
    requires { count ≤ length from.old.items }
    ensures popped { OnOk result
        (PoppedBy to.old.items from.old.items count to.new.items from.new.items) }
    ensures begins { take (length to.old.items) to.new.items ≡ to.old.items }
    ensures left { OnErr result (LeftOf from.old.items count from.new.items) }
{
    for _item in 0..count {
        let Some(item) = from.pop() else {
            unreachable!()
        };
        to.push(item)?;
    }
    Ok(())
}
