//! What a transaction has done in the end, as lists that ascend by name.
ghost use Rattle.std.specs.Prelude.{◌≡◌, ◌&&◌, cond, not, map, IfOk};
ghost use Rattle.std.specs.FinMap.{keys};
ghost use Rattle.gem_object.specs.Kinds.{is_shared};
ghost use Rattle.gem_world.specs.Changes.{written_objects, made_objects};
ghost use Rattle.gem_record.specs.RunNames.{ascending, touched_names, updates_by_name};
ghost use Rattle.gem_record.specs.Record.{all_uncommitted};
ghost use Rattle.plain_state.specs.Lists.{chosen, all_chosen};

use crate::groups::{group, list_groups};
use crate::overlay::Overlay;
use crate::parts::Parts;
use crate::state::PlainState;
use gem_object::{Object, Oid, Sequence};
use gem_update::Update;
use std::alloc::{AllocError, Global};

impl PlainState {
    /// The names that were touched, ascending.
    ///
    /// # Errors
    ///
    /// `AllocError` where memory ran out.
    pub fn touched_names(&self) -> Result<Vec<Oid>, AllocError>
        ensures { IfOk result (λ names. names.items ≡ touched_names self.now.seen.world) }
    {
        ascending_names(self.parts.alloc(), self.parts.touched.as_slice())
    }

    /// The ordinary objects of the view that were written, ascending by name, each as it is now and
    /// without the number of a commit. They are copied.
    ///
    /// # Errors
    ///
    /// `AllocError` where memory ran out.
    pub fn written_objects(&self) -> Result<Vec<(Oid, Object)>, AllocError>
        ensures { IfOk result (λ objects. objects.items
            ≡ all_uncommitted (written_objects self.now.seen.setting self.now.seen.world)) }
    {
        let names = self.parts.shown.changes().names()?;
        choose(&self.parts, &names, false)
    }

    /// The objects that were made, in the same way.
    ///
    /// # Errors
    ///
    /// `AllocError` where memory ran out.
    pub fn made_objects(&self) -> Result<Vec<(Oid, Object)>, AllocError>
        ensures { IfOk result (λ objects. objects.items
            ≡ all_uncommitted (made_objects self.now.seen.setting self.now.seen.world)) }
    {
        let names = self.parts.shown.changes().names()?;
        choose(&self.parts, &names, true)
    }

    /// The updates that were noted of each object, in their order, ascending by the objects' names.
    /// They are copied.
    ///
    /// # Errors
    ///
    /// `AllocError` where memory ran out.
    pub fn updates_by_name(&self) -> Result<Vec<(Oid, Sequence<Update>)>, AllocError>
        ensures { IfOk result (λ updates. updates.items ≡ updates_by_name self.now.seen.world) }
    {
        let (alloc, updates) = (self.parts.alloc(), self.parts.updates.as_slice());
        let numbers = numbers_of(alloc, updates)?;
        let names = ascending_names(alloc, &numbers)?;
        let groups = group(alloc, updates)?;
        list_groups(alloc, &names, &groups)
    }
}

impl Overlay {
    /// The names of all objects, ascending.
    pub(crate) fn names(&self) -> Result<Vec<Oid>, AllocError>
        ensures { IfOk result (λ names. names.items ≡ keys self.now) }
    {
        ascending_names(*self.entries.allocator(), self.entries.keys().as_slice())
    }
}

impl Parts {
    fn alloc(&self) -> Global {
        *self.text.allocator()
    }

    // A copy of the changed object of this name, if it is one that was made or an ordinary one that
    // was written.
    fn chosen(&self, oid: Oid, made: bool) -> Result<Option<Object>, AllocError>
        ensures { IfOk result (λ object. object ≡ chosen made self.now.seen oid) }
    {
        let Some(object) = self.shown.changed(oid.number()) else {
            return Ok(None);
        };
        if !is_chosen(made, self.is_made(oid), object) {
            return Ok(None);
        }
        Ok(Some(Object {
            class: object.class,
            segment: object.segment,
            changed: 0,
            body: object.body.clone()?,
        }))
    }
}

// Whether a changed object, which was made here or not, is one that was made or one that was
// written.
fn is_chosen(made: bool, here: bool, object: &Object) -> bool
    ensures { result ≡ cond made here (not here && not (is_shared object.now.body)) }
{
    if made {
        here
    } else {
        !here && !object.body.is_shared()
    }
}

// The changed objects of these names that were made, or were written.
fn choose(parts: &Parts, names: &[Oid], made: bool) -> Result<Vec<(Oid, Object)>, AllocError>
    ensures { IfOk result (λ objects. objects.items ≡ all_chosen made parts.now.seen names.now) }
{
    let mut objects = Vec::new(parts.alloc());
    for oid in names {
        if let Some(object) = parts.chosen(*oid, made)? {
            objects.push((*oid, object))?;
        }
    }
    Ok(objects)
}

// The numbers of the names of these updates.
fn numbers_of(alloc: Global, updates: &[(Oid, Update)]) -> Result<Vec<u64>, AllocError>
    ensures { IfOk result (λ numbers. numbers.items ≡ map (λ update. update.0) updates.now) }
{
    let mut numbers = Vec::with_capacity(alloc, updates.len())?;
    for (oid, _) in updates {
        numbers.push(oid.number())?;
    }
    Ok(numbers)
}

// The names with these numbers, ascending and each once.
fn ascending_names(alloc: Global, numbers: &[u64]) -> Result<Vec<Oid>, AllocError>
    ensures { IfOk result (λ names. names.items ≡ ascending numbers.now) }
{
    let mut sorted = Vec::from_slice(alloc, numbers)?;
    sorted.sort()?;
    sorted.dedup();
    named(alloc, &sorted)
}

// The names with these numbers. Each is the number of a name, so none is missing.
fn named(alloc: Global, numbers: &[u64]) -> Result<Vec<Oid>, AllocError>
    ensures { IfOk result (λ names. names.items ≡ numbers.now) }
{
    let mut names = Vec::with_capacity(alloc, numbers.len())?;
    for number in numbers {
        let Some(oid) = Oid::of(*number) else {
            return Err(AllocError);
        };
        names.push(oid)?;
    }
    Ok(names)
}
