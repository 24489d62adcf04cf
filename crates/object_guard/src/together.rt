//! A state with new objects beside those that it shows.
ghost use Rattle.std.specs.Prelude.{◌≡◌, ◌+◌, option_map, option_copied};
ghost use Rattle.object_guard.specs.Parts.{with_objects, new_object};

use crate::sees::Sees;
use gem_object::{Object, Oid};

/// A state with new objects: the first of them has a name, and each of the others the name after
/// that of the one before it. At these names the new objects are seen, and at any other one what
/// the state shows. Nothing is copied.
#[derive(Drop)]
pub(crate) struct Together<'a, S> {
    pub(crate) state: &'a S,
    pub(crate) first: u64,
    pub(crate) objects: &'a [Object],
}

impl<'a, S: Sees> Sees for Together<'a, S> {
    ghost use Rattle.object_guard.specs.Parts.{with_objects, new_object};

    ghost parts = { λ together. with_objects together.first together.objects.now
        (S.parts together.state.now) };

    fn object(&self, oid: Oid) -> Option<&Object> {
        match new_object(self.first, self.objects, oid.number()) {
            Some(object) => Some(object),
            None => self.state.object(oid),
        }
    }
}

// The new object of this name, if there is one.
fn new_object(first: u64, objects: &[Object], number: u64) -> Option<&Object>
    ensures { option_copied result ≡ new_object first objects.now number }
{
    let place = number.checked_sub(first)?;
    objects.get(place as usize)
}
