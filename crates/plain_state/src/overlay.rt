//! What a transaction has changed.
ghost use Rattle.std.specs.Prelude.{◌≡◌, ◌≤◌, ◌+◌, ◌^◌, length, option_map, option_copied, is_some, true, IfSome, IfOk, OnOk, OnErr, Some};
ghost use Rattle.std.specs.Result.{IfErr};
ghost use Rattle.std.specs.FinMap as map;
ghost use Rattle.gem_image.specs.Image.{contents_of};
ghost use Rattle.plain_state.specs.Edit.{edited_by, with_slot_put, takes_value};
ghost use Rattle.object_programs.specs.Guard.{holds_of};
ghost use Rattle.running_objects.specs.Acted.{stored_bytes};
ghost use Rattle.plain_state.specs.Overlay.{changed};
ghost use Rattle.plain_state.specs.Puts.{with_all};
ghost use Rattle.plain_state.specs.Updates.{takes, with_update};

use crate::edit::Edit;
use crate::entry::Entry;
use crate::many::insert_all;
use crate::near::place_near;
use gem_object::{Object, Value};
use gem_update::Update;
use indexmap::IndexMap;
use std::alloc::{AllocError, Global};
use std::marker::Model;

/// Objects by their names. Contracts see the finite map from the numbers of the names to what the
/// objects are, but for the number of the last commit.
#[derive(Drop)]
pub(crate) struct Overlay {
    pub(crate) entries: IndexMap<u64, Entry>,
}

impl Model for Overlay {
    ghost use Rattle.std.specs.Coded.{coded_ℕ};
    ghost use Rattle.std.specs.Ordering.{nat_cmp};
    ghost use Rattle.std.specs.FinMap as map;
    ghost use Rattle.gem_image.specs.Image.{Contents};
    ghost use Rattle.gem_object.specs.contracts.body.Body as body;
    ghost use Rattle.running_objects.specs.Codes.{contents_code};
    ghost use Rattle.plain_state.specs.Overlay.{contents_by_name};

    ghost Value = { map.FinMap nat_cmp Contents };

    ghost coded = { map.code coded_ℕ (contents_code body.the_row.coded) };

    ghost view = { λ overlay. contents_by_name overlay.entries.entries };
}

impl Overlay {
    /// Without objects. It takes no memory.
    pub(crate) fn new(alloc: Global) -> Overlay
        ensures { result ≡ map.empty }
    {
        Overlay {
            entries: IndexMap::new(alloc),
        }
    }

    /// The object of this name, if there is one.
    pub(crate) fn look(&self, number: u64) -> Option<&Object>
        ensures { option_map contents_of (option_copied result) ≡ map.get self.now number }
    {
        Some(self.entries.get(&number)?.object())
    }

    /// The object of this name, if it stands at this place.
    #[inline(always)]
    pub(crate) fn at(&self, at: usize, number: u64) -> Option<&Object>
        ensures { IfSome (option_copied result) (λ object.
            map.get self.now number ≡ Some (contents_of object)) }
    {
        let (key, entry) = self.entries.get_index(at)?;
        if *key == number {
            Some(entry.object())
        } else {
            None
        }
    }

    /// The object of this name, if there is one; it mostly stands at this place.
    #[inline(always)]
    pub(crate) fn look_near(&self, at: usize, number: u64) -> Option<&Object>
        ensures { option_map contents_of (option_copied result) ≡ map.get self.now number }
    {
        match self.at(at, number) {
            Some(object) => Some(object),
            None => self.look(number),
        }
    }

    /// The place of the object of this name, if there is one.
    pub(crate) fn place(&self, number: u64) -> Option<usize>
        ensures { is_some result ≡ is_some (map.get self.now number) }
    {
        self.entries.get_index_of(&number)
    }

    /// How many objects there are: the place of the next one.
    pub(crate) fn count(&self) -> usize {
        self.entries.len()
    }

    /// The bytes that the fields of this name's object take where it is stored, if there is one; it
    /// mostly stands at this place. They are known without a look at the contents.
    #[inline(always)]
    pub(crate) fn stored_bytes(&self, at: usize, number: u64) -> Option<u64>
        ensures { result ≡ option_map stored_bytes (map.get self.now number) }
    {
        let place = place_near(&self.entries, at, number)?;
        Some(self.entries[place].stored_bytes())
    }

    /// Whether there is an object of this name.
    pub(crate) fn has(&self, number: u64) -> bool
        ensures { result ≡ is_some (map.get self.now number) }
    {
        self.look(number).is_some()
    }

    /// Puts an object at this name, and tells the place where it stands.
    ///
    /// # Errors
    ///
    /// `AllocError` where memory ran out. All is as before.
    pub(crate) fn put(&mut self, number: u64, object: Object) -> Result<usize, AllocError>
        ensures put { OnOk result (self.new ≡ map.insert self.old number (contents_of object)) }
        ensures unchanged { OnErr result (self.new ≡ self.old) }
    {
        let placed = self.entries.insert_full(number, Entry::new(object))?;
        Ok(placed.0)
    }

    /// Puts objects at this name and at those after it.
    ///
    /// # Errors
    ///
    /// `AllocError` where memory ran out. All is as before.
    pub(crate) fn put_all(&mut self, first: u64, objects: Vec<Object>) -> Result<(), AllocError>
        requires { first + length objects.items ≤ 2 ^ 48 }
        ensures put { OnOk result (self.new ≡ with_all first objects.items self.old) }
        ensures unchanged { OnErr result (self.new ≡ self.old) }
    {
        self.entries.reserve(objects.len())?;
        insert_all(&mut self.entries, first, objects);
        Ok(())
    }

    /// Edits the object of this name, if there is one; it mostly stands at this place.
    ///
    /// # Errors
    ///
    /// `AllocError` where memory ran out. All is as before.
    #[inline(always)]
    pub(crate) fn edit(&mut self, at: usize, number: u64, edit: Edit) -> Result<(), AllocError>
        ensures edited { OnOk result (self.new ≡ changed number (edited_by edit) self.old) }
        ensures unchanged { OnErr result (self.new ≡ self.old) }
    {
        let Some(place) = place_near(&self.entries, at, number) else {
            return Ok(());
        };
        self.entries[place].edit(edit)
    }

    /// Puts a value into a slot of the object of this name, where there is that slot. The object
    /// mostly stands at this place.
    #[inline(always)]
    pub(crate) fn put_slot(&mut self, near: usize, number: u64, at: usize, value: Value)
        ensures { self.new ≡ changed number (with_slot_put at value) self.old }
    {
        let Some(place) = place_near(&self.entries, near, number) else {
            return;
        };
        self.entries[place].put_slot(at, value);
    }

    /// Puts a value into a slot of the object of this name, where there is that slot and the object
    /// then is within the limits of objects. Else it gives the value back, and all is as before. The
    /// object mostly stands at this place.
    #[inline(always)]
    pub(crate) fn put_slot_within(
        &mut self,
        near: usize,
        number: u64,
        at: usize,
        value: Value,
    ) -> Result<(), Value>
        ensures put { OnOk result (self.new ≡ changed number (with_slot_put at value) self.old) }
        ensures takes { OnOk result
            (holds_of (takes_value at value) (map.get self.old number) ≡ true) }
        ensures given { IfErr result (λ given. given ≡ value) }
        ensures unchanged { OnErr result (self.new ≡ self.old) }
    {
        let Some(place) = place_near(&self.entries, near, number) else {
            return Err(value);
        };
        self.entries[place].put_slot_within(at, value)
    }

    /// Updates the object of this name, if there is one; whether it took the update. It mostly
    /// stands at this place.
    ///
    /// # Errors
    ///
    /// `AllocError` where memory ran out. All is as before.
    pub(crate) fn update(
        &mut self,
        at: usize,
        number: u64,
        update: Update,
    ) -> Result<bool, AllocError>
        ensures taken { IfOk result (λ taken.
            taken ≡ holds_of (takes update) (map.get self.old number)) }
        ensures updated { OnOk result (self.new ≡ changed number (with_update update) self.old) }
        ensures unchanged { OnErr result (self.new ≡ self.old) }
    {
        let Some(place) = place_near(&self.entries, at, number) else {
            return Ok(false);
        };
        self.entries[place].update(update)
    }
}
