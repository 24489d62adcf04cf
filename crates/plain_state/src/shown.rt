//! What a transaction sees.
ghost use Rattle.std.specs.Prelude.{◌≡◌, ◌≤◌, ◌+◌, ◌^◌, length, option_map, option_copied, is_some, true, IfSome, IfOk, OnOk, OnErr, Some};
ghost use Rattle.std.specs.Result.{IfErr};
ghost use Rattle.std.specs.FinMap as map;
ghost use Rattle.gem_image.specs.Image.{contents_of, objects_in};
ghost use Rattle.gem_world.specs.World.{are_shared};
ghost use Rattle.object_programs.specs.Guard.{holds_of};
ghost use Rattle.running_objects.specs.Acted.{stored_bytes};
ghost use Rattle.plain_state.specs.AtHand.{over, before_in, shown_in, with_changes, IsSpot};
ghost use Rattle.plain_state.specs.Edit.{edited_by, with_slot_put, takes_value};
ghost use Rattle.plain_state.specs.Overlay.{changed};
ghost use Rattle.plain_state.specs.Puts.{with_all};
ghost use Rattle.plain_state.specs.Updates.{takes, with_update};

use crate::at_hand::{AtHand, Spot, keep_all};
use crate::before::{are_shared, object_before, spot_before};
use crate::edit::Edit;
use crate::overlay::Overlay;
use gem_image::Image;
use gem_object::{Object, Oid, Value};
use gem_update::Update;
use std::alloc::{AllocError, Global};
use std::marker::Model;

/// The objects that a transaction sees: those of two images, and those that it has changed over
/// them. Where they stand that were asked for lately is known without a look into the images.
#[derive(Drop)]
pub(crate) struct Shown {
    place: Image,
    view: Image,
    changes: Overlay,
    hand: AtHand,
}

impl Model for Shown {
    ghost use Rattle.gem_object.specs.contracts.object.Object as object;
    ghost use Rattle.gem_object.specs.contracts.body.Body as body;
    ghost use Rattle.plain_state.specs.AtHand.{Layers, layers_code, AreSpots};

    ghost Value = { Layers };

    ghost coded = { layers_code object.the_row.coded body.the_row.coded };

    ghost view = { λ shown. record {
      place = shown.place;
      view = shown.view;
      changes = shown.changes;
    } };

    ghost invariant = { λ shown. AreSpots shown.hand (record {
      place = shown.place;
      view = shown.view;
      changes = shown.changes;
    }) };
}

impl Shown {
    /// Two images with nothing changed over them. It takes no memory.
    pub(crate) fn new(alloc: Global, place: Image, view: Image) -> Shown
        ensures { result ≡ over place view map.empty }
    {
        Shown {
            place,
            view,
            changes: Overlay::new(alloc),
            hand: AtHand::new(alloc),
        }
    }

    /// The image of the view.
    pub(crate) fn view(&self) -> &Image
        ensures { result.now ≡ self.now.view }
    {
        &self.view
    }

    /// What was changed.
    pub(crate) fn changes(&self) -> &Overlay
        ensures { result.now ≡ self.now.changes }
    {
        &self.changes
    }

    /// The object of this name, if there is one, as it is now.
    #[inline(always)]
    pub(crate) fn look(&self, oid: Oid) -> Option<&Object>
        ensures { option_map contents_of (option_copied result) ≡ shown_in self.now oid }
    {
        match self.at_hand(oid.number()) {
            Some(object) => Some(object),
            None => self.look_through(oid),
        }
    }

    // The object of this name, if it is known where it stands.
    #[inline(always)]
    fn at_hand(&self, number: u64) -> Option<&Object>
        ensures { IfSome (option_copied result) (λ object.
            shown_in self.now number ≡ Some (contents_of object)) }
    {
        match self.hand.find(number)? {
            Spot::Changed(at) => self.changes.at(*at, number),
            Spot::Before(object, _) => Some(&**object),
        }
    }

    // The same as `look`, wherever the object stands.
    fn look_through(&self, oid: Oid) -> Option<&Object>
        ensures { option_map contents_of (option_copied result) ≡ shown_in self.now oid }
    {
        match self.changes.look(oid.number()) {
            Some(object) => Some(object),
            None => self.before(oid),
        }
    }

    /// The changed object of this name, if there is one.
    #[inline(always)]
    pub(crate) fn changed(&self, number: u64) -> Option<&Object>
        ensures { option_map contents_of (option_copied result)
            ≡ map.get self.now.changes number }
    {
        let Some(spot) = self.hand.find(number) else {
            return self.changes.look(number);
        };
        match spot {
            Spot::Changed(at) => self.changes.look_near(*at, number),
            Spot::Before(_, _) => None,
        }
    }

    // Where the changed object of this name mostly stands. Any place will do.
    #[inline(always)]
    fn place_near(&self, number: u64) -> usize {
        match self.hand.find(number) {
            Some(Spot::Changed(at)) => *at,
            _ => usize::MAX,
        }
    }

    /// Whether the object of this name was changed.
    pub(crate) fn has(&self, number: u64) -> bool
        ensures { result ≡ is_some (map.get self.now.changes number) }
    {
        self.changed(number).is_some()
    }

    /// The bytes that the fields of a changed object's body take where it is stored. They are known
    /// without a look at the contents.
    pub(crate) fn stored_bytes(&self, number: u64) -> Option<u64>
        ensures { result ≡ option_map stored_bytes (map.get self.now.changes number) }
    {
        self.changes.stored_bytes(self.place_near(number), number)
    }

    /// The object of this name before anything was changed: a reduced-conflict one as of the view,
    /// any other as of the place.
    #[inline(never)]
    pub(crate) fn before(&self, oid: Oid) -> Option<&Object>
        ensures { option_map contents_of (option_copied result) ≡ before_in self.now oid }
    {
        object_before(&self.place, &self.view, oid)
    }

    /// Whether both images have an object of this name, a reduced-conflict one.
    pub(crate) fn are_shared(&self, oid: Oid) -> bool
        ensures { result ≡ are_shared (objects_in self.now.place oid)
            (objects_in self.now.view oid) }
    {
        let Some(spot) = self.hand.find(oid.number()) else {
            return are_shared(&self.place, &self.view, oid);
        };
        match spot {
            Spot::Changed(_) => are_shared(&self.place, &self.view, oid),
            Spot::Before(_, shared) => *shared,
        }
    }

    /// Keeps where the object of this name stands, if there is one, and memory for that.
    pub(crate) fn bring(&mut self, oid: Oid)
        ensures { self.new ≡ self.old }
    {
        if self.hand.find(oid.number()).is_some() {
            return;
        }
        if let Some(spot) = self.spot_of(oid) {
            self.hand.keep(oid.number(), spot);
        }
    }

    // Where the object of this name stands.
    fn spot_of(&self, oid: Oid) -> Option<Spot>
        ensures { IfSome result (IsSpot self.now oid) }
    {
        match self.changes.place(oid.number()) {
            Some(at) => Some(Spot::Changed(at)),
            None => spot_before(&self.place, &self.view, oid),
        }
    }

    /// Puts an object at this name, among those that are changed.
    ///
    /// # Errors
    ///
    /// `AllocError` where memory ran out. All is as before.
    pub(crate) fn put(&mut self, number: u64, object: Object) -> Result<(), AllocError>
        ensures put { OnOk result (self.new ≡ with_changes self.old
            (map.insert self.old.changes number (contents_of object))) }
        ensures unchanged { OnErr result (self.new ≡ self.old) }
    {
        let at = self.changes.put(number, object)?;
        self.hand.keep(number, Spot::Changed(at));
        Ok(())
    }

    /// Puts objects at this name and at those after it.
    ///
    /// # Errors
    ///
    /// `AllocError` where memory ran out. All is as before.
    pub(crate) fn put_all(&mut self, first: u64, objects: Vec<Object>) -> Result<(), AllocError>
        requires { first + length objects.items ≤ 2 ^ 48 }
        ensures put { OnOk result (self.new ≡ with_changes self.old
            (with_all first objects.items self.old.changes)) }
        ensures unchanged { OnErr result (self.new ≡ self.old) }
    {
        let (from, count) = (self.changes.count(), objects.len());
        self.changes.put_all(first, objects)?;
        keep_all(&mut self.hand, first, from, count);
        Ok(())
    }

    /// Edits the changed object of this name, if there is one.
    ///
    /// # Errors
    ///
    /// `AllocError` where memory ran out. All is as before.
    pub(crate) fn edit(&mut self, number: u64, edit: Edit) -> Result<(), AllocError>
        ensures edited { OnOk result (self.new ≡ with_changes self.old
            (changed number (edited_by edit) self.old.changes)) }
        ensures unchanged { OnErr result (self.new ≡ self.old) }
    {
        let at = self.place_near(number);
        self.changes.edit(at, number, edit)
    }

    /// Puts a value into a slot of the changed object of this name, where there is that slot.
    #[inline(always)]
    pub(crate) fn put_slot(&mut self, number: u64, at: usize, value: Value)
        ensures { self.new ≡ with_changes self.old
            (changed number (with_slot_put at value) self.old.changes) }
    {
        let near = self.place_near(number);
        self.changes.put_slot(near, number, at, value);
    }

    /// Puts a value into a slot of the changed object of this name, where there is that slot and the
    /// object then is within the limits of objects. Else it gives the value back, and all is as
    /// before.
    #[inline(always)]
    pub(crate) fn put_slot_within(
        &mut self,
        number: u64,
        at: usize,
        value: Value,
    ) -> Result<(), Value>
        ensures put { OnOk result (self.new ≡ with_changes self.old
            (changed number (with_slot_put at value) self.old.changes)) }
        ensures takes { OnOk result
            (holds_of (takes_value at value) (map.get self.old.changes number) ≡ true) }
        ensures given { IfErr result (λ given. given ≡ value) }
        ensures unchanged { OnErr result (self.new ≡ self.old) }
    {
        let near = self.place_near(number);
        self.changes.put_slot_within(near, number, at, value)
    }

    /// Updates the changed object of this name, if there is one; whether it took the update.
    ///
    /// # Errors
    ///
    /// `AllocError` where memory ran out. All is as before.
    pub(crate) fn update(&mut self, number: u64, update: Update) -> Result<bool, AllocError>
        ensures taken { IfOk result (λ taken.
            taken ≡ holds_of (takes update) (map.get self.old.changes number)) }
        ensures updated { OnOk result (self.new ≡ with_changes self.old
            (changed number (with_update update) self.old.changes)) }
        ensures unchanged { OnErr result (self.new ≡ self.old) }
    {
        let at = self.place_near(number);
        self.changes.update(at, number, update)
    }
}
