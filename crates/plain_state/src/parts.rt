//! The parts of a plain state, without the claim that its objects are sound.
ghost use Rattle.std.specs.Prelude.{◌≡◌, ◌≤◌, ◌+◌, option_map, option_copied, is_some, OnOk, OnErr};
ghost use Rattle.indexmap.specs.IndexSet.{spare};
ghost use Rattle.gem_image.specs.Image.{contents_of};
ghost use Rattle.gem_image.specs.Rights.{rights_at, groups_at, right_in, right_on, right_on_segment};
ghost use Rattle.gem_world.specs.World.{shown_objects, is_made, is_private, with_name};
ghost use Rattle.gem_world.specs.Access.{a_read, a_write, right_at, is_allowed};
ghost use Rattle.running_objects.specs.Seen.{object_at, with_whole_budget};
ghost use Rattle.running_objects.specs.Acted.{stored_bytes};
ghost use Rattle.plain_state.specs.Parts.{touched, missed, asked, held};

use crate::shown::Shown;
use gem_image::{groups_of, right_on_segment, rights_of};
use gem_object::{Body, Object, Oid, Right, Rights, Text, may_read, may_write};
use gem_update::Update;
use indexmap::IndexSet;
use object_programs::{SPACE_LIMIT, UNIT_LIMIT};
use std::alloc::{AllocError, Global};
use std::marker::Model;

/// Of how many classes above one that is read it is kept where they stand.
const CLASSES: usize = 8;

/// A state: what it began with, what has become of the objects, and what is left.
#[derive(Drop)]
pub(crate) struct Parts {
    pub(crate) shown: Shown,
    pub(crate) user: Oid,
    pub(crate) serial: u32,
    pub(crate) first: u32,
    pub(crate) next: u32,
    pub(crate) updates: Vec<(Oid, Update)>,
    pub(crate) touched: IndexSet<u64>,
    pub(crate) units: u64,
    pub(crate) slots: u64,
    pub(crate) text: Vec<u8>,
}

impl Model for Parts {
    ghost use Rattle.gem_object.specs.contracts.object.Object as object;
    ghost use Rattle.gem_object.specs.contracts.body.Body as body;
    ghost use Rattle.gem_update.specs.contracts.update.Update as update;
    ghost use Rattle.indexmap.specs.IndexSet.{spare as room_in};
    ghost use Rattle.running_objects.specs.Codes.{seen_code};
    ghost use Rattle.plain_state.specs.Room.{SeenWithRoom, with_room_code};

    ghost Value = { SeenWithRoom };

    ghost coded = { with_room_code
        (seen_code object.the_row.coded body.the_row.coded update.the_row.coded) };

    ghost view = { λ parts. record {
      seen = record {
        setting = record {
          place = parts.shown.place;
          view = parts.shown.view;
          user = parts.user;
          serial = parts.serial;
          first = parts.first;
        };
        world = record {
          next = parts.next;
          changes = parts.shown.changes;
          updates = parts.updates.items;
          touched = parts.touched.keys;
        };
        budget = record { units = parts.units; slots = parts.slots; text = parts.text.items };
      };
      spare = room_in parts.touched;
    } };
}

impl Parts {
    /// The object of this name, if there is one, as it is now.
    #[inline(always)]
    pub(crate) fn look(&self, oid: Oid) -> Option<&Object>
        ensures { option_map contents_of (option_copied result) ≡ object_at oid self.now.seen }
    {
        self.shown.look(oid)
    }

    /// Keeps at hand what an access of the object of this name asks for: the object, its segment
    /// and the profile of the user, and of a class those above it.
    pub(crate) fn bring(&mut self, oid: Oid)
        ensures { self.new ≡ self.old }
    {
        self.shown.bring(oid);
        let Some(object) = self.shown.look(oid) else {
            return;
        };
        let (segment, user, above) = (object.segment, self.user, superclass_of(&object.body));
        self.shown.bring(segment);
        self.shown.bring(user);
        self.bring_classes(above);
    }

    // Keeps the classes from this one up at hand.
    fn bring_classes(&mut self, class: Option<Oid>)
        ensures { self.new ≡ self.old }
    {
        let mut above = class;
        for _ in 0..CLASSES {
            let Some(name) = above else {
                return;
            };
            above = self.bring_class(name);
        }
    }

    // Keeps a class at hand; its superclass, if it has one.
    fn bring_class(&mut self, class: Oid) -> Option<Oid>
        ensures { self.new ≡ self.old }
    {
        self.shown.bring(class);
        superclass_of(&self.shown.look(class)?.body)
    }

    /// The name of the user.
    pub(crate) fn user(&self) -> Oid
        ensures { result ≡ self.now.seen.setting.user }
    {
        self.user
    }

    /// The bytes that the fields of the object's body take where it is stored. Of an object that
    /// was written or made they are known without a look at its contents.
    pub(crate) fn stored_bytes(&self, oid: Oid) -> Option<u64>
        ensures { result ≡ option_map stored_bytes (object_at oid self.now.seen) }
    {
        match self.shown.stored_bytes(oid.number()) {
            Some(bytes) => Some(bytes),
            None => {
                let object = self.shown.before(oid)?;
                Some(object.body.size())
            }
        }
    }

    /// Makes the budget whole.
    pub(crate) fn refill(&mut self)
        ensures { self.new.seen ≡ with_whole_budget self.old.seen }
    {
        self.units = UNIT_LIMIT;
        self.slots = SPACE_LIMIT;
        self.text.clear();
    }

    /// Whether there is an object of this name.
    #[inline(always)]
    pub(crate) fn is_there(&self, oid: Oid) -> bool
        ensures { result ≡ is_some (object_at oid self.now.seen) }
    {
        self.look(oid).is_some()
    }

    /// Whether the object of this name was made here.
    #[tactic(auto, unfolding(gem_world::specs::World::is_made))]
    pub(crate) fn is_made(&self, oid: Oid) -> bool
        ensures { result ≡ is_made oid self.now.seen.setting self.now.seen.world }
    {
        let start = (self.serial as u64) * (1 << 24);
        start + (self.first as u64) <= oid.number()
            && oid.number() < start + (self.next as u64)
            && self.shown.has(oid.number())
    }

    /// Whether no touch of the name is recorded.
    #[tactic(auto, unfolding(gem_world::specs::World::is_private))]
    fn is_private(&self, oid: Oid) -> bool
        ensures { result ≡ is_private oid self.now.seen.setting self.now.seen.world }
    {
        self.is_made(oid) || self.shown.are_shared(oid)
    }

    /// Makes room, so that so many names can be touched without memory.
    pub(crate) fn reserve(&mut self, touches: usize) -> Result<(), AllocError>
        ensures unchanged { self.new.seen ≡ self.old.seen }
        ensures made { OnOk result (touches ≤ self.new.spare) }
        ensures room { self.old.spare ≤ self.new.spare }
    {
        self.touched.reserve(touches)
    }

    /// Touches the name, where there is room for it. It takes no memory.
    #[tactic(auto, unfolding(gem_world::specs::World::touch))]
    fn touch_within(&mut self, oid: Oid)
        requires { 1 ≤ self.old.spare }
        ensures touched { self.new.seen ≡ touched oid self.old.seen }
        ensures room { self.old.spare ≤ self.new.spare + 1 }
    {
        if !self.is_private(oid) {
            add_name(&mut self.touched, oid.number());
        }
    }

    /// Touches the name.
    pub(crate) fn touch(&mut self, oid: Oid) -> Result<(), AllocError>
        ensures touched { OnOk result (self.new.seen ≡ touched oid self.old.seen) }
        ensures unchanged { OnErr result (self.new.seen ≡ self.old.seen) }
    {
        self.reserve(1)?;
        self.touch_within(oid);
        Ok(())
    }

    /// Touches a name without an object.
    pub(crate) fn miss(&mut self, oid: Oid) -> Result<(), AllocError>
        ensures missed { OnOk result (self.new.seen ≡ missed oid self.old.seen) }
        ensures unchanged { OnErr result (self.new.seen ≡ self.old.seen) }
    {
        self.touched.insert(oid.number())?;
        Ok(())
    }

    /// Touches what an access touches, where there is room for it. It takes no memory.
    #[tactic(auto, unfolding(gem_world::specs::World::touch, gem_world::specs::Access::with_touches))]
    pub(crate) fn ask_within(&mut self, oid: Oid)
        requires { 3 ≤ self.old.spare }
        ensures asked { self.new.seen ≡ asked oid self.old.seen }
        ensures room { self.old.spare ≤ self.new.spare + 3 }
    {
        let Some(object) = self.look(oid) else {
            self.touch_within(oid);
            return;
        };
        let (segment, user) = (object.segment, self.user);
        self.touch_within(oid);
        self.touch_within(segment);
        self.touch_within(user);
    }

    /// Touches what an access touches.
    pub(crate) fn ask(&mut self, oid: Oid) -> Result<(), AllocError>
        ensures asked { OnOk result (self.new.seen ≡ asked oid self.old.seen) }
        ensures unchanged { OnErr result (self.new.seen ≡ self.old.seen) }
    {
        self.reserve(3)?;
        self.ask_within(oid);
        Ok(())
    }

    /// Puts an ordinary object of this name among those that are written.
    pub(crate) fn hold(&mut self, oid: Oid) -> Result<(), AllocError>
        ensures held { OnOk result (self.new.seen ≡ held oid self.old.seen) }
        ensures unchanged { OnErr result (self.new.seen ≡ self.old.seen) }
    {
        if self.shown.has(oid.number()) {
            return Ok(());
        }
        let Some(object) = self.shown.before(oid) else {
            return Ok(());
        };
        if object.body.is_shared() {
            return Ok(());
        }
        let copy = object.clone()?;
        self.shown.put(oid.number(), copy)
    }

    /// Whether the user may read the object of this name.
    #[tactic(auto, unfolding(gem_world::specs::Access::is_allowed))]
    pub(crate) fn may_read(&self, oid: Oid) -> bool
        ensures { result ≡ is_allowed a_read oid self.now.seen.setting self.now.seen.world }
    {
        may_read(self.right_on(oid))
    }

    /// Whether the user may write the object of this name.
    #[tactic(auto, unfolding(gem_world::specs::Access::is_allowed))]
    pub(crate) fn may_write(&self, oid: Oid) -> bool
        ensures { result ≡ is_allowed a_write oid self.now.seen.setting self.now.seen.world }
    {
        may_write(self.right_on(oid))
    }

    /// The user's right on the object of this name.
    pub(crate) fn right_on(&self, oid: Oid) -> Right
        ensures { result ≡ right_at oid self.now.seen.setting self.now.seen.world }
    {
        let Some(object) = self.look(oid) else {
            return Right::None;
        };
        match &object.body {
            Body::Segment(rights) => right_on_segment(rights, self.user),
            _ => self.right_in(object.segment),
        }
    }

    // The right that the segment gives the user on the objects that lie in it.
    pub(crate) fn right_in(&self, segment: Oid) -> Right
        ensures { result ≡ right_in (shown_objects self.now.seen.setting self.now.seen.world)
            self.now.seen.setting.user segment }
    {
        let Some(rights) = self.rights_at(segment) else {
            return Right::None;
        };
        let Some(groups) = self.groups_at(self.user) else {
            return Right::None;
        };
        rights.right_of(self.user.number(), groups)
    }

    // The rights that the segment of this name gives.
    fn rights_at(&self, segment: Oid) -> Option<&Rights<Text>>
        ensures { option_copied result
            ≡ rights_at (shown_objects self.now.seen.setting self.now.seen.world) segment }
    {
        rights_of(&self.look(segment)?.body)
    }

    // The groups in which the user of this name is.
    fn groups_at(&self, user: Oid) -> Option<&[Text]>
        ensures { option_copied result
            ≡ groups_at (shown_objects self.now.seen.setting self.now.seen.world) user }
    {
        groups_of(&self.look(user)?.body)
    }
}

// The superclass, if the body is that of a class that has one.
fn superclass_of(body: &Body) -> Option<Oid> {
    match body {
        Body::Class(class) => class.superclass,
        _ => None,
    }
}

// Adds a name that may be there, where there is room for it.
fn add_name(touched: &mut IndexSet<u64>, name: u64)
    requires { 1 ≤ spare touched.old }
    ensures keys { touched.new.keys ≡ with_name touched.old.keys name }
    ensures room { spare touched.old ≤ spare touched.new + 1 }
{
    let Ok(_) = touched.insert(name) else {
        unreachable!()
    };
}
