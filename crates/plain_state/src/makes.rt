//! What the parts of a state do where objects are made.
ghost use Rattle.std.specs.Prelude.{◌≡◌, ◌≤◌, ◌+◌, ℕ, true, length, map, OnOk, OnErr};
ghost use Rattle.std.specs.List.{list_all};
ghost use Rattle.gem_image.specs.Image.{contents_of};
ghost use Rattle.gem_world.specs.World.{next_name};
ghost use Rattle.object_programs.specs.Atom.{make_check, objects_cost};
ghost use Rattle.object_programs.specs.Methods.{methods_fit};
ghost use Rattle.object_programs.specs.declared.limits.TheConstants.{COUNTER_LIMIT};
ghost use Rattle.running_objects.specs.Seen.{IsSoundState};
ghost use Rattle.running_objects.specs.Acted.{Made};
ghost use Rattle.plain_state.specs.Puts.{check_result, made};

use crate::parts::Parts;
use gem_object::{Object, Oid};
use object_guard::{all_fit, are_within_limits, objects_cost};
use object_programs::{COUNTER_LIMIT, Fault};
use running_objects::Stop;
use std::alloc::AllocError;

impl Parts {
    /// What is found before the objects are made: E17, E16 and E15, in this order.
    fn check_make(&self, objects: &[Object]) -> Result<(), Fault>
        ensures { result ≡ check_result (make_check (map contents_of objects.now)
            self.now.seen.world self.now.seen.budget) }
    {
        if !are_within_limits(objects) {
            return Err(Fault::ObjectTooLarge);
        }
        if (self.next as u64).saturating_add(objects.len() as u64) > COUNTER_LIMIT {
            return Err(Fault::NamesUsedUp);
        }
        if objects_cost(objects) > self.slots {
            return Err(Fault::Space);
        }
        Ok(())
    }

    /// Makes the objects, of which the first gets this name, and takes their space.
    fn add_all(&mut self, first: Oid, objects: Vec<Object>) -> Result<(), AllocError>
        requires sound { IsSoundState self.old.seen }
        requires first { first ≡ next_name self.old.seen.setting self.old.seen.world }
        requires names { self.old.seen.world.next + length objects.items ≤ COUNTER_LIMIT }
        requires space { objects_cost (map contents_of objects.items) ≤ self.old.seen.budget.slots }
        ensures made { OnOk result (self.new.seen ≡ made objects.items self.old.seen) }
        ensures unchanged { OnErr result (self.new.seen ≡ self.old.seen) }
    {
        let (count, cost) = (objects.len() as u32, objects_cost(&objects));
        self.shown.put_all(first.number(), objects)?;
        self.next += count;
        self.slots -= cost;
        Ok(())
    }

    /// Makes new objects, each at the name after that of the one before it; the name of the first.
    pub(crate) fn make(&mut self, objects: Vec<Object>) -> Result<Oid, Stop>
        requires sound { IsSoundState self.old.seen }
        requires methods { (name : ℕ)
            → list_all (λ object. methods_fit name object.body) objects.items ≡ true }
        ensures { Made objects.items self.old.seen result self.new.seen }
    {
        self.check_make(&objects)?;
        let number = (self.serial as u64) * (1 << 24) + self.next as u64;
        // Only where no objects are made, behind the last name of all, is there no such name.
        let Some(first) = Oid::of(number) else {
            return Err(Stop::NoMemory);
        };
        if all_fit(self, first, &objects) {
            self.add_all(first, objects)?;
            return Ok(first);
        }
        self.miss_lacking(first, &objects)?;
        Err(Stop::Fails(Fault::ObjectTooLarge))
    }
}
