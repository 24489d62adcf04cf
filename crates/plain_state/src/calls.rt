//! What the parts of a state do at the calls that don't change objects.
ghost use Rattle.gem_world.specs.Access.{a_read, a_write};
ghost use Rattle.object_programs.specs.Atom.{Names, Tick, Room, Show};
ghost use Rattle.running_objects.specs.Acted.{Acted, Accessed, Owned, Known};

use crate::parts::Parts;
use gem_object::Oid;
use object_programs::{COUNTER_LIMIT, Fault, TRANSCRIPT_LIMIT};
use running_objects::Stop;

impl Parts {
    /// Takes a unit.
    pub(crate) fn tick(&mut self) -> Result<(), Stop>
        ensures { Acted Tick self.old.seen result self.new.seen }
    {
        if self.units == 0 {
            return Err(Stop::Fails(Fault::SendBudget));
        }
        self.units -= 1;
        Ok(())
    }

    /// Takes so much space.
    pub(crate) fn room(&mut self, slots: u64) -> Result<(), Stop>
        ensures { Acted (Room slots) self.old.seen result self.new.seen }
    {
        if self.slots < slots {
            return Err(Stop::Fails(Fault::Space));
        }
        self.slots -= slots;
        Ok(())
    }

    /// Whether so many names are left.
    pub(crate) fn names(&mut self, count: u64) -> Result<(), Stop>
        ensures { Acted (Names count) self.old.seen result self.new.seen }
    {
        if (self.next as u64).saturating_add(count) > COUNTER_LIMIT {
            return Err(Stop::Fails(Fault::NamesUsedUp));
        }
        Ok(())
    }

    /// Writes a text on the transcript.
    pub(crate) fn show(&mut self, text: &[u8]) -> Result<(), Stop>
        ensures { Acted (Show text.now) self.old.seen result self.new.seen }
    {
        let length = text.len() as u64;
        if (self.text.len() as u64).saturating_add(length) > TRANSCRIPT_LIMIT {
            return Err(Stop::Fails(Fault::ObjectTooLarge));
        }
        let cost = (length + 7) / 8;
        if self.slots < cost {
            return Err(Stop::Fails(Fault::Space));
        }
        self.text.extend_from_slice(text)?;
        self.slots -= cost;
        Ok(())
    }

    /// Reads the object of this name.
    pub(crate) fn read(&mut self, oid: Oid) -> Result<(), Stop>
        ensures { Accessed a_read oid self.old.seen result self.new.seen }
    {
        let allowed = self.may_read(oid);
        self.ask(oid)?;
        if allowed {
            return Ok(());
        }
        Err(Stop::Fails(Fault::NoReadRight(oid)))
    }

    /// Writes the object of this name.
    pub(crate) fn write(&mut self, oid: Oid) -> Result<(), Stop>
        ensures { Accessed a_write oid self.old.seen result self.new.seen }
    {
        let allowed = self.may_write(oid);
        self.ask(oid)?;
        if allowed {
            self.hold(oid)?;
            return Ok(());
        }
        Err(Stop::Fails(Fault::NoWriteRight(oid)))
    }

    /// Looks at the user's own profile.
    pub(crate) fn own(&mut self) -> Result<(), Stop>
        ensures { Owned self.old.seen result self.new.seen }
    {
        let user = self.user();
        self.touch(user)?;
        Ok(())
    }

    /// Asks for the fixed part of the object of this name.
    pub(crate) fn know(&mut self, oid: Oid) -> Result<(), Stop>
        ensures { Known oid self.old.seen result self.new.seen }
    {
        if self.is_there(oid) {
            return Ok(());
        }
        self.miss(oid)?;
        Ok(())
    }
}
