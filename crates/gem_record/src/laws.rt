//! What follows from the definitions alone. Each law is the contract of a function that does
//! nothing.
ghost use Rattle.std.specs.Prelude.{◌≡◌};
ghost use Rattle.gem_record.specs.History.{entry_of};
ghost use Rattle.gem_record.specs.declared.record.Entry.{Entry};
ghost use Rattle.gem_world.specs.World.{Setting, World};
ghost use Rattle.gem_record.specs.Record.{record_of};

/// The history keeps of a run's record just who ran which commands, and on which view.
#[tactic(auto, unfolding(crate::specs::Record::record_of))]
pub fn entry_is_kept()
    ensures { (entry : Entry) (setting : Setting) (world : World)
        → entry_of (record_of entry setting world) ≡ entry }
{}
