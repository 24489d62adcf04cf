//! What follows from the definitions alone. Each law is the contract of a function that does
//! nothing.
ghost use Rattle.std.specs.Prelude.{◌≡◌, ◌<◌, ℕ, length, slice_set, List, ◌∷◌, Some, Result, Ok, Err};
ghost use Rattle.gem_object.specs.declared.value.Value.{Value};
ghost use Rattle.gem_object.specs.declared.body.Body.TheVariants as body;
ghost use Rattle.object_programs.specs.gem_image.Image.{Contents};
ghost use Rattle.object_programs.specs.gem_world.World.{Setting, World, shown};
ghost use Rattle.object_programs.specs.gem_world.Changes.{with_body};
ghost use Rattle.object_programs.specs.Fixed.{fixed_by};
ghost use Rattle.object_programs.specs.Guard.{may_replace};
ghost use Rattle.object_programs.specs.Laws.{AreSound};
ghost use Rattle.running_objects.specs.Fitting.{may_enter};
ghost use Rattle.object_programs.specs.Local.{Local};
ghost use Rattle.object_programs.specs.Atom.{Tick};
ghost use Rattle.object_programs.specs.Run.{Ending, perform};
ghost use Rattle.object_programs.specs.Steps.{Step, spending, step_program, steps_program};
ghost use Rattle.std.specs.FinMap.{get};
ghost use Rattle.gem_object.specs.Edits.{with_slot};
ghost use Rattle.running_objects.specs.Seen.{Seen, with_local, IsSoundState, Keeps};
ghost use Rattle.running_objects.specs.Ran.{Ran};
ghost use Rattle.running_objects.specs.Acted.{Acted, Edited};
ghost use Rattle.running_objects.specs.declared.stop.Stop.{Stop};

/// What code did in turn is what the commands do in turn: one after the other where the first has
/// an answer, and the first stop ends them. A call that did what an atom does ran as the command of
/// it. And however commands end in the same setting, what every run keeps is kept.
pub fn runs_compose()
    ensures in_turn { (step : Step) (rest : List Step) (before between after : Seen)
        (local middle later : Local (Unit {0})) (result : Result (Unit {0}) Stop)
        → Ran (step_program step) before local (Ok tt) between middle
        → Ran (steps_program rest) between middle result after later
        → Ran (steps_program (step ∷ rest)) before local result after later }
    ensures stops { (step : Step) (rest : List Step) (before after : Seen)
        (local later : Local (Unit {0})) (ended : Stop)
        → Ran (step_program step) before local (Err ended) after later
        → Ran (steps_program (step ∷ rest)) before local (Err ended) after later }
    ensures atom { (before after : Seen) (local : Local (Unit {0}))
        (result : Result (Unit {0}) Stop) → Acted Tick before result after
        → Ran (step_program spending) before local result after local }
    ensures keeps { (steps : List Step) (before after : Seen) (local later : Local (Unit {0}))
        (end : Ending (Unit {0})) → after.setting ≡ before.setting
        → perform (steps_program steps) before.setting (with_local before local)
        ≡ record { end = end; state = with_local after later } → Keeps before after }
{}

/// A value may come into a slot of a sound object that is there exactly where it can be stored and
/// the object is there to which it refers.
pub fn slots_fit()
    ensures { (name at : ℕ) (value : Value) (values : List Value) (setting : Setting)
        (world : World) (old : Contents) → AreSound setting world
        → shown name setting world ≡ Some old → old.body ≡ body.Plain values → at < length values
        → may_replace name old (with_body (body.Plain (slice_set values at value)) old) setting
        world ≡ may_enter (fixed_by setting world) value }
{}

/// An edit that leaves the body of a written object as it is changes nothing.
pub fn same_edits_do_nothing()
    ensures { (seen : Seen) (name at : ℕ) (value : Value) → IsSoundState seen
        → ((old : Contents) → get seen.world.changes name ≡ Some old
        → with_slot at value old.body ≡ old.body)
        → Edited name (with_slot at value) seen (Ok tt) seen }
{}
