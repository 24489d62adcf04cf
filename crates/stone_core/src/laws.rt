//! What follows from the definitions alone. Each law is the contract of a function that does
//! nothing.
ghost use Rattle.std.specs.Prelude.{◌≡◌, ◌≢◌, ◌≤◌, ◌⊎◌, [], ◌∷◌, ◌++◌, ℕ, List, IsSome};
ghost use Rattle.gem_record.specs.Names.{under};
ghost use Rattle.gem_record.specs.declared.record.Entry.{Entry};
ghost use Rattle.gem_record.specs.declared.record.TxnRecord.{TxnRecord};
ghost use Rattle.gem_record.specs.declared.mode.Mode.TheVariants.{Full};
ghost use Rattle.commit_check.specs.Table.{IsTouched, IsWritten};
ghost use Rattle.gem_meaning.specs.declared.event.What.TheVariants.{Placed};
ghost use Rattle.gem_meaning.specs.Opened.{Opened};
ghost use Rattle.gem_meaning.specs.Events.{Event, effect_of, after_events, conflicts_at};
ghost use Rattle.stone_core.specs.declared.port.CommitAnswer.{CommitAnswer};
ghost use Rattle.stone_core.specs.declared.port.CommitAnswer.TheVariants.{DiskFault, Placed as PlacedAt};
ghost use Rattle.stone_core.specs.Port.{CommitSays};

/// The first committer wins: a transaction that wrote an object, or touched one and is checked for
/// that, has a conflict where a commit after its view has changed that object, whatever came later.
pub fn first_committer_wins()
    ensures { (o : Opened) (before more : List Event) (session : ℕ) (placed : Entry)
        (done : TxnRecord) (name : ℕ) → done.view ≤ (after_events o before).number →
        IsSome (under name (effect_of o (after_events o before) placed)) →
        ((done.mode ≡ Full) × IsTouched done name) ⊎ IsWritten done name →
        conflicts_at (after_events o
        ((before ++ (session, Placed placed) ∷ []) ++ more)) done ≢ [] }
{}

/// A refusal changes nothing, nor does any other answer but that the commit was placed or that the
/// disk failed: what stands after the commit is what stood when the others' events had come.
pub fn refusal_changes_nothing()
    ensures { (o : Opened) (before after : List Event) (done : TxnRecord)
        (answer : CommitAnswer) → ((number : ℕ) → answer ≢ PlacedAt number) →
        answer ≢ DiskFault →
        (says : CommitSays o before after done answer) → after ≡ before ++ says.others }
{}

/// Where the disk fails at a commit, what stands after it is what stood when the others' events had
/// come, too.
pub fn failure_changes_nothing()
    ensures { (o : Opened) (before after : List Event) (done : TxnRecord)
        (says : CommitSays o before after done DiskFault) →
        after_events o after ≡ after_events o (before ++ says.others) }
{}
