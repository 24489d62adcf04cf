//! What follows from the definitions alone. Each law is the contract of a function that does
//! nothing.
ghost use Rattle.std.specs.Prelude.{◌≡◌, ◌≤◌, ◌+◌, ℕ, ℤ, pos, false, List, [], ◌∷◌};
ghost use Rattle.kernel_image.specs.Objects.{kernel_image};
ghost use Rattle.load_maker.specs.Scripts.{setup_text, load_text, tally_text};
ghost use Rattle.gem_server.specs.Rounds.{IsLoaded, IsSetUp, HasRoom, IsRoundRecord, MeetsRound, round_text};
ghost use Rattle.gem_server.specs.AfterLoad.{HoldsLoad, CommitsEachRound};
ghost use Rattle.gem_server.specs.Tally.{IsTallied};
ghost use Rattle.gem_server.specs.Demo.{IsLoad};
ghost use Rattle.gem_meaning.specs.gem_object.declared.value.Value.{Value};
ghost use Rattle.gem_meaning.specs.gem_image.Image.{Image};
ghost use Rattle.gem_meaning.specs.gem_sound.declared.names.TheConstants.{DATA_CURATOR};
ghost use Rattle.gem_meaning.specs.gem_world.World.{untouched};
ghost use Rattle.gem_meaning.specs.object_programs.Laws.{begun_at};
ghost use Rattle.gem_meaning.specs.object_programs.Run.{gives};
ghost use Rattle.gem_meaning.specs.gem_language.Commands.{run_chunk, ran};
ghost use Rattle.gem_meaning.specs.gem_language.Transaction.{command_outcome};
ghost use Rattle.gem_meaning.specs.gem_record.Record.{record_of};
ghost use Rattle.gem_meaning.specs.commit_check.Conflicts.{conflicts_of};
ghost use Rattle.std.specs.FinMap.{empty};
ghost use Rattle.gem_meaning.specs.shell_words.ScriptGrammar.{ReadsScript};
ghost use Rattle.gem_meaning.specs.gem_record.declared.record.Entry.{Entry};
ghost use Rattle.gem_meaning.specs.gem_replies.declared.reply.RunBook.{RunBook};
ghost use Rattle.gem_meaning.specs.declared.event.What.TheVariants.{Placed};
ghost use Rattle.gem_meaning.specs.Events.{Told, standing};
ghost use Rattle.gem_meaning.specs.Legal.{IsLegal, AlwaysServed};
ghost use Rattle.gem_disk.specs.Disk.{Files};
ghost use Rattle.gem_server.specs.Course.{IsHonest};
ghost use Rattle.gem_server.specs.DiskFaults.{FaultsHaveCause, FaultsAreTold, NoFaultAlone};
ghost use Rattle.gem_server.specs.Completeness.{ServingCompletes, LookingCompletes, DemoCompletes};

/// A reply is `disk fault` only where the handed disk failed in the call, and then the status is
/// DiskFault. Where that is the status of a run, such a reply stands in the book.
pub fn disk_faults_are_told()
    ensures cause { FaultsHaveCause }
    ensures told { FaultsAreTold }
    ensures alone { NoFaultAlone }
{}

/// Nothing but a device, or want of memory, keeps a script from its report over a store that holds a
/// sound image with room for the sessions; and where the disk didn't fail no reply says that it did.
pub fn serving_completes()
    ensures { ServingCompletes }
{}

/// Nothing but a device, or want of memory, keeps the line from being written that tells of a store
/// that holds a sound image.
pub fn looking_completes()
    ensures { LookingCompletes }
{}

/// Nothing but the sink, or the status `NoMemory`, keeps the lines from being written that tell of a
/// load.
pub fn demo_completes()
    ensures { DemoCompletes }
{}

/// What is said of crashes since a call's start holds of a disk with nothing pending.
pub fn new_disks_are_honest()
    ensures { (first : Files) → IsHonest (record { first = first; steps = [] }) }
{}

/// Where a new Stone serves the set-up of a load, and no session replies that memory ran out or that
/// the disk failed, the set-up commits once, and nothing else happens: its chunk is no error, there
/// is something to commit, no conflict stands against it, and it fits into the log. It leaves a
/// counter at 0 and an empty bag.
pub fn setup_commits_once()
    ensures once { (t : Told) (book : RunBook) → IsLegal t book → AlwaysServed book
        → ReadsScript setup_text t.opened.script → t.opened.image ≡ kernel_image
        → t.opened.number ≡ 0 → t.opened.stored.log_length ≡ 1
        → (entry : Entry) × (t.events ≡ (1, Placed entry) ∷ []) }
    ensures leaves { (t : Told) (book : RunBook) → IsLegal t book → AlwaysServed book
        → ReadsScript setup_text t.opened.script → t.opened.image ≡ kernel_image
        → t.opened.number ≡ 0 → t.opened.stored.log_length ≡ 1
        → IsLoaded (standing t).image (pos 0) [] }
{}

/// Where a Stone that was opened with what a set-up left serves a load, and no session replies that
/// memory ran out or that the disk failed, the load commits once in each round, and nothing else
/// happens, whichever session comes first. The counter comes to the sum of the load's numbers, and the
/// bag has a name for each round.
pub fn loads_commit_each_round()
    ensures { (t : Told) (book : RunBook) (seed sessions rounds : ℕ)
        → IsLoad seed sessions rounds → IsLegal t book → AlwaysServed book
        → ReadsScript (load_text seed sessions rounds) t.opened.script → IsSetUp t.opened
        → CommitsEachRound seed sessions rounds t }
{}

/// A round writes and makes no object: over what the set-up left, whatever the counter and the bag
/// have come to, its chunk runs, updates the counter and the bag, draws no name, and touches nothing
/// but objects of the kernel. So no conflict stands against it where nobody holds a lock, whatever
/// other rounds were committed since its view.
pub fn rounds_write_nothing()
    ensures runs { (number : ℕ) (image : Image) (value : ℤ) (pairs : List (Value × ℕ))
        (serial first : ℕ) → 1 ≤ number → number ≤ 9 → IsLoaded image value pairs
        → HasRoom number value pairs
        → (command_outcome (run_chunk false (round_text number))
        (begun_at image image DATA_CURATOR serial first) (untouched first)).end ≡ gives ran }
    ensures draws { (number : ℕ) (image : Image) (value : ℤ) (pairs : List (Value × ℕ))
        (serial first : ℕ) → 1 ≤ number → number ≤ 9 → IsLoaded image value pairs
        → HasRoom number value pairs
        → (command_outcome (run_chunk false (round_text number))
        (begun_at image image DATA_CURATOR serial first) (untouched first)).state.world.next
        ≡ first }
    ensures record { (number : ℕ) (image : Image) (value : ℤ) (pairs : List (Value × ℕ))
        (serial first : ℕ) (entry : Entry) → 1 ≤ number → number ≤ 9
        → IsLoaded image value pairs → HasRoom number value pairs
        → IsRoundRecord number (record_of entry (begun_at image image DATA_CURATOR serial first)
        (command_outcome (run_chunk false (round_text number))
        (begun_at image image DATA_CURATOR serial first) (untouched first)).state.world) }
    ensures no_conflict { (number : ℕ) (image place : Image) (value : ℤ)
        (pairs : List (Value × ℕ)) (serial first : ℕ) (entry : Entry) → 1 ≤ number → number ≤ 9
        → IsLoaded image value pairs → HasRoom number value pairs
        → MeetsRound number entry.view place
        → conflicts_of (record { image = place; locks = empty }) (record_of entry
        (begun_at image image DATA_CURATOR serial first)
        (command_outcome (run_chunk false (round_text number))
        (begun_at image image DATA_CURATOR serial first) (untouched first)).state.world) ≡ [] }
{}

/// A tally prints the counter's value and the size of the bag that a load left, at the view of its
/// commits and the set-up's, and nothing happens: where it is served over an image in which the
/// counter and the bag stand so, and no session replies that memory ran out or that the disk failed.
pub fn tally_prints_the_load()
    ensures { (t : Told) (book : RunBook) (counter bag : ℕ) → IsLegal t book → AlwaysServed book
        → ReadsScript tally_text t.opened.script → HoldsLoad counter bag t.opened.image
        → t.opened.number ≡ bag + 1 → counter ≤ 144000 → bag ≤ 16000
        → IsTallied counter bag t book }
{}
