//! What follows from the definitions alone. Each law is the contract of a function that does
//! nothing.
ghost use Rattle.std.specs.Prelude.{◌≡◌, ◌↔◌, ◌≤◌, ◌<◌, ◌-◌, ℕ, true, Some, List, [], ◌∷◌, ◌++◌, map};
ghost use Rattle.std.specs.List.{slice_get, AllByRecursion};
ghost use Rattle.std.specs.Option.{option_map};
ghost use Rattle.gem_meaning.specs.shell_words.Script.{SessionCommands};
ghost use Rattle.gem_meaning.specs.shell_words.declared.script.Command.{Command};
ghost use Rattle.gem_meaning.specs.gem_record.declared.record.Entry.{Entry};
ghost use Rattle.gem_meaning.specs.gem_replies.declared.reply.Reply.{Reply};
ghost use Rattle.gem_meaning.specs.gem_replies.declared.reply.Transcript.{Transcript};
ghost use Rattle.gem_meaning.specs.declared.event.What.{What};
ghost use Rattle.gem_meaning.specs.Commands.{is_run};
ghost use Rattle.gem_meaning.specs.Lines.{said_lines};
ghost use Rattle.gem_meaning.specs.Opened.{commands_of};
ghost use Rattle.gem_meaning.specs.Events.{Event, Told, told_more, run_at_place, after_events, entry_in, events_of, IsRunning};
ghost use Rattle.gem_meaning.specs.Session.{Says};
ghost use Rattle.gem_meaning.specs.gem_replies.declared.reply.RunBook.{RunBook};
ghost use Rattle.gem_meaning.specs.Legal.{IsLegal, WasServed};
ghost use Rattle.gem_meaning.specs.Claims.{claimed_by, claims_of, lines_of};
ghost use Rattle.session_laws.specs.Faults.{TellsFault, HasFault, HasFailedIn};
ghost use Rattle.session_laws.specs.Places.{runs_before};
ghost use Rattle.session_laws.specs.Points.{points_of, FailsBetweenNone};

/// What a session says by some events it says by them with later events of other sessions, too.
pub fn says_stay()
    ensures { (t : Told) (more : List Event) (session seen : ℕ) (script : SessionCommands)
        (replies : List Reply) →
        events_of session more ≡ [] → Says t session seen script replies →
        Says (told_more t more) session seen script replies }
{}

/// The events of a session are those that its replies claim, in their order: each is that of
/// exactly one reply.
pub fn claimed_once()
    ensures { (t : Told) (session seen : ℕ) (script : SessionCommands) (replies : List Reply) →
        Says t session seen script replies →
        map claimed_by (events_of session t.events) ≡ claims_of replies }
{}

/// What a transcript replies to a chunk or a method of a placed transaction is what that command
/// says when the transaction is run at its place. The same holds of the transaction at whose commit
/// the disk failed, as if it had been placed there.
pub fn printed_at_place()
    ensures { (t : Told) (book : RunBook) (before more : List Event) (session : ℕ) (what : What)
        (e : Entry) (transcript : Transcript) (n : ℕ) (c : Command) → IsLegal t book →
        t.events ≡ before ++ (session, what) ∷ more → entry_in what ≡ Some e →
        slice_get book.transcripts (session - 1) ≡ Some transcript →
        e.first_command ≤ n → n < e.last_command →
        slice_get (commands_of t.opened.script session) (n - 1) ≡ Some c → is_run c ≡ true →
        let at_place = run_at_place t.opened (after_events t.opened before) e in
        option_map said_lines (slice_get at_place.said (runs_before t.opened.script e n))
        ≡ Some (lines_of n transcript.replies) }
{}

/// In a legal run each event is of a session that has a transcript, and a session's events are
/// those that the replies of its transcript claim, in their order: each is that of exactly one
/// reply.
pub fn claimed_by_one()
    ensures claimed { (t : Told) (book : RunBook) (session : ℕ) (transcript : Transcript) →
        IsLegal t book → slice_get book.transcripts (session - 1) ≡ Some transcript →
        1 ≤ session →
        map claimed_by (events_of session t.events) ≡ claims_of transcript.replies }
    ensures there { (t : Told) (book : RunBook) (before more : List Event) (session : ℕ)
        (what : What) → IsLegal t book → t.events ≡ before ++ (session, what) ∷ more →
        (1 ≤ session) × (transcript : Transcript)
        × (slice_get book.transcripts (session - 1) ≡ Some transcript)
        × (transcript.session ≡ session) }
{}

/// In a legal run a transcript has a reply `disk fault` exactly where an event of its session tells
/// that the disk failed. So no reply is `disk fault` where the disk hasn't failed, and one is where
/// it has.
pub fn faults_are_told()
    ensures own { (t : Told) (book : RunBook) (session : ℕ) (transcript : Transcript) →
        IsLegal t book → slice_get book.transcripts (session - 1) ≡ Some transcript →
        1 ≤ session → TellsFault transcript ↔ HasFailedIn t.events session }
    ensures running { (t : Told) (book : RunBook) → IsLegal t book → IsRunning t.events →
        HasFault book → ⊥ }
    ensures halted { (t : Told) (book : RunBook) → IsLegal t book → (IsRunning t.events → ⊥) →
        HasFault book }
{}

/// What a session replies follows from all events and from how many of them it had seen when it
/// gave each reply, where memory didn't run out, and the disk failed within none of its commands.
/// Where the disk failed within a commit that has nothing to commit, both `unchanged` and `halted`
/// may be the reply.
pub fn one_transcript()
    ensures { (t : Told) (session seen seen' : ℕ) (script : SessionCommands)
        (rs rs' : List Reply) (says : Says t session seen script rs)
        (says' : Says t session seen' script rs') →
        points_of says ≡ points_of says' → FailsBetweenNone t (points_of says) →
        AllByRecursion WasServed rs → AllByRecursion WasServed rs' → rs ≡ rs' }
{}
