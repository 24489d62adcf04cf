//! What follows from the definitions alone. Each law is the contract of a function that does
//! nothing.
ghost use Rattle.std.specs.Prelude.{◌≡◌, ℕ, List, true, not, is_some};
ghost use Rattle.gem_world.specs.World.{Setting, untouched, shown, before_changes, is_made};
ghost use Rattle.gem_meaning.specs.gem_language.Commands.{Command};
ghost use Rattle.gem_meaning.specs.gem_language.Transaction.{transaction};
ghost use Rattle.running_objects.specs.object_programs.Laws.{AreSound};
ghost use Rattle.shell_words.specs.Script.{SessionCommands};
ghost use Rattle.gem_replies.specs.declared.reply.Transcript.{Transcript};
ghost use Rattle.gem_meaning.specs.Events.{Told};
ghost use Rattle.gem_meaning.specs.Legal.{IsTranscript};
ghost use Rattle.gem_session.specs.Running.{IsTranscriptSince};

/// Of the objects that a transaction sees, those that weren't there before it are those that it
/// made: so `not committed` is replied to a lock exactly where the object was made in the
/// transaction.
pub fn uncommitted_is_made()
    ensures { (commands : List Command) (setting : Setting) (name : ℕ)
        → AreSound setting (untouched setting.first)
        → let world = (transaction commands setting (untouched setting.first)).world in
        is_some (shown name setting world) ≡ true
        → is_made name setting world ≡ not (is_some (before_changes name setting)) }
{}

/// The transcript of a session that began when some events had come is one whatever had come.
pub fn since_any_event()
    ensures { (t : Told) (session seen : ℕ) (script : SessionCommands) (transcript : Transcript) →
        IsTranscriptSince t session seen script transcript →
        IsTranscript t session script transcript }
{}
