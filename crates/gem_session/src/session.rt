//! A running session: what it carries from command to command, and its answer to each.
ghost use Rattle.std.specs.Prelude.{◌≡◌, ◌+◌, ◌∷◌, [], true, false, IfOk, OnOk, OnErr};
ghost use Rattle.shell_words.specs.declared.script.Command.TheVariants.{Abort};
ghost use Rattle.gem_image.specs.Image.{objects_in};
ghost use Rattle.gem_sound.specs.Sound.{IsSoundFor};
ghost use Rattle.plain_state.specs.State.{begun};
ghost use Rattle.gem_record.specs.declared.mode.Mode.TheVariants.{Full};
ghost use Rattle.gem_meaning.specs.Commands.{is_run, mode_of};
ghost use Rattle.gem_meaning.specs.Events.{OthersCame};
ghost use Rattle.gem_meaning.specs.State.{next_transaction};
ghost use Rattle.stone_core.specs.Port.{GoesOn};
ghost use Rattle.running_objects.specs.Seen.{IsSoundState};
ghost use Rattle.gem_session.specs.Answer.{lines_of};
ghost use Rattle.gem_session.specs.Running.{goes_on, session_state, ComesTo, HasEnded, Begins, Ran, RepliedBy, FallsShortBy};

use crate::answer::Answer;
use crate::known_view::KnownView;
use crate::running::run_command;
use gem_image::Image;
use gem_object::Oid;
use gem_record::Mode;
use gem_replies::Line;
use history_laws::laws::images_are_sound;
use plain_state::laws::begins_on_sound_images;
use session_view::View;
use shell_words::Command;
use st_machine::CodeCache;
use std::alloc::{AllocError, Global};
use stone_core::{Begun, StonePort};

/// A session with its current transaction.
#[derive(Drop)]
pub(crate) struct Session {
    /// The session's number, from 1.
    pub session: u32,
    /// The serial in the names that it draws.
    pub serial: u32,
    /// The number of commits in the image that the transaction runs on.
    pub number: u64,
    /// What its commits are checked for.
    pub mode: Mode,
    /// The transaction's number within the session, from 1.
    pub transaction: u32,
    /// The number of the transaction's first command.
    pub first_command: u32,
    /// Whether one of the transaction's commands found no memory.
    pub spoiled: bool,
    /// The image that the transaction runs on.
    pub image: Image,
    /// What the transaction works on.
    pub view: KnownView,
    /// The code of the methods that were asked for last.
    pub cache: CodeCache,
}

impl Session {
    /// The session of this user with its first transaction.
    ///
    /// # Errors
    ///
    /// `AllocError` where memory ran out.
    pub(crate) fn login(
        alloc: Global,
        session: u32,
        serial: u32,
        user: Oid,
        standing: Begun,
    ) -> Result<Session, AllocError>
        requires { IsSoundFor (objects_in standing.image) user serial 1 }
        ensures fields { IfOk result (λ s. s ≡ record {
          session = session;
          serial = serial;
          number = standing.number;
          mode = Full;
          transaction = 1;
          first_command = 1;
          spoiled = false;
          image = standing.image;
          view = s.view;
          cache = s.cache;
        }) }
        ensures seen { IfOk result
            (λ s. s.view.state.seen ≡ begun standing.image standing.image user serial 1) }
        ensures sound { IfOk result (λ s. IsSoundState s.view.state.seen) }
    {
        let number = standing.number;
        let image = standing.image.share()?;
        let view = start_view(alloc, standing, serial, 1, user)?;
        let view = KnownView::of(alloc, view);
        let cache = CodeCache::new(alloc)?;
        Ok(Session {
            session,
            serial,
            number,
            mode: Mode::Full,
            transaction: 1,
            first_command: 1,
            spoiled: false,
            image,
            view,
            cache,
        })
    }

    /// Does the command with this number, which is no logout, and answers it.
    ///
    /// # Errors
    ///
    /// `AllocError` where memory ran out for the answer, or no transaction could be begun for want
    /// of it. Then nothing was done, or the command was, and the answer alone is lost.
    pub(crate) fn reply<P: StonePort>(
        &mut self,
        alloc: Global,
        port: &mut P,
        number: u32,
        command: &Command,
    ) -> Result<Answer, AllocError>
        requires comes { ComesTo (P.state port.old) number self.old command.now }
        requires goes_on { goes_on command.now ≡ true }
        ensures replied { IfOk result (λ answer. RepliedBy (P.state port.old) (P.state port.new)
            number self.old command.now (lines_of answer) self.new) }
        ensures fell_short { OnErr result (FallsShortBy (P.state port.old) (P.state port.new) number
            self.old command.now) }
        ensures port { GoesOn self.old.session (P.state port.old) (P.state port.new) }
    {
        if is_run(command) {
            return Ok(self.run(alloc, command));
        }
        let line = self.reply_line(alloc, port, number, command)?;
        Ok(Answer::of(line))
    }

    // Does a command that has one line, and gives it.
    fn reply_line<P: StonePort>(
        &mut self,
        alloc: Global,
        port: &mut P,
        number: u32,
        command: &Command,
    ) -> Result<Line, AllocError>
        requires comes { ComesTo (P.state port.old) number self.old command.now }
        requires goes_on { goes_on command.now ≡ true }
        requires line { is_run command.now ≡ false }
        ensures replied { IfOk result (λ line. RepliedBy (P.state port.old) (P.state port.new)
            number self.old command.now (line ∷ []) self.new) }
        ensures fell_short { OnErr result (FallsShortBy (P.state port.old) (P.state port.new) number
            self.old command.now) }
        ensures port { GoesOn self.old.session (P.state port.old) (P.state port.new) }
    {
        match command {
            Command::Commit => self.commit(alloc, port, number),
            Command::Abort => self.abort(alloc, port, number),
            Command::Lock { write, name } => self.lock(port, number, *write, name),
            Command::Unlock { name } => self.unlock(port, number, name),
            Command::Checkpoint => Ok(self.checkpoint(alloc, port, number)),
            Command::Mode { full } => {
                self.mode = mode_of(*full);
                Ok(Line::Mode { full: *full })
            }
            _ => unreachable!(),
        }
    }

    // Runs a chunk or a method. Without memory it spoils the transaction.
    fn run(&mut self, alloc: Global, command: &Command) -> Answer
        requires runs { is_run command.now ≡ true }
        ensures { Ran command.now self.old result self.new }
    {
        match run_command(alloc, &mut self.view, &mut self.cache, command) {
            Ok(answer) => answer,
            Err(AllocError) => {
                self.spoiled = true;
                Answer::of(Line::NoMemory)
            }
        }
    }

    fn abort<P: StonePort>(
        &mut self,
        alloc: Global,
        port: &mut P,
        number: u32,
    ) -> Result<Line, AllocError>
        requires comes { ComesTo (P.state port.old) number self.old Abort }
        ensures replied { IfOk result (λ line. RepliedBy (P.state port.old) (P.state port.new)
            number self.old Abort (line ∷ []) self.new) }
        ensures starved { OnErr result (OthersCame self.old.session
            (P.state port.old).told.events (P.state port.new).told.events) }
        ensures port { GoesOn self.old.session (P.state port.old) (P.state port.new) }
    {
        self.begin_next(alloc, port, number)?;
        Ok(Line::Aborted(self.number))
    }

    /// Begins the transaction after the command with this number, which ended one. Its names come
    /// after those that the session has drawn.
    ///
    /// # Errors
    ///
    /// `AllocError` where memory ran out. The session has no event then either.
    pub(crate) fn begin_next<P: StonePort>(
        &mut self,
        alloc: Global,
        port: &mut P,
        number: u32,
    ) -> Result<(), AllocError>
        requires ended { HasEnded (P.state port.old) number self.old }
        ensures begins { OnOk result
            (Begins (P.state port.old).told.opened (P.state port.old).told.events
            (P.state port.new).told.events
            (λ view. next_transaction (session_state self.old) view number) self.new) }
        ensures starved { OnErr result (OthersCame self.old.session
            (P.state port.old).told.events (P.state port.new).told.events) }
        ensures port { GoesOn self.old.session (P.state port.old) (P.state port.new) }
    {
        images_are_sound();
        let begun = port.begin(self.session)?;
        let view = begun.number;
        let image = begun.image.share()?;
        let next = self.view.next_counter();
        let user = self.view.user();
        let started = start_view(alloc, begun, self.serial, next, user)?;
        self.view.go_on(started);
        self.image = image;
        self.number = view;
        self.transaction += 1;
        self.first_command = number + 1;
        self.spoiled = false;
        Ok(())
    }
}

// A view over the image that stands, for this user, whose next name has this counter.
fn start_view(
    alloc: Global,
    standing: Begun,
    serial: u32,
    next: u32,
    user: Oid,
) -> Result<View, AllocError>
    requires { IsSoundFor (objects_in standing.image) user serial next }
    ensures seen { IfOk result
        (λ view. view.state.seen ≡ begun standing.image standing.image user serial next) }
    ensures sound { IfOk result (λ view. IsSoundState view.state.seen) }
{
    begins_on_sound_images();
    standing.image.invariant();
    View::start(alloc, standing.image, serial, next, user)
}

// The mode that a line of a script sets.
fn mode_of(full: bool) -> Mode
    ensures { result ≡ mode_of full }
{
    if full { Mode::Full } else { Mode::NoRw }
}

// Whether the command is a chunk or a method.
fn is_run(command: &Command) -> bool
    ensures { result ≡ is_run command.now }
{
    matches!(command, Command::Chunk { .. } | Command::Method { .. })
}
