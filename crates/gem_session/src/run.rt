//! A session from its login to its logout.
ghost use Rattle.std.specs.Prelude.{◌≡◌, ℕ, ◌+◌, ◌-◌, ◌≤◌, [], ◌∷◌, ◌++◌, true, Some, IfOk, OnErr, length, take};
ghost use Rattle.std.specs.List.{prefix_len, slice_get};
ghost use Rattle.shell_words.specs.declared.script.Command.TheVariants.{Logout};
ghost use Rattle.gem_replies.specs.declared.reply.Line.TheVariants.{NoUser};
ghost use Rattle.gem_meaning.specs.Opened.{session_serial};
ghost use Rattle.gem_meaning.specs.Events.{standing, events_of};
ghost use Rattle.gem_meaning.specs.Serial.{CanServe, IsConsistent};
ghost use Rattle.gem_meaning.specs.Session.{until_logout, reply_with, not_logged_in, Says};
ghost use Rattle.stone_core.specs.Port.{GoesOn};
ghost use Rattle.gem_session.specs.Running.{goes_on, HoldsNone, Arrives, HasLoggedIn, IsTranscriptSince, WasCutShort, IsToBeCutShort};

use crate::names::user_in;
use crate::session::Session;
use gem_io::Gate;
use gem_replies::{Line, Replies, Reply, Transcript};
use shell_words::{Command, SessionScript};
use std::alloc::{AllocError, Global};
use std::sync::Wait;
use stone_core::StonePort;

/// Runs the session with this number to its end: a login, its commands up to the first logout, and
/// a logout, also where the script has none. The transcript has its replies. Where the image has no
/// such user, each command is refused.
///
/// The Stone was opened with what can be served, the session has no event yet, and the script is
/// the one that the port has for it. `serial` is that of the objects that the session makes. In any
/// case the session holds no lock afterwards.
///
/// The gate is passed before the login, before each command and before the logout, and told behind
/// that that the session has left; where memory ran out, without being passed once more. It may hold
/// the session, which holds no lock of the Stone's own then. No clause speaks of the gate.
///
/// Chunks take a stack of their own depth: who calls this provides a thread with stack for 2,000
/// activations. An activation took some 2.5 KB, whatever is nested in it; the server reserves 256 MB.
/// Nothing is proved of it.
///
/// # Errors
///
/// `AllocError` where memory ran out for the look-up of the user, of the name that a lock or an
/// unlock gives, or for the replies, or where a transaction could not be begun. What the session
/// has committed by then stays, and its locks are given back: its events are those of a session that
/// does so many of the commands, from the first on, and then logs out.
pub fn run_session<R: Wait, P: StonePort, G: Gate>(
    rt: &R,
    alloc: Global,
    port: &mut P,
    gate: &G,
    session: u32,
    serial: u32,
    script: &SessionScript,
) -> Result<Transcript, AllocError>
    requires arrives { Arrives (P.state port.old) session serial script.now }
    ensures says { IfOk result (λ transcript. IsTranscriptSince (P.state port.new).told session
        (length (P.state port.old).told.events) script.now transcript) }
    ensures cut_short { OnErr result (WasCutShort (P.state port.new).told session
        (length (P.state port.old).told.events) script.now) }
    ensures unlocked { HoldsNone (P.state port.new).told session }
    ensures port { GoesOn session (P.state port.old) (P.state port.new) }
{
    let Ok(replies) = all_replies(rt, alloc, port, gate, session, serial, script) else {
        port.logout(session);
        gate.left(rt, session);
        return Err(AllocError);
    };
    gate.left(rt, session);
    Ok(Transcript {
        session,
        user: script.user().clone()?,
        replies: Replies::of(replies),
    })
}

// All that the session replies.
fn all_replies<R: Wait, P: StonePort, G: Gate>(
    rt: &R,
    alloc: Global,
    port: &mut P,
    gate: &G,
    session: u32,
    serial: u32,
    script: &SessionScript,
) -> Result<Vec<Reply>, AllocError>
    requires arrives { Arrives (P.state port.old) session serial script.now }
    ensures says { IfOk result (λ replies. Says (P.state port.new).told session
        (length (P.state port.old).told.events) script.now replies.items) }
    ensures cut_short { OnErr result (IsToBeCutShort (P.state port.new).told session
        (length (P.state port.old).told.events) script.now) }
    ensures unlocked { IfOk result (λ replies. HoldsNone (P.state port.new).told session) }
    ensures port { GoesOn session (P.state port.old) (P.state port.new) }
{
    gate.pass(rt, session, 0);
    let begun = port.begin(session)?;
    match user_in(&begun.image, script.user())? {
        Some(user) => {
            let running = Session::login(alloc, session, serial, user, begun)?;
            let replies = serve(rt, alloc, port, gate, running, script)?;
            Ok(replies)
        }
        None => {
            let replies = refuse(rt, alloc, gate, session, begun.number, script)?;
            Ok(replies)
        }
    }
}

// The replies of a session that has logged in.
fn serve<R: Wait, P: StonePort, G: Gate>(
    rt: &R,
    alloc: Global,
    port: &mut P,
    gate: &G,
    running: Session,
    script: &SessionScript,
) -> Result<Vec<Reply>, AllocError>
    requires serves { (P.state port.old).serves running.session ≡ true }
    requires opened { CanServe (P.state port.old).told.opened }
    requires consistent { IsConsistent (P.state port.old).told }
    requires logged_in { HasLoggedIn (P.state port.old).told script.now running }
    ensures says { IfOk result (λ replies. Says (P.state port.new).told running.session
        (length (P.state port.old).told.events) script.now replies.items) }
    ensures cut_short { OnErr result (IsToBeCutShort (P.state port.new).told running.session
        (length (P.state port.old).told.events) script.now) }
    ensures unlocked { IfOk result
        (λ replies. HoldsNone (P.state port.new).told running.session) }
    ensures port { GoesOn running.session (P.state port.old) (P.state port.new) }
{
    let mut running = running;
    let mut replies = Vec::new(alloc);
    replies.push(Reply {
        command: 0,
        line: Line::Login(running.number),
    })?;
    let mut number = 0;
    for command in before_logout(script.commands()) {
        number += 1;
        gate.pass(rt, running.session, number);
        let answer = running.reply(alloc, port, number, command)?;
        answer.push(&mut replies, number)?;
    }
    gate.pass(rt, running.session, number + 1);
    port.logout(running.session);
    replies.push(Reply {
        command: number + 1,
        line: Line::Logout,
    })?;
    Ok(replies)
}

// The replies of a session whose user isn't there: to the login, and to each command.
fn refuse<R: Wait, G: Gate>(
    rt: &R,
    alloc: Global,
    gate: &G,
    session: u32,
    view: u64,
    script: &SessionScript,
) -> Result<Vec<Reply>, AllocError>
    ensures { IfOk result (λ replies. replies.items
        ≡ reply_with 0 (NoUser view)
        ∷ not_logged_in 1 (length (until_logout script.now.commands))) }
{
    let count = before_logout(script.commands()).len() as u32 + 1;
    let mut replies = Vec::new(alloc);
    replies.push(Reply {
        command: 0,
        line: Line::NoUser(view),
    })?;
    for index in 0..count {
        gate.pass(rt, session, index + 1);
        replies.push(Reply {
            command: index + 1,
            line: Line::NotLoggedIn,
        })?;
    }
    Ok(replies)
}

// The commands before the first logout.
fn before_logout(commands: &[Command]) -> &[Command]
    ensures prefix { result.now ≡ take (prefix_len goes_on commands.now) commands.now }
    ensures shorter { length result.now ≤ length commands.now }
    ensures until { until_logout commands.now ≡ result.now ++ Logout ∷ [] }
{
    &commands[..count_before_logout(commands)]
}

fn count_before_logout(commands: &[Command]) -> usize
    ensures { result ≡ prefix_len goes_on commands.now }
{
    commands
        .iter()
        .take_while(|command| goes_on(command))
        .count()
}

// Whether the session goes on after the command.
fn goes_on(command: &Command) -> bool
    ensures { result ≡ goes_on command.now }
{
    !matches!(command, Command::Logout)
}
