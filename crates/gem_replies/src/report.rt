//! The report of a run, as text.
ghost use Rattle.std.specs.Prelude.{◌≡◌, ◌<◌, ◌++◌, false, [], ◌∷◌, map, flat_map, string_bytes, IfOk, OnOk};
ghost use Rattle.std.specs.Fmt.{digit_glyph};
ghost use Rattle.gem_replies.specs.Escapes.{escape, escaped};
ghost use Rattle.gem_replies.specs.Line.{kind_name, state_name, mode_words, reply_words, reply_ending, conflicts_of};
ghost use Rattle.gem_replies.specs.declared.reply.Line as Line;
ghost use Rattle.gem_object.specs.texts.Lines.{text_of_lines};
ghost use Rattle.gem_replies.specs.Report.{shown_name, mode_note, conflict_text, reply_lines, transcript_lines, entry_text, history_lines, commit_lines, report_of};

use crate::reply::{Line, Reply, RunBook, Transcript};
use gem_object::{Conflict, ConflictKind, Oid};
use gem_record::{Entry, Mode};
use lock_table::LockKind;
use std::alloc::{AllocError, Global};

/// The report of a run: the transcripts in order, each a line with the session's number and its
/// user and then a line for each reply; then the number of commits and a line for each of them. Err
/// is want of memory.
pub fn report_text(alloc: Global, book: &RunBook) -> Result<Vec<u8>, AllocError>
    ensures { IfOk result (λ text. text.items ≡ report_of book.now) }
{
    let mut report = Vec::new(alloc);
    push_transcripts(alloc, &mut report, book.transcripts.as_slice())?;
    push_commits(alloc, &mut report, book.first, book.history.as_slice())?;
    Ok(report)
}

fn push_transcripts(
    alloc: Global,
    report: &mut Vec<u8>,
    transcripts: &[Transcript],
) -> Result<(), AllocError>
    ensures { OnOk result (report.new.items
        ≡ report.old.items ++ text_of_lines (flat_map transcript_lines transcripts.now)) }
{
    for transcript in transcripts {
        push_transcript(alloc, report, transcript)?;
    }
    Ok(())
}

fn push_transcript(
    alloc: Global,
    report: &mut Vec<u8>,
    transcript: &Transcript,
) -> Result<(), AllocError>
    ensures { OnOk result (report.new.items
        ≡ report.old.items ++ text_of_lines (transcript_lines transcript.now)) }
{
    let session = transcript.session;
    push_text(report, &format!(in alloc; "session {session} ")?)?;
    report.extend_from_slice(transcript.user.bytes())?;
    push_text(report, "\n")?;
    push_replies(alloc, report, transcript.replies.as_slice())
}

fn push_replies(alloc: Global, report: &mut Vec<u8>, replies: &[Reply]) -> Result<(), AllocError>
    ensures { OnOk result (report.new.items
        ≡ report.old.items ++ text_of_lines (flat_map reply_lines replies.now)) }
{
    for reply in replies {
        push_reply(alloc, report, reply)?;
    }
    Ok(())
}

fn push_reply(alloc: Global, report: &mut Vec<u8>, reply: &Reply) -> Result<(), AllocError>
    ensures { OnOk result (report.new.items
        ≡ report.old.items ++ text_of_lines (reply_lines reply.now)) }
{
    let (number, words) = (reply.command, words(alloc, &reply.line)?);
    push_text(report, &format!(in alloc; "[{number}] {words}")?)?;
    push_escaped(report, ending(&reply.line))?;
    push_text(report, "\n")?;
    push_conflicts(alloc, report, conflicts(&reply.line))
}

// What the reply says up to the text at its end.
fn words(alloc: Global, line: &Line) -> Result<String, AllocError>
    ensures { IfOk result (λ words. string_bytes words ≡ reply_words line.now) }
{
    match line {
        Line::NoUser(view) => format!(in alloc; "no user at view {view}"),
        Line::NotLoggedIn => format!(in alloc; "not logged in"),
        Line::Login(view) => format!(in alloc; "login view {view}"),
        Line::NoMemory => format!(in alloc; "no memory"),
        Line::Parse { at, rule } => format!(in alloc; "parse P{rule} at {at}"),
        Line::Show(_) => format!(in alloc; "show "),
        Line::Error { kind, .. } => format!(in alloc; "error E{kind} "),
        Line::Ran => format!(in alloc; "ok"),
        Line::Printed(_) => Ok(String::new(alloc)),
        Line::Method(_) => format!(in alloc; "method "),
        Line::Spoiled => format!(in alloc; "spoiled"),
        Line::Unchanged { at, view } => {
            format!(in alloc; "committed unchanged at {at} view {view}")
        }
        Line::Refused(conflicts) => format!(in alloc; "refused {}", conflicts.as_slice().len()),
        Line::Committed { number, view } => format!(in alloc; "committed {number} view {view}"),
        Line::Aborted(view) => format!(in alloc; "aborted view {view}"),
        Line::Logout => format!(in alloc; "logout"),
        Line::NoName(_) => format!(in alloc; "no name "),
        Line::NotObject(_) => format!(in alloc; "not an object "),
        Line::NotCommitted(oid) => format!(in alloc; "not committed {oid}"),
        Line::NoRight(oid) => format!(in alloc; "no right {oid}"),
        Line::Denied {
            kind,
            oid,
            holder,
            held,
        } => denied_words(alloc, *kind, *oid, *holder, *held),
        Line::Locked { kind, oid, clean } => locked_words(alloc, *kind, *oid, *clean),
        Line::NotHeld(oid) => format!(in alloc; "not held {oid}"),
        Line::Unlocked(oid) => format!(in alloc; "unlocked {oid}"),
        Line::LogFull { length, size } => format!(in alloc; "log full at {length} by {size}"),
        Line::DiskFault => format!(in alloc; "disk fault"),
        Line::Halted(number) => format!(in alloc; "halted at {number}"),
        Line::Checkpoint(number) => format!(in alloc; "checkpoint {number}"),
        Line::ExtentFull(pages) => format!(in alloc; "extent full at {pages}"),
        Line::Mode { full } => mode_words(alloc, *full),
    }
}

fn denied_words(
    alloc: Global,
    kind: LockKind,
    oid: Oid,
    holder: u32,
    held: LockKind,
) -> Result<String, AllocError>
    ensures { IfOk result (λ words.
        string_bytes words ≡ reply_words (Line.Denied kind oid holder held)) }
{
    let (kind, held) = (kind_name(kind), kind_name(held));
    format!(in alloc; "denied {kind} {oid} by session {holder} {held}")
}

fn locked_words(alloc: Global, kind: LockKind, oid: Oid, clean: bool) -> Result<String, AllocError>
    ensures { IfOk result (λ words. string_bytes words ≡ reply_words (Line.Locked kind oid clean)) }
{
    let (kind, state) = (kind_name(kind), state_name(clean));
    format!(in alloc; "locked {kind} {oid} {state}")
}

fn mode_words(alloc: Global, full: bool) -> Result<String, AllocError>
    ensures { IfOk result (λ words. string_bytes words ≡ mode_words full) }
{
    if full {
        format!(in alloc; "mode full_checks")
    } else {
        format!(in alloc; "mode no_rw_checks")
    }
}

// How a lock's kind is named.
fn kind_name(kind: LockKind) -> &'static str
    ensures { result.now ≡ kind_name kind }
{
    match kind {
        LockKind::Read => "read",
        LockKind::Write => "write",
    }
}

// How a locked object is, by whether it is clean.
fn state_name(clean: bool) -> &'static str
    ensures { result.now ≡ state_name clean }
{
    if clean { "clean" } else { "dirty" }
}

// The text at the reply's end, if it has one: from the image, or a name that the script gave.
fn ending(line: &Line) -> &[u8]
    ensures { result.now ≡ reply_ending line.now }
{
    match line {
        Line::Show(text) | Line::Printed(text) => text.bytes(),
        Line::Error { detail, .. } => detail.bytes(),
        Line::Method(selector) => selector.bytes(),
        Line::NoName(name) | Line::NotObject(name) => name.bytes(),
        _ => &[],
    }
}

// The conflicts that the reply names.
fn conflicts(line: &Line) -> &[Conflict]
    ensures { result.now ≡ conflicts_of line.now }
{
    match line {
        Line::Refused(conflicts) => conflicts.as_slice(),
        _ => &[],
    }
}

fn push_conflicts(
    alloc: Global,
    report: &mut Vec<u8>,
    conflicts: &[Conflict],
) -> Result<(), AllocError>
    ensures { OnOk result (report.new.items
        ≡ report.old.items ++ text_of_lines (map conflict_text conflicts.now)) }
{
    for conflict in conflicts {
        push_conflict(alloc, report, conflict)?;
    }
    Ok(())
}

fn push_conflict(alloc: Global, report: &mut Vec<u8>, conflict: &Conflict) -> Result<(), AllocError>
    ensures { OnOk result (report.new.items
        ≡ report.old.items ++ text_of_lines (conflict_text conflict.now ∷ [])) }
{
    let Conflict { oid, kind, shown } = *conflict;
    let (number, name) = (kind.number(), name_of_shown(kind));
    push_text(
        report,
        &format!(in alloc; "C{number} object {oid} {name} {shown}\n")?,
    )
}

// What the number is that is shown with a conflict of this kind.
fn name_of_shown(kind: ConflictKind) -> &'static str
    ensures { result.now ≡ shown_name kind }
{
    match kind {
        ConflictKind::WriteReadLock | ConflictKind::WriteWriteLock => "session",
        _ => "commit",
    }
}

fn push_commits(
    alloc: Global,
    report: &mut Vec<u8>,
    first: u64,
    history: &[Entry],
) -> Result<(), AllocError>
    ensures { OnOk result (report.new.items
        ≡ report.old.items ++ text_of_lines (commit_lines first history.now)) }
{
    let count = history.len();
    push_text(report, &format!(in alloc; "commits {count}\n")?)?;
    for (index, entry) in history.iter().enumerate() {
        // Wider than the numbers of commits, so it can't be too large.
        let number = u128::from(first) + 1 + index as u128;
        push_entry(alloc, report, number, entry)?;
    }
    Ok(())
}

fn push_entry(
    alloc: Global,
    report: &mut Vec<u8>,
    number: u128,
    entry: &Entry,
) -> Result<(), AllocError>
    ensures { OnOk result (report.new.items
        ≡ report.old.items ++ text_of_lines (entry_text number entry.now ∷ [])) }
{
    let Entry {
        session,
        transaction,
        view,
        mode,
        ..
    } = *entry;
    let note = mode_note(mode);
    let line = format!(in alloc;
        "{number} session {session} transaction {transaction} view {view}{note}\n"
    )?;
    push_text(report, &line)
}

// What is noted of a commit in this mode.
fn mode_note(mode: Mode) -> &'static str
    ensures { result.now ≡ mode_note mode }
{
    match mode {
        Mode::Full => "",
        Mode::NoRw => " no_rw_checks",
    }
}

fn push_text(report: &mut Vec<u8>, text: &str) -> Result<(), AllocError>
    ensures { OnOk result (report.new.items ≡ report.old.items ++ text.now) }
{
    report.extend_from_slice(text.as_bytes())
}

fn push_escaped(report: &mut Vec<u8>, text: &[u8]) -> Result<(), AllocError>
    ensures { OnOk result (report.new.items ≡ report.old.items ++ escaped text.now) }
{
    for byte in text {
        push_escape(report, *byte)?;
    }
    Ok(())
}

fn push_escape(report: &mut Vec<u8>, byte: u8) -> Result<(), AllocError>
    ensures { OnOk result (report.new.items ≡ report.old.items ++ escape byte) }
{
    match byte {
        b'\n' => report.extend_from_slice(b"\\n"),
        b'\\' => report.extend_from_slice(b"\\\\"),
        0..32 | 127 => {
            let (high, low) = (hexadecimal_digit(byte / 16), hexadecimal_digit(byte % 16));
            report.extend_from_slice(&[b'\\', b'x', high, low])
        }
        _ => report.extend_from_slice(&[byte]),
    }
}

// The digit of a number below 16, in lower case.
fn hexadecimal_digit(value: u8) -> u8
    requires { value < 16 }
    ensures { result ≡ digit_glyph false value }
{
    if value < 10 {
        b'0' + value
    } else {
        b'a' + (value - 10)
    }
}
