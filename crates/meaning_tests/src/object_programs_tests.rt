// The replies to chunks that an error ended.
ghost use Rattle.std.specs.Prelude.{◌≡◌, IfOk};
ghost use Rattle.object_programs.specs.Fault.{fault_number, fault_text};
ghost use Rattle.gem_replies.specs.declared.reply.Line as Line;

use gem_object::{Oid, Text};
use gem_replies::{History, Line, Replies, Reply, RunBook, Transcript, Transcripts, report_text};
use object_programs::Fault;
use std::alloc::{AllocError, Global};
use std::test::Fail;

// The reply to a chunk that this error ended.
fn error_line(alloc: Global, fault: &Fault) -> Result<Line, AllocError>
    ensures { IfOk result (λ line.
        line ≡ Line.Error (fault_number fault.now) (fault_text fault.now)) }
{
    let detail = Text::of(format!(in alloc; "{fault}")?.into_bytes());
    Ok(Line::Error {
        kind: fault.number(),
        detail,
    })
}

// Whether the error is reported so.
fn is_reported(alloc: Global, fault: &Fault, shown: &str) -> Result<bool, AllocError> {
    let line = error_line(alloc, fault)?;
    let transcript = Transcript {
        session: 1,
        user: Text::copy_of(alloc, b"A")?,
        replies: Replies::of(vec![in alloc; Reply { command: 1, line }]?),
    };
    let book = RunBook {
        first: 0,
        base: 1,
        transcripts: Transcripts::of(vec![in alloc; transcript]?),
        history: History::of(Vec::new(alloc)),
    };
    let wanted = format!(in alloc; "session 1 A\n[1] error {shown}\ncommits 0\n")?;
    Ok(report_text(alloc, &book)?.as_slice() == wanted.as_bytes())
}

// An error, and what is reported of it after `error `.
#[derive(Drop)]
struct Row {
    fault: Fault,
    shown: &'static str,
}

fn shows(fault: Fault, shown: &'static str) -> Row {
    Row { fault, shown }
}

// What the rows want that are reported otherwise.
fn wrong_rows(alloc: Global, rows: Vec<Row>) -> Result<String, AllocError> {
    let mut wrong = String::new(alloc);
    for row in rows {
        if !is_reported(alloc, &row.fault, row.shown)? {
            wrong.push_str(row.shown)?;
            wrong.push_str(";")?;
        }
    }
    Ok(wrong)
}

fn with_more(alloc: Global) -> Result<Vec<Row>, AllocError> {
    let unknown = Fault::NotUnderstood(Text::copy_of(alloc, b"at:put:")?);
    let undefined = Fault::UndefinedVariable(Text::copy_of(alloc, b"T")?);
    let raised = Fault::Raised(Text::copy_of(alloc, b"a\\b\nc")?);
    Ok(vec![in alloc;
        shows(unknown, "E1 not understood: at:put:"),
        shows(undefined, "E2 undefined variable: T"),
        shows(
            Fault::NoReadRight(Oid::from_parts(1, 1)),
            "E10 no read right: 1:1"
        ),
        shows(
            Fault::NoWriteRight(Oid::from_parts(0, 30)),
            "E11 no write right: 0:30"
        ),
        shows(raised, "E20 error: a\\\\b\\nc"),
    ]?)
}

fn of_values(alloc: Global) -> Result<Vec<Row>, AllocError> {
    Ok(vec![in alloc;
        shows(Fault::NotBoolean, "E3 not a Boolean"),
        shows(Fault::Index, "E4 index"),
        shows(Fault::ArgumentKind, "E5 argument kind"),
        shows(Fault::IntegerRange, "E6 integer range"),
        shows(Fault::ZeroDivisor, "E7 zero divisor"),
        shows(Fault::DeadHome, "E8 dead home"),
        shows(Fault::BlockArgumentCount, "E9 block argument count"),
        shows(Fault::BlockStored, "E12 block stored"),
    ]?)
}

fn of_limits(alloc: Global) -> Result<Vec<Row>, AllocError> {
    Ok(vec![in alloc;
        shows(Fault::SendBudget, "E13 send budget"),
        shows(Fault::Depth, "E14 depth"),
        shows(Fault::Space, "E15 space"),
        shows(Fault::NamesUsedUp, "E16 names used up"),
        shows(Fault::ObjectTooLarge, "E17 object too large"),
        shows(Fault::KeyAbsent, "E18 key absent"),
        shows(Fault::SegmentChange, "E19 segment change refused"),
    ]?)
}

#[test]
fn errors_in_replies(rt: HostRuntime) -> Result<(), Fail> {
    let alloc = rt.alloc();
    assert_eq!(rt; wrong_rows(alloc, with_more(alloc)?)?.as_str(), "");
    assert_eq!(rt; wrong_rows(alloc, of_values(alloc)?)?.as_str(), "");
    assert_eq!(rt; wrong_rows(alloc, of_limits(alloc)?)?.as_str(), "");
    Ok(())
}
