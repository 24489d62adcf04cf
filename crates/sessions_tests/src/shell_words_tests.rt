use shell_words::{CHUNK_LIMIT, Command, SCRIPT_LIMIT, ScriptFault, SessionScript, read_script};
use std::alloc::{AllocError, Global};
use std::test::Fail;

fn show(out: &mut Vec<u8>, command: &Command) -> Result<(), AllocError> {
    match command {
        Command::Chunk { prints, text } => {
            out.extend_from_slice(if *prints { b"printit(" } else { b"run(" })?;
            out.extend_from_slice(text.bytes())?;
            out.extend_from_slice(b")")
        }
        Command::Method {
            class_side,
            class,
            text,
        } => {
            out.extend_from_slice(if *class_side {
                b"classmethod "
            } else {
                b"method "
            })?;
            out.extend_from_slice(class.bytes())?;
            out.extend_from_slice(b"(")?;
            out.extend_from_slice(text.bytes())?;
            out.extend_from_slice(b")")
        }
        Command::Commit => out.extend_from_slice(b"commit;"),
        Command::Abort => out.extend_from_slice(b"abort;"),
        Command::Logout => out.extend_from_slice(b"logout;"),
        Command::Checkpoint => out.extend_from_slice(b"checkpoint;"),
        Command::Mode { full } => {
            out.extend_from_slice(if *full { b"full;" } else { b"no_rw;" })
        }
        Command::Lock { write, name } => {
            out.extend_from_slice(if *write { b"write " } else { b"read " })?;
            out.extend_from_slice(name.bytes())?;
            out.extend_from_slice(b";")
        }
        Command::Unlock { name } => {
            out.extend_from_slice(b"unlock ")?;
            out.extend_from_slice(name.bytes())?;
            out.extend_from_slice(b";")
        }
    }
}

fn show_session(out: &mut Vec<u8>, session: &SessionScript) -> Result<(), AllocError> {
    out.extend_from_slice(session.user().bytes())?;
    out.push(b'{')?;
    for command in session.commands() {
        show(out, command)?;
    }
    out.push(b'}')?;
    Ok(())
}

// The sessions of a script, each as its user and its commands in braces.
fn shown(alloc: Global, text: &[u8]) -> Result<Vec<u8>, ScriptFault> {
    let script = read_script(alloc, text)?;
    let mut out = Vec::new(alloc);
    for session in script.sessions() {
        show_session(&mut out, session)?;
    }
    Ok(out)
}

// The line and the rule that a text breaks.
fn broken(alloc: Global, text: &[u8]) -> Option<(u32, u8)> {
    match read_script(alloc, text) {
        Err(ScriptFault::Rule { line, rule }) => Some((line, rule.number())),
        _ => None,
    }
}

const SCRIPTS: [(&[u8], &[u8]); 14] = [
    (b"", b""),
    (b"\n\r\n\r", b""),
    (b"session A", b"A{}"),
    (b"session A\r", b"A{}"),
    (b"\nsession A\n\n\r\nsession A\n", b"A{}A{}"),
    (
        b"session a1Z\ncommit\nabort\nlogout\nsession B\nlogout",
        b"a1Z{commit;abort;logout;}B{logout;}",
    ),
    (
        b"session A\nrun\n3\n%\nprintit\r\n4\r\n\r\n%\r\ncommit\r\n",
        b"A{run(3\n)printit(4\n\n)commit;}",
    ),
    (b"session A\nrun\n%\nrun\n\n%", b"A{run()run(\n)}"),
    (
        b"session A\nrun\nsession X\ncommit\n %\n% \n%%\n%\r",
        b"A{run(session X\ncommit\n %\n% \n%%\n)}",
    ),
    (b"session A\nrun\na\rb\r\r\n%", b"A{run(a\rb\r\n)}"),
    (
        b"session A\nmethod: Box\nat\n^1\n%\nclassmethod: _b2\nnew\n%\n",
        b"A{method Box(at\n^1\n)classmethod _b2(new\n)}",
    ),
    (
        b"session A\nlock read X\nlock write y_1\nunlock _\n",
        b"A{read X;write y_1;unlock _;}",
    ),
    (
        b"session A\ncheckpoint\nmode no_rw_checks\r\nmode full_checks\ncheckpoint",
        b"A{checkpoint;no_rw;full;checkpoint;}",
    ),
    (
        b"session DataCurator\nprintit\n3 + 4 * 2\n%\n",
        b"DataCurator{printit(3 + 4 * 2\n)}",
    ),
];

fn reads(alloc: Global, text: &[u8], script: &[u8]) -> Result<bool, ScriptFault> {
    Ok(shown(alloc, text)?.as_slice() == script)
}

#[test]
fn reads_scripts(rt: HostRuntime) -> Result<(), Fail> {
    let alloc = rt.alloc();
    for &(text, script) in &SCRIPTS {
        assert!(rt; reads(alloc, text, script)?);
    }
    Ok(())
}

const BROKEN: [(&[u8], u32, u8); 44] = [
    // none of the table's lines
    (b"foo", 1, 1),
    (b"session", 1, 1),
    (b"session ", 1, 1),
    (b"session a b", 1, 1),
    (b"session  a", 1, 1),
    (b" session a", 1, 1),
    (b"Session A", 1, 1),
    (b"%", 1, 1),
    (b"\r\n\nsession A\n\ncommit \n", 5, 1),
    (b"session A\nrun \n%\n", 2, 1),
    (b"session A\nlock read 9x\n", 2, 1),
    (b"session A\nlock x y\n", 2, 1),
    (b"session A\nlock read x y\n", 2, 1),
    (b"session A\nunlock\n", 2, 1),
    (b"session A\nmethod: 9x\nx\n%\n", 2, 1),
    (b"session A\nmethod: a-b\nx\n%\n", 2, 1),
    (b"session A\ncheckpoint 1\n", 2, 1),
    (b"session A\nCheckpoint\n", 2, 1),
    (b"session A\nmode\n", 2, 1),
    (b"session A\nmode checks\n", 2, 1),
    (b"session A\nmode full_checks \n", 2, 1),
    (b"session A\nmode  no_rw_checks\n", 2, 1),
    (b"session A\nrun\n%\n%\n", 4, 1),
    // no session takes the command
    (b"commit", 1, 2),
    (b"\nlock read X\n", 2, 2),
    (b"checkpoint\n", 1, 2),
    (b"session A\nlogout\nmode full_checks\n", 3, 2),
    (b"run\n3\n", 1, 2),
    (b"session A\nlogout\ncommit\n", 3, 2),
    (b"session A\nlogout\n\nmethod: X\nx\n%\n", 4, 2),
    (b"session A\nlogout\nlogout\n", 3, 2),
    // a chunk without its end
    (b"session DataCurator\nrun\n3", 2, 3),
    (b"session A\nrun\n%\nprintit\n% \n %\n", 4, 3),
    (b"session A\nmethod: X", 2, 3),
    // no user name
    (b"session 1a", 1, 6),
    (b"session A\nsession a_b\n", 2, 6),
    (b"session a\tb", 1, 6),
    // the first line that breaks a rule
    (b"session A\nrun\n3\n%\nsession 1\nfoo\n", 5, 6),
    (b"commit\nfoo\n", 1, 2),
    // another byte, wherever it stands
    (b"\x7f", 1, 8),
    (b"foo\ncommit\n\n\x1f\n\xc3\xa9", 4, 8),
    (b"session A\nrun\n\x00", 3, 8),
    (b"session A\nrun\n3\n%\r\n\x80", 5, 8),
    (b"session A\xff", 1, 8),
];

#[test]
fn finds_the_first_rule(rt: HostRuntime) -> Result<(), Fail> {
    for &(text, line, rule) in &BROKEN {
        assert_eq!(rt; broken(rt.alloc(), text), Some((line, rule)));
    }
    Ok(())
}

fn sessions(alloc: Global, count: usize, last: &[u8]) -> Result<Vec<u8>, AllocError> {
    let mut text = Vec::new(alloc);
    for _ in 0..count {
        text.extend_from_slice(b"session A\n")?;
    }
    text.extend_from_slice(last)?;
    Ok(text)
}

// Whether a text of so many sessions and a last part breaks this rule.
fn breaks(
    alloc: Global,
    count: usize,
    last: &[u8],
    want: Option<(u32, u8)>,
) -> Result<bool, AllocError> {
    let text = sessions(alloc, count, last)?;
    Ok(broken(alloc, &text) == want)
}

#[test]
fn counts_sessions(rt: HostRuntime) -> Result<(), Fail> {
    let alloc = rt.alloc();
    assert!(rt; breaks(alloc, 16, b"commit", None)?);
    assert!(rt; breaks(alloc, 16, b"\nsession A", Some((18, 5)))?);
    assert!(rt; breaks(alloc, 16, b"session 1\nfoo", Some((17, 6)))?);
    assert!(rt; breaks(alloc, 15, b"session A", None)?);
    Ok(())
}

// A text between two others, repeated so many times.
fn around(
    alloc: Global,
    front: &[u8],
    middle: &[u8],
    count: usize,
    back: &[u8],
) -> Result<Vec<u8>, AllocError> {
    let mut text = Vec::from_slice(alloc, front)?;
    for _ in 0..count {
        text.extend_from_slice(middle)?;
    }
    text.extend_from_slice(back)?;
    Ok(text)
}

#[test]
fn bounds_names(rt: HostRuntime) -> Result<(), Fail> {
    let alloc = rt.alloc();
    let most = around(alloc, b"session ", b"a", 64, b"")?;
    assert_eq!(rt; broken(alloc, &most), None);
    let more = around(alloc, b"session ", b"a", 65, b"")?;
    assert_eq!(rt; broken(alloc, &more), Some((1, 6)));
    Ok(())
}

const CHUNK: &[u8] = b"session A\nrun\n";

#[test]
fn bounds_lines_of_chunks(rt: HostRuntime) -> Result<(), Fail> {
    let alloc = rt.alloc();
    let most = around(alloc, CHUNK, b" ", CHUNK_LIMIT - 1, b"\n%\n")?;
    assert_eq!(rt; broken(alloc, &most), None);
    let more = around(alloc, CHUNK, b" ", CHUNK_LIMIT, b"\n%\n")?;
    assert_eq!(rt; broken(alloc, &more), Some((2, 4)));
    Ok(())
}

#[test]
fn bounds_chunks_of_lines(rt: HostRuntime) -> Result<(), Fail> {
    let alloc = rt.alloc();
    let endless = around(alloc, CHUNK, b"\n", CHUNK_LIMIT + 1, b"")?;
    assert_eq!(rt; broken(alloc, &endless), Some((2, 3)));
    let most = around(alloc, CHUNK, b"\r\n", CHUNK_LIMIT, b"%\n")?;
    assert_eq!(rt; broken(alloc, &most), None);
    Ok(())
}

#[test]
fn bounds_scripts(rt: HostRuntime) -> Result<(), Fail> {
    let alloc = rt.alloc();
    let most = around(alloc, b"", b"\n", SCRIPT_LIMIT, b"")?;
    assert_eq!(rt; broken(alloc, &most), None);
    let more = around(alloc, b"", b"\x80", SCRIPT_LIMIT, b"\n")?;
    assert_eq!(rt; broken(alloc, &more), Some((0, 7)));
    Ok(())
}
