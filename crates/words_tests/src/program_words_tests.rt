//! Command lines that are read, and such as ask for nothing.
use program_words::{Usage, Words, read_words};
use std::alloc::{AllocError, Global};
use std::test::Fail;

// Lines whose words ask for nothing, the first of them without a byte.
const OTHER_LINES: &str = "\n\
Serve\n\
serves\n\
serve a\n\
serve a b c\n\
serve -a b\n\
serve a -b\n\
serve  b\n\
init\n\
init a\n\
check a b c\n\
--help\n\
--\n\
serve --\n\
demo";

// Options that no demo has.
const OTHER_DEMOS: &str = "demo --seed 7\n\
demo --sessions 2\n\
demo --seed 7 --sessions\n\
demo --seed 7 --sessions=\n\
demo --seed 7 --sessions 0\n\
demo --seed 7 --sessions 17\n\
demo --seed 2147483648 --sessions 2\n\
demo --seed 7 --sessions 2 --rounds 0\n\
demo --seed 7 --sessions 2 --rounds 1001\n\
demo --seed 7 --sessions 2 --seed 7\n\
demo --seed=7 --sessions 2 --seed 7\n\
demo --seed +7 --sessions 2\n\
demo --seed -7 --sessions 2\n\
demo --seed 00000000007 --sessions 2\n\
demo --seed 9999999999 --sessions 2\n\
demo --seed==7 --sessions 2\n\
demo --seed = 7 --sessions 2\n\
demo --Seed 7 --sessions 2\n\
demo --seed 7 --sessions 2 more\n\
demo --seed 7 --sessions 2 --";

fn told(alloc: Global, read: Result<Words<'_>, Usage>) -> Result<String, AllocError> {
    match read {
        Ok(Words::Serve(None)) => format!(in alloc; "serve"),
        Ok(Words::Serve(Some(paths))) => {
            format!(in alloc; "serve {} and {}", paths.extent, paths.log)
        }
        Ok(Words::Init(paths)) => format!(in alloc; "init {} and {}", paths.extent, paths.log),
        Ok(Words::Check(paths)) => format!(in alloc; "check {} and {}", paths.extent, paths.log),
        Ok(
            Words::Demo {
                seed,
                sessions,
                rounds,
            },
        ) => format!(in alloc; "demo {seed} {sessions} {rounds}"),
        Err(_) => format!(in alloc; "usage"),
    }
}

// The words of the line, which stand between single spaces.
fn words_of(alloc: Global, line: &str) -> Result<Vec<String>, AllocError> {
    let mut words = Vec::new(alloc);
    for word in line.split(' ') {
        words.push(String::from_str(alloc, word)?)?;
    }
    Ok(words)
}

// Whether the words of the line are read as this.
fn reads(alloc: Global, line: &str, wanted: &str) -> Result<bool, AllocError> {
    let words = words_of(alloc, line)?;
    let shown = told(alloc, read_words(words.as_slice()))?;
    Ok(shown.as_str() == wanted)
}

fn no_words(alloc: Global) -> Result<bool, AllocError> {
    let words: Vec<String> = Vec::new(alloc);
    let shown = told(alloc, read_words(words.as_slice()))?;
    Ok(shown.as_str() == "usage")
}

#[test]
fn reads_files(rt: HostRuntime) -> Result<(), Fail> {
    let alloc = rt.alloc();
    assert!(rt; reads(alloc, "serve", "serve")?);
    assert!(rt; reads(alloc, "serve a.ext a.log", "serve a.ext and a.log")?);
    assert!(rt; reads(alloc, "init a b", "init a and b")?);
    assert!(rt; reads(alloc, "check a a", "check a and a")?);
    assert!(rt; reads(alloc, "check serve demo", "check serve and demo")?);
    Ok(())
}

#[test]
fn refuses_other_words(rt: HostRuntime) -> Result<(), Fail> {
    let alloc = rt.alloc();
    assert!(rt; no_words(alloc)?);
    for line in OTHER_LINES.split('\n') {
        assert!(rt; reads(alloc, line, "usage")?);
    }
    Ok(())
}

#[test]
fn reads_demos(rt: HostRuntime) -> Result<(), Fail> {
    let alloc = rt.alloc();
    assert!(rt;
        reads(
            alloc,
            "demo --seed 7 --sessions 16 --rounds 50",
            "demo 7 16 50"
        )?
    );
    assert!(rt; reads(alloc, "demo --sessions=2 --seed=0000000007", "demo 7 2 4")?);
    assert!(rt;
        reads(
            alloc,
            "demo --rounds=1000 --sessions 1 --seed=2147483647",
            "demo 2147483647 1 1000"
        )?
    );
    Ok(())
}

#[test]
fn refuses_other_demos(rt: HostRuntime) -> Result<(), Fail> {
    let alloc = rt.alloc();
    for line in OTHER_DEMOS.split('\n') {
        assert!(rt; reads(alloc, line, "usage")?);
    }
    Ok(())
}
