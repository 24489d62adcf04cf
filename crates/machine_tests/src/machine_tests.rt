// What the machine replies to commands, on the image of the kernel.
ghost use Rattle.std.specs.Prelude.{◌≡◌, ◌<◌};

use chunk_tables::{
    ANY, BLOCKS, CLASSES, DICTIONARIES, FORMS, LIMITS, NAMES_LEFT, NUMBERS, RIGHTS, SCRIPTS,
    SEQUENCES, SHARED, STRINGS, note, told,
};
use gem_object::Text;
use kernel_state::{Begins, begin};
use look_up_cache::KnownObjects;
use plain_state::PlainState;
use radix_pages::Steps;
use running_objects::RunsChunks;
use session_view::View;
use st_machine::{CodeCache, SharedCode};
use std::alloc::{AllocError, Global};
use std::marker::Brand;
use std::sync::ledger::{Blank, Ledger};
use std::test::Fail;
use std::thread;
use std::thread::Builder;

/// The bytes of stack of a thread that runs chunks.
const STACK: usize = 256 << 20;

/// One method more than the cache keeps.
const METHODS: u32 = 257;

/// A script in which methods, classes and segments change between messages of one kind.
const CHANGES: &str = "\
run Object subclass: #Animal instVarNames: #() inDictionary: UserGlobals => ok
run Animal subclass: #Dog instVarNames: #() inDictionary: UserGlobals => ok
run UserGlobals at: #S put: Segment new. UserGlobals at: #D put: Dog new => ok
run UserGlobals at: #E put: Dog new. UserGlobals at: #T put: 'a'. T assignToSegment: S => ok
print D sound => error E1 not understood: sound
method Animal sound ^1 => method sound
print D sound => 1
print D sound + D sound => 2
method Animal sound ^2 => method sound
print D sound => 2
method Dog sound ^3 => method sound
print D sound => 3
print D sound * 10 + (Dog removeSelector: #sound; yourself) new sound => 32
print D sound => 2
print Animal removeSelector: #sound => Animal
print D sound => error E1 not understood: sound
method Animal sound ^4 => method sound
print D sound => 4
method Dog loud ^super sound => method loud
print D loud => 4
method Animal sound ^6 => method sound
print D loud => 6
method Dog sound ^7 => method sound
print Animal removeSelector: #sound => Animal
print D sound => 7
print D loud => error E1 not understood: sound
print Dog removeSelector: #sound => Dog
print D sound => error E1 not understood: sound
method Animal sound ^4 => method sound
print Dog kind => error E1 not understood: kind
class Animal kind ^5 => method kind
print Dog kind => 5
class Dog kind ^super kind + 1 => method kind
print Dog kind => 6
class Animal kind ^7 => method kind
print Dog kind => 8
print 'b' , T => 'ba'
run D assignToSegment: S => ok
print D sound => 4
run S ownerAuthorization: #none => ok
print D sound => error E10 no read right: 1:6
print 'b' , T => error E10 no read right: 1:8
print E sound => 4
print D sound => error E10 no read right: 1:6
print E sound => 4
run S ownerAuthorization: #read => ok
print D sound => 4
print 'b' , T => 'ba'
run Animal assignToSegment: S => error E11 no write right: 1:5
run S ownerAuthorization: #write => ok
run Animal assignToSegment: S => ok
print D sound => 4
run S ownerAuthorization: #none => ok
print E sound => error E10 no read right: 1:2
print Dog kind => error E10 no read right: 1:2
run S ownerAuthorization: #write => ok
print D sound. S ownerAuthorization: #none. D sound => error E10 no read right: 1:6
run S ownerAuthorization: #write => ok
print E sound + D sound => 8
run UserGlobals at: #D put: Animal new => ok
print D sound => 4
print D loud => error E1 not understood: loud";

/// A script in which objects are written again, with their segment, its rights and the user's groups
/// as they were, and after a change of one of these.
const WRITES: &str = "\
run Object subclass: #Pot instVarNames: #(fill) inDictionary: UserGlobals => ok
run UserGlobals at: #S put: Segment new. UserGlobals at: #R put: Segment new => ok
run UserGlobals at: #P put: Pot new. UserGlobals at: #A put: (Array new: 1) => ok
method Pot fill ^fill => method fill
method Pot fill: n fill := n => method fill:
run P assignToSegment: S. A assignToSegment: S => ok
print A at: 1 put: 3. A at: 1 put: 4. A at: 1 => 4
print P fill: 3. P fill: 4. P fill => 4
print A at: 1 put: 5. S ownerAuthorization: #read. A at: 1 put: 6 => error E11 no write right: 1:6
print A at: 1 => 5
print P fill: 5 => error E11 no write right: 1:5
run S ownerAuthorization: #write => ok
print P fill: 6. S ownerAuthorization: #read. P fill: 7 => error E11 no write right: 1:5
print P fill => 6
print A at: 1 put: 6 => error E11 no write right: 1:6
run S group: #g authorization: #write => ok
print System myUserProfile addGroup: #g. P fill: 8. P fill: 9. P fill => 9
print P fill: 10. System myUserProfile removeGroup: #g. P fill: 11 => error E11 no write \
    right: 1:5
print P fill => 10
run S ownerAuthorization: #write => ok
print A at: 1 put: 7. A assignToSegment: R. A at: 1 put: 8. A at: 1 => 8
print S ownerAuthorization: #none. A at: 1 put: 9. A at: 1 put: 10. A at: 1 => 10
print A at: 1 put: 11. R ownerAuthorization: #read. A at: 1 put: 12 => error E11 no write right: 1:6
print A at: 1 => 11
run R ownerAuthorization: #write => ok
print A at: 1 put: 13. A at: 2 put: 14 => error E4 index
print A at: 1 put: 15. A at: 1 => 15";

/// A script in which instance variables and elements are read and written again, by methods of a
/// class and of one below it, of objects with named slots and without, and after a change of a right,
/// a segment or a method.
const PLACES: &str = "\
run Object subclass: #Cup instVarNames: #(fill size) inDictionary: UserGlobals => ok
run Cup subclass: #Mug instVarNames: #(grip) inDictionary: UserGlobals => ok
run Array subclass: #Row instVarNames: #(name next) inDictionary: UserGlobals => ok
run UserGlobals at: #S put: Segment new. UserGlobals at: #C put: Cup new => ok
run UserGlobals at: #M put: Mug new. UserGlobals at: #A put: (Array new: 2) => ok
run UserGlobals at: #R put: (Row new: 2). UserGlobals at: #grip put: 40 => ok
method Cup fill ^fill => method fill
method Cup fill: n fill := n => method fill:
method Cup grip ^grip => method grip
method Cup grip: n grip := n => method grip:
method Mug grip ^grip => method grip
method Mug grip: n grip := n => method grip:
method Mug last ^size => method last
method Mug last: n size := n => method last:
class Mug fill ^fill => method fill
method Row name ^name => method name
method Row name: n name := n => method name:
print C fill: 1. C fill: 2. C fill => 2
print M fill: 3. M last: 4. M grip: 5. M fill: 6. M fill * 100 + (M last * 10) + M grip => 645
print C grip => 40
print C grip: 3 => error E2 undefined variable: grip
print C grip + C grip => 80
print M grip => 5
print Mug fill => error E2 undefined variable: fill
run UserGlobals at: #fill put: 7 => ok
print Mug fill + Mug fill => 14
print C fill => 2
run grip := 41. UserGlobals at: #grip put: 41 => error E2 undefined variable: grip
print R name: 8. R at: 1 put: 9. R at: 2 put: 10. R at: 1 put: 11. R name: 12. (R at: 1) + R \
    name => 23
print R size + A size + (R at: 2) => 14
print R at: 3 => error E4 index
print R at: 0 put: 1 => error E4 index
print A at: 1 put: 3. A at: 1 put: [4] => error E12 block stored
print A at: 1 put: R. A at: 1 put: 5. A at: nil put: 6 => error E5 argument kind
print (A at: 1) + R size => 7
run UserGlobals at: #T put: Segment new. C assignToSegment: S. A assignToSegment: S => ok
print C fill + C fill. S ownerAuthorization: #none. C fill => error E10 no read right: 1:8
run S ownerAuthorization: #write => ok
print C fill: 3. S ownerAuthorization: #read. C fill: 4 => error E11 no write right: 1:8
print C fill => 3
run S ownerAuthorization: #write => ok
print A size + A size. S ownerAuthorization: #none. A size => error E10 no read right: 1:10
run S ownerAuthorization: #write => ok
print (A at: 1) + (A at: 1). S ownerAuthorization: #none. A at: 1 => error E10 no read right: 1:10
run S ownerAuthorization: #write => ok
print A at: 1 put: 6. A at: 1 put: 7. S ownerAuthorization: #read. A at: 1 put: 8 => error \
    E11 no write right: 1:10
print A at: 1 => 7
run S ownerAuthorization: #write => ok
print C fill: 5. C assignToSegment: T. C fill: 6. T ownerAuthorization: #read. C fill: 7 => \
    error E11 no write right: 1:8
print C fill => 6
print C fill. T ownerAuthorization: #none. C fill => error E10 no read right: 1:8
run T ownerAuthorization: #write => ok
print A at: 1 put: 9. A assignToSegment: T. T ownerAuthorization: #read. A at: 1 put: 8 => \
    error E11 no write right: 1:10
print (A at: 1) + C fill => 15
print A at: 1. T ownerAuthorization: #none. A at: 1 => error E10 no read right: 1:10
run T ownerAuthorization: #write => ok
run Cup assignToSegment: S => ok
print M fill + C fill. S ownerAuthorization: #none. M grip => error E10 no read right: 1:2
run S ownerAuthorization: #write => ok
print M grip: 6. M fill: 2. M grip * 10 + M fill => 62
print M fill. Cup removeSelector: #fill. M fill => error E1 not understood: fill
method Mug fill ^size => method fill
print M last: 3. M fill => 3
print C fill => error E1 not understood: fill
print M fill + M grip => 9";

/// Objects on which the machine runs.
pub(crate) type Known<S> = KnownObjects<S, SharedCode>;

/// A transaction on the kernel's objects, of which nothing is remembered.
pub(crate) fn known<S: Begins, L: Ledger>(
    alloc: Global,
    steps: &mut Steps<L>,
) -> Result<Known<S>, AllocError> {
    Ok(KnownObjects::new(alloc, begin::<S, L>(alloc, 1, steps)?))
}

/// What the machine replies to a chunk.
pub(crate) fn reply_to<S: Begins>(
    alloc: Global,
    state: &mut Known<S>,
    cache: &mut CodeCache,
    prints: bool,
    chunk: &str,
) -> Result<Vec<u8>, AllocError> {
    state.begin_chunk();
    let text = Text::copy_of(alloc, chunk.as_bytes())?;
    let reply = st_machine::run_text(alloc, state, cache, prints, &text)?;
    told(alloc, &reply)
}

/// Whether a chunk is replied to so, on a state of its own.
fn replies<S: Begins, L: Ledger>(
    alloc: Global,
    cache: &mut CodeCache,
    chunk: &str,
    wanted: &str,
    steps: &mut Steps<L>,
) -> Result<bool, AllocError> {
    let mut state = known::<S, L>(alloc, steps)?;
    Ok(reply_to(alloc, &mut state, cache, true, chunk)?.as_slice() == wanted.as_bytes())
}

/// Runs each of these chunks. Those that aren't replied to as they should be are noted.
fn check_rows<S: Begins, L: Ledger>(
    alloc: Global,
    cache: &mut CodeCache,
    rows: &str,
    steps: &mut Steps<L>,
    wrong: &mut String,
) -> Result<(), AllocError> {
    for row in rows.lines() {
        let Some((chunk, wanted)) = row.split_once(" => ") else {
            note(wrong, row)?;
            continue;
        };
        if !replies::<S, L>(alloc, cache, chunk, wanted, steps)? {
            note(wrong, row)?;
        }
    }
    Ok(())
}

/// What one command of a script is replied to.
fn reply_to_command<S: Begins>(
    alloc: Global,
    state: &mut Known<S>,
    cache: &mut CodeCache,
    word: &str,
    rest: &str,
) -> Result<Vec<u8>, AllocError> {
    if word == "print" {
        return reply_to(alloc, state, cache, true, rest);
    }
    if word == "run" {
        return reply_to(alloc, state, cache, false, rest);
    }
    state.begin_chunk();
    let Some((class, source)) = rest.split_once(' ') else {
        return Ok(Vec::new(alloc));
    };
    let class = Text::copy_of(alloc, class.as_bytes())?;
    let source = Text::copy_of(alloc, source.as_bytes())?;
    let reply = st_commands::install_source(alloc, state, word == "class", &class, &source)?;
    told(alloc, &reply)
}

/// Whether a line of a script, a command and what is wanted, is replied to so.
fn line_replies<S: Begins>(
    alloc: Global,
    state: &mut Known<S>,
    cache: &mut CodeCache,
    line: &str,
) -> Result<bool, AllocError> {
    let Some((command, wanted)) = line.split_once(" => ") else {
        return Ok(false);
    };
    let Some((word, rest)) = command.split_once(' ') else {
        return Ok(false);
    };
    Ok(reply_to_command(alloc, state, cache, word, rest)?.as_slice() == wanted.as_bytes())
}

/// Notes a line of a script that isn't replied to as it should be.
pub(crate) fn check_line<S: Begins>(
    alloc: Global,
    state: &mut Known<S>,
    cache: &mut CodeCache,
    line: &str,
    wrong: &mut String,
) -> Result<(), AllocError> {
    if line_replies(alloc, state, cache, line)? {
        return Ok(());
    }
    note(wrong, line)
}

/// Runs scripts over one cache: each begins after an empty line.
fn check_scripts<S: Begins, L: Ledger>(
    alloc: Global,
    cache: &mut CodeCache,
    scripts: &str,
    steps: &mut Steps<L>,
    wrong: &mut String,
) -> Result<(), AllocError> {
    let mut state = known::<S, L>(alloc, steps)?;
    for line in scripts.lines() {
        if line.is_empty() {
            state = known::<S, L>(alloc, steps)?;
            continue;
        }
        check_line(alloc, &mut state, cache, line, wrong)?;
    }
    Ok(())
}

/// What is written on the transcript.
fn check_transcript<S: Begins, L: Ledger>(
    alloc: Global,
    cache: &mut CodeCache,
    steps: &mut Steps<L>,
    wrong: &mut String,
) -> Result<(), AllocError> {
    let mut state = known::<S, L>(alloc, steps)?;
    let chunk = "Transcript show: 'ab' , 'c'; cr; show: 3 printString. 7";
    let reply = reply_to(alloc, &mut state, cache, true, chunk)?;
    if reply.as_slice() == b"7".as_slice() && state.transcript() == b"abc\n3".as_slice() {
        return Ok(());
    }
    note(wrong, chunk)
}

/// What was written on the transcript stays there after an error.
fn check_kept_transcript<S: Begins, L: Ledger>(
    alloc: Global,
    cache: &mut CodeCache,
    steps: &mut Steps<L>,
    wrong: &mut String,
) -> Result<(), AllocError> {
    let mut state = known::<S, L>(alloc, steps)?;
    let chunk = "Transcript show: 'a'. 3 foo";
    let reply = reply_to(alloc, &mut state, cache, true, chunk)?;
    let wanted = b"error E1 not understood: foo";
    if reply.as_slice() == wanted.as_slice() && state.transcript() == b"a".as_slice() {
        return Ok(());
    }
    note(wrong, chunk)
}

/// What is made where no more than two names are left.
fn check_names<S: Begins, L: Ledger>(
    alloc: Global,
    cache: &mut CodeCache,
    steps: &mut Steps<L>,
    wrong: &mut String,
) -> Result<(), AllocError> {
    let objects = begin::<S, L>(alloc, (1 << 24) - 2, steps)?;
    let mut state = KnownObjects::new(alloc, objects);
    for line in NAMES_LEFT.lines() {
        check_line(alloc, &mut state, cache, line, wrong)?;
    }
    Ok(())
}

/// Runs a script twice, on what it has remembered, and with all forgotten before each line.
fn check_remembered<S: Begins, L: Ledger>(
    alloc: Global,
    cache: &mut CodeCache,
    script: &str,
    steps: &mut Steps<L>,
    wrong: &mut String,
) -> Result<(), AllocError> {
    let mut first = known::<S, L>(alloc, steps)?;
    let mut second = known::<S, L>(alloc, steps)?;
    for line in script.lines() {
        second = KnownObjects::new(alloc, second.into_objects());
        check_line(alloc, &mut first, cache, line, wrong)?;
        check_line(alloc, &mut second, cache, line, wrong)?;
    }
    Ok(())
}

/// The rows that aren't replied to as they should be.
fn wrong_rows<S: Begins, L: Ledger>(alloc: Global, blank: Blank) -> Result<String, AllocError>
    requires name { blank.name ≡ L.name }
    requires parts { blank.parts ≡ L.parts }
    requires some_parts { 0 < L.parts }
{
    let mut steps = Steps::<L>::start(blank);
    let mut wrong = String::new(alloc);
    let mut cache = CodeCache::new(alloc)?;
    for rows in [
        ANY,
        NUMBERS,
        BLOCKS,
        SEQUENCES,
        STRINGS,
        CLASSES,
        DICTIONARIES,
        SHARED,
        FORMS,
        RIGHTS,
        LIMITS,
    ] {
        check_rows::<S, L>(alloc, &mut cache, rows, &mut steps, &mut wrong)?;
    }
    Ok(wrong)
}

/// The lines of scripts that aren't replied to as they should be.
fn wrong_lines<S: Begins, L: Ledger>(alloc: Global, blank: Blank) -> Result<String, AllocError>
    requires name { blank.name ≡ L.name }
    requires parts { blank.parts ≡ L.parts }
    requires some_parts { 0 < L.parts }
{
    let mut steps = Steps::<L>::start(blank);
    let mut wrong = String::new(alloc);
    let mut cache = CodeCache::new(alloc)?;
    check_scripts::<S, L>(alloc, &mut cache, SCRIPTS, &mut steps, &mut wrong)?;
    check_transcript::<S, L>(alloc, &mut cache, &mut steps, &mut wrong)?;
    check_kept_transcript::<S, L>(alloc, &mut cache, &mut steps, &mut wrong)?;
    check_names::<S, L>(alloc, &mut cache, &mut steps, &mut wrong)?;
    check_remembered::<S, L>(alloc, &mut cache, CHANGES, &mut steps, &mut wrong)?;
    check_remembered::<S, L>(alloc, &mut cache, WRITES, &mut steps, &mut wrong)?;
    check_remembered::<S, L>(alloc, &mut cache, PLACES, &mut steps, &mut wrong)?;
    Ok(wrong)
}

/// Gives the class Many its methods, each of which answers its number.
pub(crate) fn install_many<S: Begins>(
    alloc: Global,
    state: &mut Known<S>,
) -> Result<(), AllocError> {
    let class = Text::copy_of(alloc, b"Many")?;
    for number in 1..METHODS + 1 {
        state.begin_chunk();
        let source = format!(in alloc; "m{number} ^{number}")?;
        let source = Text::copy_of(alloc, source.as_bytes())?;
        st_commands::install_source(alloc, state, false, &class, &source)?;
    }
    Ok(())
}

/// Sends all of them. Those that don't answer their number are noted.
pub(crate) fn send_many<S: Begins>(
    alloc: Global,
    state: &mut Known<S>,
    cache: &mut CodeCache,
    wrong: &mut String,
) -> Result<(), AllocError> {
    for number in 1..METHODS + 1 {
        let chunk = format!(in alloc; "Many new m{number}")?;
        let wanted = format!(in alloc; "{number}")?;
        let reply = reply_to(alloc, state, cache, true, chunk.as_str())?;
        if reply.as_slice() != wanted.as_bytes() {
            note(wrong, chunk.as_str())?;
        }
    }
    Ok(())
}

/// Sends one method more than the cache keeps, and then all once more.
fn check_sends<S: Begins>(
    alloc: Global,
    state: &mut Known<S>,
    cache: &mut CodeCache,
    wrong: &mut String,
) -> Result<(), AllocError> {
    let class = "Object subclass: #Many instVarNames: #() inDictionary: UserGlobals";
    reply_to(alloc, state, cache, false, class)?;
    install_many(alloc, state)?;
    send_many(alloc, state, cache, wrong)?;
    send_many(alloc, state, cache, wrong)
}

/// The sends to these objects that aren't answered as they should be.
fn sent<S: Begins>(alloc: Global, state: &mut Known<S>) -> Result<String, AllocError> {
    let mut wrong = String::new(alloc);
    let mut cache = CodeCache::new(alloc)?;
    check_sends(alloc, state, &mut cache, &mut wrong)?;
    Ok(wrong)
}

/// The sends that aren't answered as they should be.
fn wrong_sends<S: Begins, L: Ledger>(alloc: Global, blank: Blank) -> Result<String, AllocError>
    requires name { blank.name ≡ L.name }
    requires parts { blank.parts ≡ L.parts }
    requires some_parts { 0 < L.parts }
{
    let mut steps = Steps::<L>::start(blank);
    let mut state = known::<S, L>(alloc, &mut steps)?;
    sent(alloc, &mut state)
}

fn rows_by_brand<S: Begins>(alloc: Global) -> Result<String, AllocError> {
    wrong_rows::<S, Brand>(alloc, Blank::new(1))
}

fn lines_by_brand<S: Begins>(alloc: Global) -> Result<String, AllocError> {
    wrong_lines::<S, Brand>(alloc, Blank::new(1))
}

fn sends_by_brand<S: Begins>(alloc: Global) -> Result<String, AllocError> {
    wrong_sends::<S, Brand>(alloc, Blank::new(1))
}

#[test]
fn machine_rows(rt: HostRuntime) -> Result<(), Fail> {
    let wrong = thread::scope(thread::scope_env(), &rt, |scope| {
        let work = || rows_by_brand::<View>(rt.alloc());
        match Builder::new().stack_size(STACK).spawn_scoped(scope, work) {
            Ok(child) => child.join(&rt),
            Err(_) => Err(AllocError),
        }
    })?;
    assert_eq!(rt; wrong.as_str(), "");
    Ok(())
}

#[test]
fn machine_scripts(rt: HostRuntime) -> Result<(), Fail> {
    let wrong = thread::scope(thread::scope_env(), &rt, |scope| {
        let work = || lines_by_brand::<View>(rt.alloc());
        match Builder::new().stack_size(STACK).spawn_scoped(scope, work) {
            Ok(child) => child.join(&rt),
            Err(_) => Err(AllocError),
        }
    })?;
    assert_eq!(rt; wrong.as_str(), "");
    Ok(())
}

#[test]
fn machine_sends(rt: HostRuntime) -> Result<(), Fail> {
    let wrong = thread::scope(thread::scope_env(), &rt, |scope| {
        let work = || sends_by_brand::<PlainState>(rt.alloc());
        match Builder::new().stack_size(STACK).spawn_scoped(scope, work) {
            Ok(child) => child.join(&rt),
            Err(_) => Err(AllocError),
        }
    })?;
    assert_eq!(rt; wrong.as_str(), "");
    Ok(())
}
