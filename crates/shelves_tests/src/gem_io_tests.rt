// The devices, one by one.
use gem_io::{Failed, MemSink, MemSource, Sink, Source, StdSink, StdSource, SureSink, SureSource};
use std::io::{Error, ErrorKind, Read, Write};
use std::test::Fail;

// Standard input and output that are gone.
#[derive(Drop)]
struct Gone;

impl Read for Gone {
    fn read(&mut self, _buf: &mut [u8]) -> Result<usize, Error> {
        Err(Error::from(ErrorKind::NotConnected))
    }
}

impl Write for Gone {
    fn write(&mut self, _buf: &[u8]) -> Result<usize, Error> {
        Ok(0)
    }

    fn flush(&mut self) -> Result<(), Error> {
        Ok(())
    }
}

#[test]
fn source_fails_in_the_chosen_calls(rt: HostRuntime) -> Result<(), Fail> {
    let alloc = rt.alloc();
    let mut source = MemSource::new(b"abcde".to_vec(alloc)?, vec![in alloc; 2]?);
    let mut out = [0u8; 3];
    // What each call answers, and what the buffer then holds.
    let calls = [
        (Ok(3), *b"abc"),
        (Err(Failed), *b"abc"),
        (Ok(2), *b"dec"),
        (Ok(0), *b"dec"),
    ];
    for &(answer, held) in &calls {
        assert_eq!(rt; source.pull(&mut out), answer);
        assert_eq!(rt; out, held);
    }
    Ok(())
}

#[test]
fn sink_fails_in_the_chosen_calls(rt: HostRuntime) -> Result<(), Fail> {
    let alloc = rt.alloc();
    let mut sink = MemSink::new(vec![in alloc; 1, 3]?);
    let calls: [(&[u8], Result<usize, Failed>); 4] = [
        (b"lost", Err(Failed)),
        (b"kept", Ok(4)),
        (b"lost", Err(Failed)),
        (b", too", Ok(5)),
    ];
    for &(piece, answer) in &calls {
        assert_eq!(rt; sink.put(piece), answer);
    }
    assert_eq!(rt; sink.written(), b"kept, too".as_slice());
    assert_eq!(rt; sink.starved(), 0);
    Ok(())
}

#[test]
fn sure_devices_never_fail(rt: HostRuntime) -> Result<(), Fail> {
    let mut source = SureSource::new(b"ab".to_vec(rt.alloc())?);
    let mut out = [0u8; 4];
    assert_eq!(rt; source.pull(&mut out), Ok(2));
    assert_eq!(rt; source.pull(&mut out), Ok(0));
    assert_eq!(rt; &out[..2], b"ab".as_slice());
    assert_eq!(rt; SureSink::new().put(b"ab"), Ok(2));
    Ok(())
}

#[test]
fn readers_and_writers_serve(rt: HostRuntime) -> Result<(), Fail> {
    let mut out = [0u8; 2];
    let mut source = StdSource::new(b"abc".as_slice());
    assert_eq!(rt; source.pull(&mut out), Ok(2));
    assert_eq!(rt; out, *b"ab");
    assert_eq!(rt; source.pull(&mut out), Ok(1));
    assert_eq!(rt; source.pull(&mut out), Ok(0));
    assert_eq!(rt; StdSource::new(Gone).pull(&mut out), Err(Failed));

    let mut held = Vec::new(rt.alloc());
    assert_eq!(rt; StdSink::new(&mut held).put(b"abc"), Ok(3));
    assert_eq!(rt; held.as_slice(), b"abc".as_slice());
    assert_eq!(rt; StdSink::new(Gone).put(b"abc"), Err(Failed));
    Ok(())
}
