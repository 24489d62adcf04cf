//! The host's file system, which tells each call that is made of it and of its files.
use std::alloc::{AllocError, Allocator, Global};
use std::cell::{Cell, RefCell};
use std::fs::{Metadata, OpenFile, OpenOptions};
use std::io::{Read, Seek, SeekFrom, Write};
use std::rc::Rc;
use std::rt::Files;
use std::{fmt, io};

// So many bytes are read or written in a call, whatever it is asked for.
const MOST: usize = 2;

// The calls, each with a semicolon behind it. After this number of calls one fails.
#[derive(Drop)]
pub(crate) struct Watch {
    calls: RefCell<String>,
    passes: Cell<u64>,
}

impl Watch {
    pub(crate) fn new(alloc: Global, passes: u64) -> Watch {
        Watch {
            calls: RefCell::new(String::new(alloc)),
            passes: Cell::new(passes),
        }
    }

    pub(crate) fn told(&self) -> Result<String, AllocError> {
        match self.calls.try_borrow() {
            Ok(calls) => calls.clone(),
            Err(_) => Err(AllocError),
        }
    }

    fn note(&self, call: &str, path: &str, number: Option<u64>) -> io::Result<()> {
        if let Ok(mut calls) = self.calls.try_borrow_mut() {
            if put(&mut *calls, call, path, number).is_err() {
                return Err(io::Error::from(io::ErrorKind::OutOfMemory));
            }
        }
        let passes = self.passes.get();
        self.passes.set(passes.wrapping_sub(1));
        if passes == 0 {
            return Err(io::Error::from(io::ErrorKind::Other));
        }
        Ok(())
    }
}

fn put<W: fmt::Write>(to: &mut W, call: &str, path: &str, number: Option<u64>) -> fmt::Result {
    match number {
        Some(number) => write!(to, "{call} {path} {number};"),
        None => write!(to, "{call} {path};"),
    }
}

#[derive(Clone, Drop)]
pub(crate) struct Watched<R> {
    rt: R,
    alloc: Global,
    watch: Rc<Watch>,
}

impl<R: Files> Watched<R> {
    pub(crate) fn new(rt: R, alloc: Global, watch: Rc<Watch>) -> Watched<R> {
        Watched { rt, alloc, watch }
    }
}

// r, w and c: to read, to write, and made where it is absent.
fn way_of(how: &OpenOptions) -> &'static str {
    match (how.asks_read(), how.asks_write(), how.asks_create()) {
        (true, true, true) => "open rwc",
        (true, false, false) => "open r",
        _ => "open otherwise",
    }
}

fn unsupported<T>() -> io::Result<T> {
    Err(io::Error::from(io::ErrorKind::Unsupported))
}

impl<R: Files> Files for Watched<R> {
    type File = WatchedFile<R::File>;

    type Dir = R::Dir;

    fn open_file(&self, how: &OpenOptions, path: &str) -> io::Result<WatchedFile<R::File>> {
        self.watch.note(way_of(how), path, None)?;
        Ok(WatchedFile {
            file: self.rt.open_file(how, path)?,
            path: String::from_str(self.alloc, path)?,
            watch: self.watch.clone()?,
        })
    }

    fn open_dir(&self, _path: &str) -> io::Result<R::Dir> {
        unsupported()
    }

    fn metadata(&self, _path: &str) -> io::Result<Metadata> {
        unsupported()
    }

    fn symlink_metadata(&self, _path: &str) -> io::Result<Metadata> {
        unsupported()
    }

    fn copy(&self, _from: &str, _to: &str) -> io::Result<u64> {
        unsupported()
    }

    fn rename(&self, _from: &str, _to: &str) -> io::Result<()> {
        unsupported()
    }

    fn remove_file(&self, _path: &str) -> io::Result<()> {
        unsupported()
    }

    fn create_dir(&self, _path: &str) -> io::Result<()> {
        unsupported()
    }

    fn remove_dir(&self, _path: &str) -> io::Result<()> {
        unsupported()
    }

    fn remove_dir_all<B: Allocator>(&self, _alloc: B, _path: &str) -> io::Result<()> {
        unsupported()
    }
}

#[derive(Drop)]
pub(crate) struct WatchedFile<F> {
    file: F,
    path: String,
    watch: Rc<Watch>,
}

impl<F> WatchedFile<F> {
    fn note(&self, call: &str, number: Option<u64>) -> io::Result<()> {
        self.watch.note(call, self.path.as_str(), number)
    }
}

impl<F: OpenFile> OpenFile for WatchedFile<F> {
    fn metadata(&self) -> io::Result<Metadata> {
        self.note("length", None)?;
        self.file.metadata()
    }

    fn set_len(&self, size: u64) -> io::Result<()> {
        self.note("cut", Some(size))?;
        self.file.set_len(size)
    }

    fn sync_all(&self) -> io::Result<()> {
        self.note("sync", None)?;
        self.file.sync_all()
    }

    fn sync_data(&self) -> io::Result<()> {
        self.note("sync data", None)?;
        self.file.sync_data()
    }
}

impl<F: Read> Read for WatchedFile<F> {
    fn read(&mut self, buf: &mut [u8]) -> io::Result<usize> {
        self.note("read", Some(buf.len() as u64))?;
        let most = buf.len().min(MOST);
        self.file.read(&mut buf[..most])
    }
}

impl<F: Write> Write for WatchedFile<F> {
    fn write(&mut self, buf: &[u8]) -> io::Result<usize> {
        self.note("write", Some(buf.len() as u64))?;
        self.file.write(&buf[..buf.len().min(MOST)])
    }

    fn flush(&mut self) -> io::Result<()> {
        self.file.flush()
    }
}

impl<F: Seek> Seek for WatchedFile<F> {
    fn seek(&mut self, to: SeekFrom) -> io::Result<u64> {
        match to {
            SeekFrom::Start(at) => self.note("seek", Some(at))?,
            _ => self.note("seek otherwise", None)?,
        }
        self.file.seek(to)
    }
}
