//! Room: sessions and server. The program: it does what its words ask for, and serves the script on
//! standard input over a store of two files. Knows nothing of what a script says.
#![tactic(auto)]

mod failure;
mod serving;

use failure::Failure;
use file_disk::{FileDisk, HostFiles};
use gem_disk::MemDisk;
use gem_io::{StdSink, StdSource};
use serving::{paths_of, serve};
use std::alloc::{AllocError, Global};
use std::process::ExitCode;
use std::rt::Files;
use std::{env, io};

fn main(rt: HostRuntime) -> ExitCode {
    let alloc = rt.alloc();
    let mut source = StdSource::new(rt.stdin());
    let mut sink = StdSink::new(rt.stdout());
    let ended = match words(&rt) {
        Ok(words) => match disk_of(&rt, alloc, &words) {
            Ok(Some(disk)) => serve(&rt, alloc, &words, &mut source, disk, &mut sink),
            Ok(None) => serve(&rt, alloc, &words, &mut source, no_disk(alloc), &mut sink),
            Err(failure) => Err(failure),
        },
        Err(failure) => Err(failure),
    };
    match ended {
        Ok(()) => ExitCode::SUCCESS,
        Err(failure) => {
            // Where standard error is gone too, the exit status alone tells.
            let _ = eprintln!(rt; "{failure}");
            ExitCode::from(failure.number())
        }
    }
}

// The disk of the files that the words name, if they name some. One file can't be both: it would lose
// what was committed.
fn disk_of<R: Files + Clone + Drop>(
    rt: &R,
    alloc: Global,
    words: &[String],
) -> Result<Option<FileDisk<HostFiles<R>>>, Failure> {
    let Some(paths) = paths_of(words) else {
        return Ok(None);
    };
    if paths.extent == paths.log {
        return Err(Failure::Usage);
    }
    match FileDisk::at(rt, alloc, paths.extent, paths.log) {
        Ok(disk) => Ok(Some(disk)),
        Err(AllocError) => Err(Failure::NoMemory),
    }
}

// What stands for a disk where no files are named.
fn no_disk(alloc: Global) -> MemDisk {
    MemDisk::new(Vec::new(alloc), Vec::new(alloc))
}

// The words of the command line, the program's own name first. A word that isn't text is a faulty
// command line.
fn words(rt: &HostRuntime) -> Result<Vec<String>, Failure> {
    let words = env::args(rt).map_err(|error| match error.kind() {
        io::ErrorKind::OutOfMemory => Failure::NoMemory,
        _ => Failure::Usage,
    })?;
    words.collect(rt.alloc()).map_err(|_| Failure::NoMemory)
}
