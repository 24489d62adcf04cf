//! The program without its devices.
ghost use Rattle.std.specs.Prelude.{◌≡◌, drop, map, string_bytes, MatchOption};
ghost use Rattle.program_words.specs.Asked.{files_of};
ghost use Rattle.gem_server.specs.Devices.{seen};
ghost use Rattle.gemstone.specs.Ends.{Ends, NamesFiles, NamesNone};

use crate::failure::{Failure, end_of};
use gem_disk::Disk;
use gem_io::{OpenGate, Sink, Source};
use gem_server::gemstone;
use program_words::{Paths, Usage, Words, read_words};
use std::alloc::Global;
use std::sync::Wait;
use std::thread::Threads;

/// Does what the words of the command line ask for, over the disk of the files that they name, or
/// over any where they name none. The first word is the program's own name, and doesn't count.
pub fn serve<R: Threads + Wait + Sync, S: Source, K: Sink, D: Disk + Send + Drop + 'static>(
    rt: &R,
    alloc: Global,
    words: &[String],
    source: &mut S,
    disk: D,
    sink: &mut K,
) -> Result<(), Failure>
    ensures { Ends D.tells (map string_bytes (drop 1 words.now))
        (seen S.left S.faults source.old source.new)
        (seen K.written K.faults sink.old sink.new) result }
{
    end_of(gemstone(rt, alloc, own_words(words), source, disk, &OpenGate, sink).status)
}

/// The files that the words of the command line name.
pub fn paths_of(words: &[String]) -> Option<Paths<'_>>
    ensures { MatchOption result (NamesNone (map string_bytes (drop 1 words.now)))
        (λ paths. NamesFiles (map string_bytes (drop 1 words.now)) (files_of paths)) }
{
    match read_words(own_words(words)) {
        Ok(Words::Serve(paths)) => paths,
        Ok(Words::Init(paths)) => Some(paths),
        Ok(Words::Check(paths)) => Some(paths),
        Ok(Words::Demo { .. }) | Err(Usage) => None,
    }
}

// The words after the program's own name.
fn own_words(words: &[String]) -> &[String]
    ensures { result.now ≡ drop 1 words.now }
{
    words.get(1..).unwrap_or(&[])
}
