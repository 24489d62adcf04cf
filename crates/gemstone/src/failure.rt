//! Why the program fails, and what it says then.
ghost use Rattle.std.specs.Prelude.{◌≡◌, None, Some, MatchResult};
ghost use Rattle.gemstone.specs.Failure.{failure_of, number_of};

use gem_server::Status;
use stone_store::StoreFlaw;
use thiserror::Error;

/// Why the program ends with a status that isn't 0. Its text is the line on standard error; no
/// clause says what it is, the test below does.
#[derive(Clone, Copy, Debug, Drop, PartialEq, Eq, Error)]
pub enum Failure {
    /// The words of the command line are none that the program knows.
    #[error("gemstone: usage")]
    Usage,
    /// The script breaks this rule, first at this line, from 1. Line 0 is the script as a whole.
    #[error("gemstone: script line {line} rule S{rule}")]
    Script { line: u32, rule: u8 },
    /// The two files are no store, for this first flaw of them.
    #[error("gemstone: not a store: {flaw}")]
    NotStore { flaw: StoreFlaw },
    /// The image of the store has no room for so many sessions from this serial on.
    #[error("gemstone: serials used: base {base} sessions {sessions}")]
    SerialsUsed { base: u32, sessions: u32 },
    /// A store was to be made of files of these lengths, in bytes.
    #[error("gemstone: not empty: extent {extent} log {log}")]
    NotEmpty { extent: u64, log: u64 },
    /// Standard input failed.
    #[error("gemstone: read fault")]
    ReadFault,
    /// A file of the store failed.
    #[error("gemstone: disk fault")]
    DiskFault,
    /// Standard output failed.
    #[error("gemstone: write fault")]
    WriteFault,
    /// There was no memory.
    #[error("gemstone: no memory")]
    NoMemory,
}

impl Failure {
    /// The exit status.
    pub fn number(self) -> u8
        ensures { result ≡ number_of self }
    {
        match self {
            Failure::Usage => 2,
            Failure::Script { .. } => 3,
            Failure::NotStore { .. } => 4,
            Failure::SerialsUsed { .. } => 5,
            Failure::NotEmpty { .. } => 6,
            Failure::ReadFault => 7,
            Failure::DiskFault => 8,
            Failure::WriteFault => 9,
            Failure::NoMemory => 10,
        }
    }
}

/// How the program ends where a call of the server ended so.
pub fn end_of(status: Status) -> Result<(), Failure>
    ensures { MatchResult result
        (λ _. failure_of status ≡ None)
        (λ failure. failure_of status ≡ Some failure) }
{
    match status {
        Status::Done => Ok(()),
        Status::Usage => Err(Failure::Usage),
        Status::Script { line, rule } => Err(Failure::Script { line, rule }),
        Status::NotStore(flaw) => Err(Failure::NotStore { flaw }),
        Status::SerialsUsed { base, sessions } => Err(Failure::SerialsUsed { base, sessions }),
        Status::NotEmpty { extent, log } => Err(Failure::NotEmpty { extent, log }),
        Status::ReadFault => Err(Failure::ReadFault),
        Status::DiskFault => Err(Failure::DiskFault),
        Status::WriteFault => Err(Failure::WriteFault),
        Status::NoMemory => Err(Failure::NoMemory),
    }
}

#[cfg(test)]
mod tests {
    use super::*;
    use std::test::Fail;
    use tran_log::LogRule;

    #[test]
    fn lines_on_standard_error(rt: HostRuntime) -> Result<(), Fail> {
        let cases = [
            (Failure::Usage, "gemstone: usage", 2),
            (
                Failure::Script { line: 2, rule: 3 },
                "gemstone: script line 2 rule S3",
                3,
            ),
            (
                Failure::NotStore {
                    flaw: StoreFlaw::Log {
                        at: 52,
                        rule: LogRule::Number,
                    },
                },
                "gemstone: not a store: log at 52 rule L2",
                4,
            ),
            (
                Failure::SerialsUsed {
                    base: 16_777_215,
                    sessions: 2,
                },
                "gemstone: serials used: base 16777215 sessions 2",
                5,
            ),
            (
                Failure::NotEmpty { extent: 0, log: 1 },
                "gemstone: not empty: extent 0 log 1",
                6,
            ),
            (Failure::ReadFault, "gemstone: read fault", 7),
            (Failure::DiskFault, "gemstone: disk fault", 8),
            (Failure::WriteFault, "gemstone: write fault", 9),
            (Failure::NoMemory, "gemstone: no memory", 10),
        ];
        for (failure, line, number) in cases {
            assert_eq!(rt; failure.to_string(rt.alloc())?.as_str(), line);
            assert_eq!(rt; failure.number(), number);
        }
        Ok(())
    }
}
