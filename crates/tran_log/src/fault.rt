//! Why a log can't be opened.
ghost use Rattle.std.specs.Prelude.{◌≡◌};
ghost use Rattle.tran_log.specs.declared.fault.ReadError.TheVariants.{NoMemory};

use gem_io::Failed;
use std::alloc::{AllocError, AllocFailed};
use std::error::Error;
use std::fmt;

/// What a log must keep. The numbers are from 1 to 5; of a record's rules L5 is tried between L2 and
/// L3.
#[derive(Clone, Copy, Debug, PartialEq, Eq)]
pub enum LogRule {
    /// L1: a record behind an open gate ends within the log.
    Length = 1,
    /// L2: a record's number is one more than that of the record before it, and below 2^63.
    Number = 2,
    /// L3: the bytes of a record's effect are one whole effect.
    Effect = 3,
    /// L4: a byte stands where a gate is due.
    Gate = 4,
    /// L5: a record of format 2 has a mode, whose byte is 0 or 1.
    Mode = 5,
}

impl LogRule {
    ghost use Rattle.tran_log.specs.FaultText.{rule_number};

    /// The number, from 1 to 5.
    pub fn number(self) -> u8
        ensures { result ≡ rule_number self }
    {
        self as u8
    }
}

/// Why a log can't be opened.
#[derive(Clone, Copy, Debug, PartialEq, Eq)]
pub enum LogFault {
    /// Its bytes are no log.
    NotLog {
        /// The offset of the gate of the record that breaks the rule, or of the missing gate.
        at: u64,
        /// The rule.
        rule: LogRule,
    },
    /// The disk failed.
    Disk,
    /// Memory ran out.
    NoMemory,
}

impl fmt::Display for LogFault {
    ghost use Rattle.std.specs.Prelude.{Some};
    ghost use Rattle.tran_log.specs.FaultText.{fault_text};

    ghost output = { λ fault. Some (fault_text fault) };

    fn fmt<W: fmt::Write>(&self, f: &mut fmt::Formatter<W>) -> fmt::Result {
        match *self {
            LogFault::NotLog { at, rule } => {
                let rule = rule.number();
                write!(f, "log byte {at} rule L{rule}")
            }
            LogFault::Disk => f.write_str("disk fault"),
            LogFault::NoMemory => f.write_str("out of memory"),
        }
    }
}

impl Error for LogFault {}

impl From<Failed> for LogFault {
    ghost use Rattle.tran_log.specs.declared.fault.LogFault.TheVariants as faults;

    ghost from_gives = { λ _ e. e ≡ faults.Disk };

    fn from(_e: Failed) -> LogFault {
        LogFault::Disk
    }
}

impl From<AllocError> for LogFault {
    ghost use Rattle.tran_log.specs.declared.fault.LogFault.TheVariants as faults;

    ghost from_gives = { λ _ e. e ≡ faults.NoMemory };

    fn from(_e: AllocError) -> LogFault {
        LogFault::NoMemory
    }
}

impl<T: Drop> From<AllocFailed<T>> for LogFault {
    ghost use Rattle.tran_log.specs.declared.fault.LogFault.TheVariants as faults;

    ghost from_gives = { λ _ e. e ≡ faults.NoMemory };

    fn from(_e: AllocFailed<T>) -> LogFault {
        LogFault::NoMemory
    }
}

// Why the bytes of a log couldn't be read.
#[derive(Debug, Drop)]
pub(crate) enum ReadError {
    NoMemory,
    Rule(LogRule),
}

impl From<AllocError> for ReadError {
    ghost from_gives = { λ _ e. e ≡ NoMemory };

    fn from(_e: AllocError) -> ReadError {
        ReadError::NoMemory
    }
}

impl<T: Drop> From<AllocFailed<T>> for ReadError {
    ghost from_gives = { λ _ e. e ≡ NoMemory };

    fn from(_e: AllocFailed<T>) -> ReadError {
        ReadError::NoMemory
    }
}
