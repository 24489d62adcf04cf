//! Why a store can't be opened.
ghost use Rattle.std.specs.Prelude.{◌≡◌};
ghost use Rattle.stone_store.specs.Opening.{of_pages, of_log, of_sound};

use extent_pages::{PageFault, PageRule};
use gem_object::Oid;
use image_check::{Rule, SoundFault};
use std::alloc::{AllocError, AllocFailed};
use std::error::Error;
use std::fmt;
use tran_log::{LogFault, LogRule};

/// For what two files are no store. The extent is tried before the log, and the log before the image
/// for which both stand.
#[derive(Clone, Copy, Debug, PartialEq, Eq)]
pub enum StoreFlaw {
    /// The first file is no extent.
    Extent {
        /// The offset of the page in which a rule fails first.
        at: u64,
        /// The rule.
        rule: PageRule,
    },
    /// The second file is no log, or its records don't follow the extent's root.
    Log {
        /// The offset of the gate of the record that breaks the rule, or of the missing gate.
        at: u64,
        /// The rule.
        rule: LogRule,
    },
    /// The image isn't sound.
    Image {
        /// The lowest name at which a rule is broken.
        oid: Oid,
        /// The first rule that is broken there.
        rule: Rule,
    },
}

impl fmt::Display for StoreFlaw {
    ghost use Rattle.std.specs.Prelude.{Some};
    ghost use Rattle.stone_store.specs.FaultText.{flaw_text};

    ghost output = { λ flaw. Some (flaw_text flaw) };

    fn fmt<W: fmt::Write>(&self, f: &mut fmt::Formatter<W>) -> fmt::Result {
        match *self {
            StoreFlaw::Extent { at, rule } => {
                let number = rule.number();
                write!(f, "extent at {at} rule G{number}")
            }
            StoreFlaw::Log { at, rule } => {
                let number = rule.number();
                write!(f, "log at {at} rule L{number}")
            }
            StoreFlaw::Image { oid, rule } => {
                let number = rule.number();
                write!(f, "image at {oid} rule I{number}")
            }
        }
    }
}

impl Error for StoreFlaw {}

/// Why a store can't be opened.
#[derive(Clone, Copy, Debug, PartialEq, Eq)]
pub enum StoreFault {
    /// The files are no store.
    NotStore(StoreFlaw),
    /// The disk failed.
    Disk,
    /// Memory ran out.
    NoMemory,
}

impl fmt::Display for StoreFault {
    ghost use Rattle.std.specs.Prelude.{Some};
    ghost use Rattle.stone_store.specs.FaultText.{fault_text};

    ghost output = { λ fault. Some (fault_text fault) };

    fn fmt<W: fmt::Write>(&self, f: &mut fmt::Formatter<W>) -> fmt::Result {
        match *self {
            StoreFault::NotStore(flaw) => write!(f, "not a store: {flaw}"),
            StoreFault::Disk => f.write_str("disk fault"),
            StoreFault::NoMemory => f.write_str("out of memory"),
        }
    }
}

impl Error for StoreFault {}

impl From<PageFault> for StoreFault {
    ghost use Rattle.stone_store.specs.Opening.{of_pages};

    ghost from_gives = { λ fault e. e ≡ of_pages fault };

    fn from(fault: PageFault) -> StoreFault {
        match fault {
            PageFault::NotPages { at, rule } => {
                StoreFault::NotStore(StoreFlaw::Extent { at, rule })
            }
            PageFault::Disk => StoreFault::Disk,
            PageFault::NoMemory => StoreFault::NoMemory,
        }
    }
}

impl From<LogFault> for StoreFault {
    ghost use Rattle.stone_store.specs.Opening.{of_log};

    ghost from_gives = { λ fault e. e ≡ of_log fault };

    fn from(fault: LogFault) -> StoreFault {
        match fault {
            LogFault::NotLog { at, rule } => StoreFault::NotStore(StoreFlaw::Log { at, rule }),
            LogFault::Disk => StoreFault::Disk,
            LogFault::NoMemory => StoreFault::NoMemory,
        }
    }
}

impl From<SoundFault> for StoreFault {
    ghost use Rattle.stone_store.specs.Opening.{of_sound};

    ghost from_gives = { λ fault e. e ≡ of_sound fault };

    fn from(fault: SoundFault) -> StoreFault {
        match fault {
            SoundFault::Broken { oid, rule } => {
                StoreFault::NotStore(StoreFlaw::Image { oid, rule })
            }
            SoundFault::NoMemory => StoreFault::NoMemory,
        }
    }
}

impl From<AllocError> for StoreFault {
    ghost use Rattle.stone_store.specs.declared.fault.StoreFault.TheVariants as fault;

    ghost from_gives = { λ _ e. e ≡ fault.NoMemory };

    fn from(_e: AllocError) -> StoreFault {
        StoreFault::NoMemory
    }
}
