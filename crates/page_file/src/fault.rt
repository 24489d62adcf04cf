//! Why a checkpoint wasn't made.
ghost use Rattle.std.specs.Prelude.{◌≡◌};
ghost use Rattle.extent_plan.specs.declared.plan.PlanFault.TheVariants as plans;
ghost use Rattle.page_file.specs.Changing.{check_fault};

use extent_plan::PlanFault;
use gem_io::Failed;

/// Why a checkpoint wasn't made.
#[derive(Clone, Copy, Debug, PartialEq, Eq)]
pub enum CheckFault {
    /// The pages at the front, those that the current root uses and those that would be written are
    /// more than an extent may have. Nothing was done.
    Full {
        /// How many they are.
        pages: u64,
    },
    /// The disk failed. The extent has to be opened again.
    Disk,
    /// Memory ran out, or the pages are 2^64 - 1 and more, which no memory holds. Nothing was done.
    NoMemory,
}

// A count at the end of its type may stand for a greater one; no memory holds so many pages.
fn full(pages: u64) -> CheckFault
    ensures { result ≡ check_fault (plans.Full pages) }
{
    if pages < u64::MAX {
        CheckFault::Full { pages }
    } else {
        CheckFault::NoMemory
    }
}

impl From<Failed> for CheckFault {
    ghost use Rattle.page_file.specs.declared.fault.CheckFault.TheVariants as faults;

    ghost from_gives = { λ _ e. e ≡ faults.Disk };

    fn from(_e: Failed) -> CheckFault {
        CheckFault::Disk
    }
}

impl From<PlanFault> for CheckFault {
    ghost use Rattle.page_file.specs.Changing.{check_fault};

    ghost from_gives = { λ fault e. e ≡ check_fault fault };

    fn from(fault: PlanFault) -> CheckFault {
        match fault {
            PlanFault::Full { pages } => full(pages),
            PlanFault::NoMemory => CheckFault::NoMemory,
        }
    }
}
