//! What commands come to.
ghost use Rattle.std.specs.Prelude.{◌≡◌};
ghost use Rattle.st_commands.specs.Replies.{not_read_by, told, said, got};

use gem_object::Text;
use object_programs::Fault;
use running_objects::Stop;
use st_parser::ParseFault;
use std::alloc::AllocError;

/// What a command comes to.
#[derive(Debug, Drop)]
pub enum Reply {
    /// Its text has no tree.
    NotRead {
        /// The offset where the text can't go on.
        at: u32,
        /// The number of the rule that it breaks there, 1 to 9.
        rule: u8,
    },
    /// An error ended it.
    Failed(Fault),
    /// A chunk ran, and its value isn't printed.
    Ran,
    /// A chunk ran, and its value is printed so.
    Printed(Text),
    /// The class has the method with this selector.
    Installed(Text),
}

/// The reply to a text without a tree.
///
/// # Errors
///
/// Where memory ran out.
pub fn reply_to_fault(fault: ParseFault) -> Result<Reply, AllocError>
    ensures { result ≡ not_read_by fault }
{
    match fault {
        ParseFault::Rule { at, rule } => Ok(Reply::NotRead { at, rule }),
        ParseFault::NoMemory => Err(AllocError),
    }
}

/// The reply to a chunk that ended so, with what is printed of its value.
///
/// # Errors
///
/// Where memory ran out.
pub fn reply_to_chunk(ended: Result<Option<Text>, Stop>) -> Result<Reply, AllocError>
    ensures { result ≡ told (said ended) }
{
    match ended {
        Ok(None) => Ok(Reply::Ran),
        Ok(Some(text)) => Ok(Reply::Printed(text)),
        Err(stop) => reply_to_stop(stop),
    }
}

/// The reply to an installation that ended so, with the selector.
pub(crate) fn reply_to_method(ended: Result<Text, Stop>) -> Result<Reply, AllocError>
    ensures { result ≡ told (got ended) }
{
    match ended {
        Ok(selector) => Ok(Reply::Installed(selector)),
        Err(stop) => reply_to_stop(stop),
    }
}

/// The reply to a command that stopped so. No value returns further than to its chunk.
///
/// # Errors
///
/// Where memory ran out.
pub fn reply_to_stop(stop: Stop) -> Result<Reply, AllocError>
    ensures { result ≡ told (Err stop) }
{
    match stop {
        Stop::Fails(fault) => Ok(Reply::Failed(fault)),
        Stop::Returns(_, _) => Ok(Reply::Failed(Fault::DeadHome)),
        Stop::NoMemory => Err(AllocError),
    }
}
