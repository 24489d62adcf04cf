//! What a session hands over when it commits.
ghost use Rattle.std.specs.Prelude.{◌≡◌};
ghost use Rattle.gem_record.specs.History.{entry_of};

use crate::by_name::ByName;
use crate::mode::Mode;
use crate::oid_list::OidList;
use gem_image::Image;
use gem_object::{Object, Oid, Sequence};
use gem_update::Update;

/// What a session asks to commit: who ran which commands, on which view, and what they did there.
/// That its fields are those of one such run is for whoever makes it to say.
#[derive(Drop)]
pub struct TxnRecord {
    /// The session's number, from 1.
    pub session: u32,
    /// The transaction's number within the session, from 1.
    pub transaction: u32,
    /// The name of the user's profile.
    pub user: Oid,
    /// The number of its first command within the session, from 1.
    pub first_command: u32,
    /// The number of the commit that ends it.
    pub last_command: u32,
    /// The counter in the first name that it drew, or would have drawn. It is from 1 to 2^24.
    pub first_name: u32,
    /// The number of commits in the image that it ran on.
    pub view: u64,
    /// What it is checked for.
    pub mode: Mode,
    /// The image that it ran on.
    pub base: Image,
    /// The objects that it read or wrote. Reduced-conflict objects and those that it made aren't
    /// among them.
    pub touched: OidList,
    /// The objects of the view that it wrote, as it left them.
    pub written: ByName<Object>,
    /// The objects that it made, as it left them.
    pub made: ByName<Object>,
    /// The updates of each reduced-conflict object of the view, in the order in which they were
    /// made.
    pub updates: ByName<Sequence<Update>>,
}

impl TxnRecord {
    /// What the history keeps of this record.
    pub fn entry(&self) -> Entry
        ensures { result ≡ entry_of self.now }
    {
        Entry {
            session: self.session,
            transaction: self.transaction,
            user: self.user,
            first_command: self.first_command,
            last_command: self.last_command,
            first_name: self.first_name,
            view: self.view,
            mode: self.mode,
        }
    }
}

/// An entry of the history: what is kept of a transaction that was committed. The fields are those
/// of its record.
#[derive(Clone, Copy, Debug, PartialEq, Eq)]
pub struct Entry {
    /// The session's number, from 1.
    pub session: u32,
    /// The transaction's number within the session, from 1.
    pub transaction: u32,
    /// The name of the user's profile.
    pub user: Oid,
    /// The number of its first command within the session, from 1.
    pub first_command: u32,
    /// The number of the commit that ended it.
    pub last_command: u32,
    /// The counter in the first name that it drew, or would have drawn. It is from 1 to 2^24.
    pub first_name: u32,
    /// The number of commits in the image that it ran on.
    pub view: u64,
    /// What it is checked for.
    pub mode: Mode,
}
