//! The kinds of classes.
ghost use Rattle.std.specs.Prelude.{◌≡◌};
ghost use Rattle.gem_object.specs.Kinds.{kind_number, fits};

use crate::body::Body;

/// Which body the instances of a class have. The order is that of the numbers, from 0 to 10.
#[derive(Clone, Copy, Debug, PartialEq, Eq, PartialOrd, Ord, Hash)]
pub enum Kind {
    /// No object is an instance of the class, but classes themselves and the transcript.
    None = 0,
    /// Named slots.
    Plain = 1,
    /// Named slots, and then any number of others.
    Indexed = 2,
    /// Bytes.
    Bytes = 3,
    /// Pairs, in the order in which they were put.
    Dict = 4,
    /// The rights that a segment gives.
    Segment = 5,
    /// A user.
    User = 6,
    /// A counter whose updates are merged.
    Counter = 7,
    /// A bag whose updates are merged.
    Bag = 8,
    /// A dictionary whose updates are merged.
    RcDict = 9,
    /// A queue whose updates are merged.
    Queue = 10,
}

impl Kind {
    /// The number, from 0 to 10.
    pub fn number(self) -> u8
        ensures { result ≡ kind_number self }
    {
        self as u8
    }

    /// Whether instances of a class of this kind have such a body. It takes no memory.
    pub fn fits(self, body: &Body) -> bool
        ensures { result ≡ fits self body.now }
    {
        match body {
            Body::Plain(_) => self == Kind::Plain || self == Kind::Indexed,
            Body::Bytes(_) => self == Kind::Bytes,
            Body::Dict(_) => self == Kind::Dict,
            Body::Class(_) => false,
            Body::Segment(_) => self == Kind::Segment,
            Body::User(_) => self == Kind::User,
            Body::Counter(_) => self == Kind::Counter,
            Body::Bag(_) => self == Kind::Bag,
            Body::RcDict(_) => self == Kind::RcDict,
            Body::Queue(_) => self == Kind::Queue,
        }
    }
}
