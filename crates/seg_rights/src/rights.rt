//! The rights that a segment gives, and the one that a user has of them.
ghost use Rattle.std.specs.Prelude.{◌≡◌};
ghost use Rattle.seg_rights.specs.WithGroups.{with_groups};

use crate::groups::Groups;
use crate::right::{Right, greater};

/// The rights that a segment gives: one to its owner, one to each of some groups, and one to
/// everybody.
#[derive(Clone, Debug, Drop)]
pub struct Rights<T> {
    /// The user who owns the segment.
    pub owner: u64,
    /// What the owner is given.
    pub owner_right: Right,
    /// What the groups are given, each for all the users who are in it.
    pub groups: Groups<T>,
    /// What every user is given, the owner too.
    pub world_right: Right,
}

impl<T: Eq> Rights<T> {
    ghost use Rattle.seg_rights.specs.Rights.{IsGreatestRight, greatest_right};

    /// The right of a user who is in the groups of these names: the greatest of the owner's right,
    /// where the user is the owner, of the rights of those groups, and of the world's. It takes no
    /// memory.
    pub fn right_of(&self, user: u64, groups: &[T]) -> Right
        ensures greatest { IsGreatestRight T.eq self.now user groups.now result }
        ensures value { result ≡ greatest_right T.eq self.now user groups.now }
    {
        let right = with_groups(self.world_right, self.groups.as_slice(), groups);
        if user == self.owner {
            greater(right, self.owner_right)
        } else {
            right
        }
    }
}

// The greatest of a right and the rights given to the groups that the user is in.
fn with_groups<T: Eq>(right: Right, given: &[(T, Right)], groups: &[T]) -> Right
    ensures { result ≡ with_groups T.eq groups.now given.now right }
{
    let mut greatest = right;
    for (name, right) in given {
        if groups.contains(name) {
            greatest = greater(greatest, *right);
        }
    }
    greatest
}
