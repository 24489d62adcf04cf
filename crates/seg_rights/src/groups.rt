//! The groups that a segment names.
ghost use Rattle.std.specs.Prelude.{◌≡◌};

use crate::right::Right;
use std::alloc::AllocError;
use std::marker::Model;

/// The groups to which a segment gives a right of their own, each by its name and with that right.
/// A name may stand twice, and then each of its rights counts.
#[derive(Debug, Drop)]
pub struct Groups<T> {
    items: Vec<(T, Right)>,
}

impl<T> Model for Groups<T> {
    ghost use Rattle.std.specs.Prelude.{List};
    ghost use Rattle.seg_rights.specs.declared.right.Right.{Right};

    ghost Value = { List (T × Right) };

    ghost view = { λ groups. groups.items.items };
}

impl<T> Groups<T> {
    /// The groups, in their order.
    pub fn as_slice(&self) -> &[(T, Right)]
        ensures { result.now ≡ self.now }
    {
        &self.items
    }

    /// The groups, in their order.
    pub fn into_vec(self) -> Vec<(T, Right)>
        ensures { result.items ≡ self }
    {
        self.items
    }
}

impl<T> From<Vec<(T, Right)>> for Groups<T> {
    ghost from_gives = { λ items groups. groups ≡ items.items };

    fn from(items: Vec<(T, Right)>) -> Self {
        Groups { items }
    }
}

impl<T: Clone> Clone for Groups<T> {
    ghost use Rattle.std.specs.List.{AllZip};

    ghost is_clone = { AllZip (λ group copy. T.is_clone group.0 copy.0 × (copy.1 ≡ group.1)) };

    fn clone(&self) -> Result<Self, AllocError> {
        Ok(Groups {
            items: self.items.clone()?,
        })
    }
}
