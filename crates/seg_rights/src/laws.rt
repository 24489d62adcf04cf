//! What follows from the definitions alone. Each law is the contract of a function that does
//! nothing.
ghost use Rattle.std.specs.Prelude.{◌≡◌, ◌↔◌, ℕ, List};
ghost use Rattle.seg_rights.specs.Rights.{IsGreatestRight, greatest_right};
ghost use Rattle.seg_rights.specs.declared.right.Right.{Right};
ghost use Rattle.seg_rights.specs.declared.rights.Rights.{Rights};

/// A segment and a user have exactly one right that is the greatest that the segment gives to the
/// user, and it is the one that `greatest_right` names.
pub fn one_greatest<T: Eq>()
    ensures { (rights : Rights T) (user : ℕ) (groups : List T) (right : Right) →
        IsGreatestRight T.eq rights user groups right
        ↔ (right ≡ greatest_right T.eq rights user groups) }
{}
