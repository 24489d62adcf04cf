//! What the guard sees of a state.
ghost use Rattle.std.specs.Prelude.{◌≡◌, ℕ, Option, option_map, option_copied, is_some};
ghost use Rattle.object_programs.specs.Guard.{Parts};
ghost use Rattle.object_guard.specs.Parts.{fixed_part};

use gem_object::{Object, Oid};

/// A state that shows its objects by their names. The guard sees of each its fixed part alone: its
/// class, the kind of its body, and what of a class is fixed.
pub trait Sees {
    /// The fixed part of the object of each name, where there is one.
    ghost parts: { Self → Parts };

    /// The object of this name, if there is one. It takes no memory, and touches nothing. What it
    /// holds besides its fixed part isn't told here.
    fn object(&self, oid: Oid) -> Option<&Object>
        ensures { option_map fixed_part (option_copied result) ≡ parts self.now oid };
}
