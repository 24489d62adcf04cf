//! What is kept beside a method.
ghost use Rattle.gem_object.specs.declared.body.MethodCode.{MethodCode};

/// What whoever runs methods keeps beside one that was found: mostly its code, compiled.
pub trait MethodCodeKept: Drop {
    /// It is that of this method.
    ghost is_of: { Self → MethodCode → Type 0 };
}
