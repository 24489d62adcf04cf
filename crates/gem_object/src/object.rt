//! Objects.
ghost use Rattle.std.specs.Prelude.{◌≡◌};

use crate::body::Body;
use gem_value::Oid;
use std::alloc::AllocError;

/// An object of an image.
#[derive(Debug, Drop)]
pub struct Object {
    /// The name of its class.
    pub class: Oid,
    /// The name of the segment in which it lies.
    pub segment: Oid,
    /// The number of the last commit that changed it, or 0.
    pub changed: u64,
    /// What it holds.
    pub body: Body,
}

impl Clone for Object {
    ghost is_clone = { λ object copy. copy ≡ object };

    fn clone(&self) -> Result<Object, AllocError> {
        Ok(Object {
            class: self.class,
            segment: self.segment,
            changed: self.changed,
            body: self.body.clone()?,
        })
    }
}
