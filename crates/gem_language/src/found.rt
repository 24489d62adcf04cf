//! What a look-up finds.

use gem_object::{MethodCode, Oid};

/// A method that a look-up found.
#[derive(Debug, Drop)]
pub struct Found {
    /// What it does.
    pub code: MethodCode,
    /// The class that holds it.
    pub holder: Oid,
    /// Whether it stands on the class side.
    pub class_side: bool,
}
