//! A text that grows at its end.
ghost use Rattle.std.specs.Prelude.{◌≡◌, ◌++◌, [], ◌∷◌, IfOk};
ghost use Rattle.prim_classes.specs.Prints.{short};

use gem_object::Text;
use object_programs::PRINT_LIMIT;
use std::alloc::{AllocError, Global};
use std::marker::Model;

/// A text that grows at its end. A contract sees its bytes.
#[derive(Drop)]
pub struct Growing {
    bytes: Vec<u8>,
}

impl Model for Growing {
    ghost use Rattle.gem_object.specs.texts.Bytes.{Bytes};

    ghost Value = { Bytes };

    ghost view = { λ growing. growing.bytes.items };
}

impl Growing {
    /// The empty text.
    pub fn new(alloc: Global) -> Growing
        ensures { result ≡ [] }
    {
        Growing {
            bytes: Vec::new(alloc),
        }
    }

    /// A copy of a text.
    pub fn copy_of(alloc: Global, text: &Text) -> Result<Growing, AllocError>
        ensures { IfOk result (λ made. made ≡ text.now) }
    {
        Ok(Growing {
            bytes: text.bytes().to_vec(alloc)?,
        })
    }

    /// It with a space and this text behind it, unless that is too long to be printed.
    pub fn joined(self, text: &Text) -> Result<Option<Growing>, AllocError>
        ensures { IfOk result (λ made. made ≡ short (self ++ (32 ∷ text.now))) }
    {
        let mut bytes = self.bytes;
        bytes.push(b' ')?;
        bytes.extend_from_slice(text.bytes())?;
        Ok(Growing { bytes }.short())
    }

    /// It, unless it is too long to be printed.
    pub fn short(self) -> Option<Growing>
        ensures { result ≡ short self }
    {
        if self.bytes.len() as u64 <= PRINT_LIMIT {
            return Some(self);
        }
        None
    }

    /// It as a text.
    pub fn into_text(self) -> Text
        ensures { result ≡ self }
    {
        Text::of(self.bytes)
    }
}
