//! Frames without scopes.
ghost use Rattle.std.specs.Prelude.{◌≡◌, []};

use gem_object::{Oid, Value};
use st_locals::{Frame, frame_without_scopes};
use std::alloc::{AllocError, Global};
use std::marker::Model;

/// What an activation knows but for its scopes, which stand on a stack that all activations share.
/// Contracts see a frame that has none.
#[derive(Drop)]
pub(crate) struct Outline {
    frame: Frame,
}

impl Model for Outline {
    ghost use Rattle.std.specs.Prelude.{[]};
    ghost use Rattle.tree_meaning.specs.Place.{Frame as TreeFrame};

    ghost Value = { TreeFrame };

    ghost view = { λ outline. record {
      scopes = [];
      receiver = outline.frame.receiver;
      home = outline.frame.home;
      holder = outline.frame.holder;
      class_side = outline.frame.class_side;
    } };
}

impl Outline {
    /// The outline of an activation with this receiver, of which this is the number of the
    /// activation from which `^` answers: this class holds the method, on its class side or not. It
    /// takes no memory.
    pub(crate) fn of(
        alloc: Global,
        receiver: Value,
        home: u64,
        holder: Oid,
        class_side: bool,
    ) -> Outline
        ensures { result ≡ record {
          scopes = [];
          receiver = receiver;
          home = home;
          holder = holder;
          class_side = class_side;
        } }
    {
        Outline {
            frame: frame_without_scopes(alloc, holder, class_side, receiver, home),
        }
    }

    /// A frame with what a look-up asks of one.
    pub(crate) fn frame(&self) -> &Frame
        ensures receiver { result.now.receiver ≡ self.now.receiver }
        ensures holder { result.now.holder ≡ self.now.holder }
        ensures class_side { result.now.class_side ≡ self.now.class_side }
    {
        &self.frame
    }

    /// What `self` is.
    pub(crate) fn receiver(&self) -> &Value
        ensures { result.now ≡ self.now.receiver }
    {
        self.frame.receiver()
    }

    /// The number of the activation from which `^` answers.
    pub(crate) fn home(&self) -> u64
        ensures { result ≡ self.now.home }
    {
        self.frame.home()
    }
}

impl Clone for Outline {
    ghost is_clone = { λ outline copy. copy ≡ outline };

    fn clone(&self) -> Result<Outline, AllocError> {
        Ok(Outline {
            frame: self.frame.clone()?,
        })
    }
}
