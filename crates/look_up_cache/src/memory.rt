//! What is remembered, without what is claimed of it.
ghost use Rattle.std.specs.Prelude.{◌≡◌, []};
ghost use Rattle.look_up_cache.specs.Memory.{flagged};

use crate::element_message::ElementMessage;
use crate::operator::IntegerOperator;
use gem_language::Found;
use gem_object::{Oid, Text};
use std::alloc::Global;

/// Where a look-up begins: at this class on this side, or past the last one.
#[derive(Drop)]
pub(crate) struct Beginning {
    pub(crate) class: Option<Oid>,
    pub(crate) class_side: bool,
}

impl Beginning {
    /// The same.
    pub(crate) fn copy(&self) -> Beginning
        ensures { result ≡ self.now }
    {
        Beginning {
            class: self.class,
            class_side: self.class_side,
        }
    }
}

/// An object that was read, and where look-ups for it begin; whether it was written, too; and whether
/// look-ups of `at:` and of `at:put:` for it are known to find the primitives of elements.
#[derive(Drop)]
pub(crate) struct Receiver {
    pub(crate) name: Oid,
    pub(crate) start: Beginning,
    pub(crate) written: bool,
    pub(crate) reads_elements: bool,
    pub(crate) puts_elements: bool,
}

impl Receiver {
    /// The same, and that a look-up of this message for it finds the primitive of elements.
    pub(crate) fn answering(&self, message: ElementMessage) -> Receiver
        ensures { result ≡ flagged message self.now }
    {
        match message {
            ElementMessage::At => Receiver {
                start: self.start.copy(),
                reads_elements: true,
                ..*self
            },
            ElementMessage::AtPut => Receiver {
                start: self.start.copy(),
                puts_elements: true,
                ..*self
            },
        }
    }
}

/// A look-up, and what it found; and what is kept beside that.
#[derive(Drop)]
pub(crate) struct Entry<T> {
    pub(crate) start: Beginning,
    pub(crate) selector: Text,
    pub(crate) found: Option<Found>,
    pub(crate) code: Option<T>,
}

/// A name that was looked for among the instance variables of a class, and the slot of the variable
/// of this name, if there is one.
#[derive(Drop)]
pub(crate) struct Variable {
    pub(crate) holder: Oid,
    pub(crate) name: Text,
    pub(crate) slot: Option<usize>,
}

/// A class, and how many slots it and those above it name.
#[derive(Drop)]
pub(crate) struct Count {
    pub(crate) class: Oid,
    pub(crate) named: usize,
}

/// Receivers, look-ups, instance variables and classes, each at a place that its name, or its class
/// and selector or name, tell; all but classes at one of two. At a place stands what came there last.
/// And operators that integers answer by their primitives, each at the place of its number.
#[derive(Drop)]
pub struct Memory<T> {
    pub(crate) receivers: Vec<Option<Receiver>>,
    pub(crate) methods: Vec<Option<Entry<T>>>,
    pub(crate) variables: Vec<Option<Variable>>,
    pub(crate) counts: Vec<Option<Count>>,
    pub(crate) operators: Vec<Option<IntegerOperator>>,
}

impl<T> Memory<T> {
    /// Nothing is remembered. Takes no memory.
    pub(crate) fn empty(alloc: Global) -> Memory<T>
        ensures receivers { result.receivers.items ≡ [] }
        ensures methods { result.methods.items ≡ [] }
        ensures variables { result.variables.items ≡ [] }
        ensures counts { result.counts.items ≡ [] }
        ensures operators { result.operators.items ≡ [] }
    {
        Memory {
            receivers: Vec::new(alloc),
            methods: Vec::new(alloc),
            variables: Vec::new(alloc),
            counts: Vec::new(alloc),
            operators: Vec::new(alloc),
        }
    }
}
