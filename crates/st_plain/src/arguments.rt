//! The values of arguments, while they are evaluated.
ghost use Rattle.std.specs.Prelude.{◌≡◌, ◌∷◌, [], reverse, OnOk};

use gem_object::Value;
use std::alloc::{AllocError, Global};
use std::marker::Model;

/// The values of the first arguments of a message. Contracts see the last one first.
#[derive(Drop)]
pub(crate) struct Arguments {
    values: Vec<Value>,
}

impl Model for Arguments {
    ghost use Rattle.std.specs.Prelude.{List, reverse};
    ghost use Rattle.std.specs.Coded.{coded_list};
    ghost use Rattle.gem_object.specs.declared.value.Value.{Value as AValue};
    ghost use Rattle.gem_object.specs.contracts.value.Value as value;

    ghost Value = { List AValue };

    ghost coded = { coded_list value.the_row.coded };

    ghost view = { λ arguments. reverse arguments.values.items };
}

impl Arguments {
    /// No arguments. It takes no memory.
    pub(crate) fn new(alloc: Global) -> Arguments
        ensures { result ≡ [] }
    {
        Arguments {
            values: Vec::new(alloc),
        }
    }

    /// One argument more.
    pub(crate) fn push(&mut self, value: Value) -> Result<(), AllocError>
        ensures { OnOk result (self.new ≡ value ∷ self.old) }
    {
        self.values.push(value)?;
        Ok(())
    }

    /// The values, the first one first.
    pub(crate) fn in_order(self) -> Vec<Value>
        ensures { result.items ≡ reverse self }
    {
        self.values
    }
}
