//! One scope: the names of its variables, and their values.
ghost use Rattle.std.specs.Prelude.{◌≡◌, ◌++◌, get_or, set, IfOk};
ghost use Rattle.gem_object.specs.declared.value.Value.TheVariants.{Nil};

use gem_object::{Text, Value};
use std::alloc::AllocError;
use std::marker::Model;

/// The names of a scope's variables: the parameters, and then the temporaries.
#[derive(Drop)]
pub(crate) struct ScopeNames {
    pub(crate) names: Vec<Text>,
}

impl Model for ScopeNames {
    ghost use Rattle.std.specs.Prelude.{List};
    ghost use Rattle.gem_object.specs.texts.Bytes.{Bytes};

    ghost Value = { List Bytes };

    ghost view = { λ scope. scope.names.items };
}

/// The values of a scope's variables, in the order of their names.
#[derive(Drop)]
pub(crate) struct Variables {
    pub(crate) values: Vec<Value>,
}

impl Model for Variables {
    ghost use Rattle.std.specs.Prelude.{List};
    ghost use Rattle.std.specs.Coded.{coded_list};
    ghost use Rattle.gem_object.specs.declared.value.Value.{Value as AValue};
    ghost use Rattle.gem_object.specs.contracts.value.Value as value;

    ghost Value = { List AValue };

    ghost coded = { coded_list value.the_row.coded };

    ghost view = { λ scope. scope.values.items };
}

impl Clone for ScopeNames {
    ghost is_clone = { λ scope copy. copy ≡ scope };

    fn clone(&self) -> Result<ScopeNames, AllocError> {
        Ok(ScopeNames {
            names: copy_texts(&self.names)?,
        })
    }
}

fn copy_texts(texts: &Vec<Text>) -> Result<Vec<Text>, AllocError>
    ensures { IfOk result (λ copies. copies.items ≡ texts.now.items) }
{
    texts.clone()
}

impl Variables {
    /// A copy of the value at this index, and nil where there is none.
    pub(crate) fn value(&self, index: usize) -> Result<Value, AllocError>
        ensures { IfOk result (λ value. value ≡ get_or self.now index Nil) }
    {
        if index < self.values.len() {
            self.values[index].clone()
        } else {
            Ok(Value::Nil)
        }
    }

    /// Puts a value at this index, where there is one.
    pub(crate) fn put(&mut self, index: usize, value: Value)
        ensures { self.new ≡ set self.old index value }
    {
        if index < self.values.len() {
            self.values[index] = value;
        }
    }
}

impl ScopeNames {
    /// The names of these parameters and temporaries.
    pub(crate) fn of(params: &Vec<Text>, temps: &Vec<Text>) -> Result<ScopeNames, AllocError>
        ensures { IfOk result (λ scope. scope ≡ params.now.items ++ temps.now.items) }
    {
        Ok(ScopeNames {
            names: joined(copy_texts(params)?, temps)?,
        })
    }
}

/// The names, and then copies of these.
fn joined(names: Vec<Text>, more: &Vec<Text>) -> Result<Vec<Text>, AllocError>
    ensures { IfOk result (λ all. all.items ≡ names.items ++ more.now.items) }
{
    let mut all = names;
    for name in more {
        all.push(name.clone()?)?;
    }
    Ok(all)
}
