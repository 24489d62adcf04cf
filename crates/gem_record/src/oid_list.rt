//! Lists of names.
ghost use Rattle.std.specs.Prelude.{◌≡◌, ◌↔◌, IsTrue, Contains};
ghost use Rattle.gem_record.specs.Names.{Ascend};

use gem_object::Oid;
use std::marker::Model;

/// Names of objects in ascending order, each once. A contract sees the list of their numbers.
#[derive(Debug, Drop)]
pub struct OidList {
    names: Vec<Oid>,
}

impl Model for OidList {
    ghost use Rattle.std.specs.Prelude.{ℕ, List};
    ghost use Rattle.gem_record.specs.Names.{Ascend};

    ghost Value = { List ℕ };

    ghost view = { λ list. list.names.items };

    ghost invariant = { λ list. Ascend list.names.items };
}

impl OidList {
    /// The list of these names, which ascend strictly. It keeps the vector, so it takes no memory.
    pub fn of(names: Vec<Oid>) -> OidList
        requires { Ascend names.items }
        ensures { result ≡ names.items }
    {
        OidList { names }
    }

    /// The names, in order.
    pub fn as_slice(&self) -> &[Oid]
        ensures names { result.now ≡ self.now }
        ensures in_order { Ascend self.now }
    {
        self.names.as_slice()
    }

    /// Whether the name is in the list. It is a binary search; the contract doesn't say how many
    /// names are compared.
    pub fn contains(&self, oid: Oid) -> bool
        ensures { IsTrue result ↔ Contains self.now oid }
    {
        contains(&self.names, oid)
    }

    /// Gives the names back. It takes no memory.
    pub fn into_names(self) -> Vec<Oid>
        ensures names { result.items ≡ self }
        ensures in_order { Ascend self }
    {
        self.names
    }
}

fn contains(names: &[Oid], oid: Oid) -> bool
    requires { Ascend names.now }
    ensures { IsTrue result ↔ Contains names.now oid }
{
    match names.binary_search(&oid) {
        Ok(_) => true,
        Err(_) => false,
    }
}
