//! Values by the names of objects.
ghost use Rattle.std.specs.Prelude.{◌≡◌, is_some, option_copied};
ghost use Rattle.gem_record.specs.Names.{AscendByName, under};

use gem_object::Oid;
use sorted_pairs::place;
use std::marker::Model;

/// Values, each under the name of an object, in ascending order of the names. A contract sees the
/// list of the pairs of a name, by its number, and a value.
#[derive(Debug, Drop)]
pub struct ByName<T> {
    entries: Vec<(Oid, T)>,
}

impl<T> Model for ByName<T> {
    ghost use Rattle.std.specs.Prelude.{ℕ, List};
    ghost use Rattle.std.specs.Coded.{coded_list, coded×, coded_ℕ};
    ghost use Rattle.gem_record.specs.Names.{AscendByName};

    ghost Value = { List (ℕ × T) };

    ghost coded = { coded_list (coded× coded_ℕ T.code) };

    ghost view = { λ by_name. by_name.entries.items };

    ghost invariant = { λ by_name. AscendByName by_name.entries.items };
}

impl<T> ByName<T> {
    /// The pairs, whose names ascend strictly. It keeps the vector, so it takes no memory.
    pub fn of(entries: Vec<(Oid, T)>) -> ByName<T>
        requires { AscendByName entries.items }
        ensures { result ≡ entries.items }
    {
        ByName { entries }
    }

    /// The pairs, in the order of the names.
    pub fn as_slice(&self) -> &[(Oid, T)]
        ensures entries { result.now ≡ self.now }
        ensures in_order { AscendByName self.now }
    {
        self.entries.as_slice()
    }

    /// What stands under the name. It is a binary search; the contract doesn't say how many names
    /// are compared.
    pub fn find(&self, oid: Oid) -> Option<&T>
        ensures { option_copied result ≡ under oid self.now }
    {
        under(&self.entries, oid)
    }

    /// Whether something stands under the name.
    pub fn contains(&self, oid: Oid) -> bool
        ensures { result ≡ is_some (under oid self.now) }
    {
        self.find(oid).is_some()
    }

    /// Gives the pairs back. It takes no memory.
    pub fn into_entries(self) -> Vec<(Oid, T)>
        ensures entries { result.items ≡ self }
        ensures in_order { AscendByName self }
    {
        self.entries
    }
}

fn under<T>(entries: &[(Oid, T)], oid: Oid) -> Option<&T>
    requires { AscendByName entries.now }
    ensures { option_copied result ≡ under oid entries.now }
{
    match place(entries, &oid) {
        Ok(at) => Some(&entries[at].1),
        Err(_) => None,
    }
}
