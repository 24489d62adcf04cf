//! What a commit changes.
ghost use Rattle.std.specs.Prelude.{◌≡◌, ◌^◌, ◌-◌, min, sum_by};
ghost use Rattle.gem_record.specs.Effects.{changed_size, effect_size, log_record_size};

use crate::by_name::ByName;
use gem_object::{Object, Oid};

/// What a commit changes in the image: the objects that are new or changed, as they are after it.
#[derive(Debug, Drop)]
pub struct Effect {
    /// The number of the commit.
    pub number: u64,
    /// The objects.
    pub objects: ByName<Object>,
}

impl Effect {
    /// The bytes of the effect where it is stored. The number stays at 2^64 - 1 once it is there.
    /// It takes no memory.
    pub fn size(&self) -> u64
        ensures { result ≡ min (effect_size self.now) (2 ^ 64 - 1) }
    {
        total_size(self.objects.as_slice()).saturating_add(4)
    }

    /// The bytes of the effect's record in the log, in the same way.
    pub fn log_record_size(&self) -> u64
        ensures { result ≡ min (log_record_size self.now) (2 ^ 64 - 1) }
    {
        self.size().saturating_add(14)
    }
}

// The bytes of all objects and their names.
fn total_size(objects: &[(Oid, Object)]) -> u64
    ensures { result ≡ min (sum_by changed_size objects.now) (2 ^ 64 - 1) }
{
    let mut sum = 0u64;
    for (_, object) in objects {
        sum = sum.saturating_add(object.size().saturating_add(8));
    }
    sum
}
