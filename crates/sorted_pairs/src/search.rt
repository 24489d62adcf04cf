//! The search for a key, and the test that keys ascend.
ghost use Rattle.std.specs.Prelude.{◌↔◌, length, IsTrue, IfOk, IfErr};
ghost use Rattle.std.specs.List.Sorted.{IsSearchInRange};
ghost use Rattle.sorted_pairs.specs.Place.{Ascends, StandsAt, FitsAt};

/// Where the key stands among the pairs, for a look-up or an edit there. The keys must ascend
/// strictly, which `ascend` tests.
///
/// `Ok`: the place of the pair whose key compares as equal to this one; the two may still differ.
/// `Err`: the place where a pair of this key would stand, which may be after the last. The keys
/// before it are below this one, and those from it on above.
///
/// It is a binary search; the contract doesn't say how many keys are compared.
pub fn place<K: Ord, T>(pairs: &[(K, T)], key: &K) -> Result<usize, usize>
    requires { Ascends K.cmp pairs.now }
    ensures in_range { IsSearchInRange result (length pairs.now) }
    ensures stands { IfOk result (StandsAt K.cmp key.now pairs.now) }
    ensures fits { IfErr result (FitsAt K.cmp key.now pairs.now) }
{
    pairs.binary_search_by(|pair| pair.0.cmp(key))
}

/// Whether each key is below the next, as `place` needs it: not where a key stands twice. The
/// values don't count.
///
/// The contract doesn't say how many keys are compared.
pub fn ascend<K: Ord, T>(pairs: &[(K, T)]) -> bool
    ensures { IsTrue result ↔ Ascends K.cmp pairs.now }
{
    for at in 1..pairs.len() {
        if !pairs[at - 1].0.cmp(&pairs[at].0).is_lt() {
            return false;
        }
    }
    true
}
