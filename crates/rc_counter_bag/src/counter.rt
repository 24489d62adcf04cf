//! The counter.
ghost use Rattle.std.specs.Prelude.{◌≡◌, ◌*◌, ◌^◌, length, pos, neg_ℤ, ◌≤ℤ◌, Some, None, MatchResult};
ghost use Rattle.rc_counter_bag.specs.Counter.{small_integer, updated, merged, total};

use std::error::Error;
use std::fmt;
use texts::{LARGEST_INTEGER, SMALLEST_INTEGER};

/// A number that sessions raise and lower side by side.
#[derive(Clone, Copy, Debug, PartialEq, Eq)]
pub struct Counter {
    /// An integer of the language after each update and merge.
    pub value: i64,
}

/// The sum isn't a SmallInteger, an integer of the language.
#[derive(Clone, Copy, Debug, PartialEq, Eq)]
pub struct CounterRange;

impl fmt::Display for CounterRange {
    ghost use Rattle.std.specs.Prelude.{codes};

    ghost output = { λ _. Some (codes "the counter leaves the range of SmallInteger") };

    fn fmt<W: fmt::Write>(&self, f: &mut fmt::Formatter<W>) -> fmt::Result {
        f.write_str("the counter leaves the range of SmallInteger")
    }
}

impl Error for CounterRange {}

impl Counter {
    /// The counter raised by this number.
    ///
    /// `CounterRange`: the sum isn't a SmallInteger.
    pub fn apply(self, by: i64) -> Result<Counter, CounterRange>
        ensures { MatchResult result
            (λ counter. updated by self.value ≡ Some counter.value)
            (λ _. updated by self.value ≡ None) }
    {
        small(i128::from(self.value) + i128::from(by))
    }

    /// What the updates, made by a session at its view, make of the counter at the commit's place:
    /// its value plus their sum.
    ///
    /// `CounterRange`: the result isn't a SmallInteger, whatever the sums on the way are.
    pub fn merge(
        at_view: Counter,
        at_place: Counter,
        updates: &[i64],
    ) -> Result<Counter, CounterRange>
        ensures { MatchResult result
            (λ counter. merged at_view.value at_place.value updates.now ≡ Some counter.value)
            (λ _. merged at_view.value at_place.value updates.now ≡ None) }
    {
        small(i128::from(at_place.value) + sum(updates))
    }
}

// The counter of this value, where it is a SmallInteger.
fn small(value: i128) -> Result<Counter, CounterRange>
    ensures { MatchResult result
        (λ counter. small_integer value ≡ Some counter.value)
        (λ _. small_integer value ≡ None) }
{
    if i128::from(SMALLEST_INTEGER) <= value && value <= i128::from(LARGEST_INTEGER) {
        Ok(Counter {
            value: value as i64,
        })
    } else {
        Err(CounterRange)
    }
}

// The sum of the updates. It fits: there are fewer than 2^64 of them.
fn sum(updates: &[i64]) -> i128
    ensures value { result ≡ total updates.now }
    ensures high { result ≤ℤ pos (2 ^ 63 * length updates.now) }
    ensures low { neg_ℤ (pos (2 ^ 63 * length updates.now)) ≤ℤ result }
{
    let mut sum = 0;
    for by in updates {
        sum += i128::from(*by);
    }
    sum
}
