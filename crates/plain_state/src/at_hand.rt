//! Where the objects stand that were asked for lately.
ghost use Rattle.std.specs.Prelude.{◌≡◌, ◌≤◌, ◌+◌, ◌^◌, ℕ, Some, None, nat_eq, option_copied};
ghost use Rattle.plain_state.specs.AtHand.{spot_at, IsKept, IsLeft};
ghost use Rattle.plain_state.specs.declared.at_hand.Spot.{Spot};

use gem_object::Object;
use std::alloc::Global;
use std::sync::Arc;

/// Where the object of a name stands.
#[derive(Drop)]
pub(crate) enum Spot {
    /// Among the changed objects, mostly at this place.
    Changed(usize),
    /// Not among them: what it is by the images, and whether both have a reduced-conflict one.
    Before(Arc<Object>, bool),
}

/// A name, and where its object stands.
#[derive(Drop)]
pub(crate) struct Near {
    pub(crate) number: u64,
    pub(crate) spot: Spot,
}

/// Names that were asked for lately, each found by its lowest bits. Of two names with the same ones
/// the later counts. There is room for 1,024.
#[derive(Drop)]
pub(crate) struct AtHand {
    pub(crate) places: [u16; 1024],
    pub(crate) spots: Vec<Near>,
}

impl AtHand {
    /// Nothing is at hand. It takes no memory.
    pub(crate) fn new(alloc: Global) -> AtHand
        ensures { (number : ℕ) → spot_at result number ≡ None }
    {
        AtHand {
            places: [u16::MAX; 1024],
            spots: Vec::new(alloc),
        }
    }

    /// Where the object of this name stands, if that is known.
    #[inline(always)]
    pub(crate) fn find(&self, number: u64) -> Option<&Spot>
        ensures { option_copied result ≡ spot_at self.now number }
    {
        let at = self.places[(number % 1024) as usize] as usize;
        let near = self.spots.get(at)?;
        if near.number == number {
            Some(&near.spot)
        } else {
            None
        }
    }

    /// Keeps where the object of this name stands. What was kept of it before is forgotten, also
    /// where there is no memory.
    pub(crate) fn keep(&mut self, number: u64, spot: Spot)
        ensures { (other : ℕ) (kept : Spot) → spot_at self.new other ≡ Some kept
            → IsKept (nat_eq other number) spot kept (spot_at self.old other) }
    {
        let place = (number % 1024) as usize;
        let at = self.places[place] as usize;
        let near = Near { number, spot };
        let count = self.spots.len();
        if at < count {
            self.spots[at] = near;
            return;
        }
        if count < 1024 && self.spots.push(near).is_ok() {
            self.places[place] = count as u16;
        }
    }

    /// Keeps where the object of this name stands, if something is kept of it.
    fn renew(&mut self, number: u64, spot: Spot)
        ensures { (other : ℕ) (kept : Spot) → spot_at self.new other ≡ Some kept
            → IsKept (nat_eq other number) spot kept (spot_at self.old other) }
    {
        if self.find(number).is_some() {
            self.keep(number, spot);
        }
    }
}

/// Keeps that the objects of so many names from this one on are changed ones, the first of them at
/// this place. Of a name that isn't at hand nothing is kept.
pub(crate) fn keep_all(hand: &mut AtHand, first: u64, from: usize, count: usize)
    requires { first + count ≤ 2 ^ 48 }
    ensures { (other : ℕ) (kept : Spot) → spot_at hand.new other ≡ Some kept
        → IsLeft first (first + count) other kept (spot_at hand.old other) }
{
    for step in 0..count {
        hand.renew(
            first + step as u64,
            Spot::Changed(from.saturating_add(step)),
        );
    }
}
