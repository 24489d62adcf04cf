//! What the seats at a clock's table know, and the kinds of step that change it.
ghost use Rattle.std.specs.Prelude.{ℕ, List, []};

use atomic_table::{Join, Play, Split, TableRule};
use std::collections::LinkedList;
use std::marker::{Brand, PhantomData};

/// What a seat knows. No value of it is made.
pub struct Known<E> {
    /// Whether it is the pen's seat.
    pub is_pen: bool,
    /// How many authors the clock has.
    pub authors: u32,
    /// The authors that it holds.
    pub held: LinkedList<u32>,
    /// The list as the seat saw it last.
    pub list: LinkedList<(u32, E)>,
    /// Of the stamps that it met since its last load: who they held, and what they had seen.
    pub met: LinkedList<(LinkedList<u32>, LinkedList<(u32, E)>)>,
}

/// The rule of a clock's table. Its key is the number of authors.
pub struct Rule;

impl<E> TableRule<(), Known<E>, u32> for Rule {
    ghost use Rattle.gem_clock.specs.Rule.{Kept, first_known};

    ghost holds = { λ authors. Kept authors };

    ghost first = { λ authors. first_known authors };
}

/// Names the author that a split gives away, which each call picks.
pub trait Giving {
    ghost author: { ℕ };
}

impl Giving for Brand {
    ghost author = { 0 };
}

/// The pen's view is cut in two: the author goes to a new seat.
pub struct Gives<X: Giving>(PhantomData<X>);

impl<E, X: Giving> Split<Known<E>> for Gives<X> {
    ghost use Rattle.gem_clock.specs.Rule.{known_without, known_stamped};

    ghost left = { λ known. known_without X.author known };

    ghost right = { λ known. known_stamped X.author known };
}

/// The pen takes in what a stamp knows.
pub struct Takes;

impl<E> Join<Known<E>> for Takes {
    ghost use Rattle.gem_clock.specs.Rule.{known_joined, known_spent};

    ghost both = { λ known stamp. known_joined known stamp };

    ghost spent = { known_spent };
}

/// The pen compares what the stamps that it met had seen with the list.
pub struct Meets;

impl<E> Play<(), Known<E>> for Meets {
    ghost use Rattle.gem_clock.specs.Rule.{Met};

    ghost then = { λ _ before found after. Met before found after };
}

/// Names the pairs that a step adds, which each call picks.
pub trait Adding<E> {
    ghost pairs: { List (ℕ × E) };
}

impl<E> Adding<E> for Brand {
    ghost pairs = { [] };
}

/// The pen's list grows.
pub struct Adds<X>(PhantomData<X>);

impl<E, X: Adding<E>> Play<(), Known<E>> for Adds<X> {
    ghost use Rattle.gem_clock.specs.Rule.{Added};

    ghost then = { λ _ before found after. Added X.pairs before found after };
}
