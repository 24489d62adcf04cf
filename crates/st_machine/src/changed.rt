//! What came of an instruction that changes objects, where that may be known.
ghost use Rattle.std.specs.Prelude.{◌≡◌, ℕ, IfOk};
ghost use Rattle.st_machine.specs.Changed.{IsChanged, ChangedTurned};
ghost use Rattle.st_machine.specs.Lacks.{LackTurned};
ghost use Rattle.st_machine.specs.Led.{IfDone, IfLeft, TurnsForward};
ghost use Rattle.st_machine.specs.declared.changed.Changed.TheVariants.{Unknown};

use crate::flow::{Turn, Turned};
use crate::lack::Lack;
use crate::places::next_of;
use std::alloc::AllocError;

/// What came of an instruction that changes objects, where that may be known. It is a small number,
/// which a call that isn't inlined answers without a place in memory.
#[derive(Clone, Copy, Debug)]
pub(crate) enum Changed {
    /// It was carried out, and what it answers stands where it belongs.
    Stands,
    /// A unit is lacking for it: E13.
    NoUnit,
    /// Room is lacking in the object: E17.
    TooLarge,
    /// Memory is lacking.
    NoMemory,
    /// It isn't known, and nothing has changed.
    Unknown,
}

impl Changed {
    /// What came of it where this is lacking.
    pub(crate) fn lacking(lack: Lack) -> Changed
        ensures { (place : ℕ) → IsChanged result place (LackTurned lack) }
    {
        match lack {
            Lack::Unit => Changed::NoUnit,
            Lack::Room => Changed::TooLarge,
            Lack::Memory => Changed::NoMemory,
        }
    }

    /// What the instruction at a place comes to of which this came. Where it isn't known it is left,
    /// with the place of what answers a message, if that is known.
    #[inline(always)]
    pub(crate) fn turned(self, place: usize, known: Option<usize>) -> Turned
        ensures done { IfDone result (ChangedTurned self place) }
        ensures forward { IfDone result (λ turned. IfOk turned (TurnsForward place)) }
        ensures left { IfLeft result (λ at. (self ≡ Unknown) × (at ≡ known)) }
    {
        if let Changed::Stands = self {
            return match next_of(place) {
                Ok(next) => Turned::Done(Ok(Turn::Goes(next))),
                Err(error) => Turned::Done(Err(error)),
            };
        }
        match self {
            Changed::Stands => unreachable!(),
            Changed::NoUnit => Turned::Done(Ok(Turn::NoUnit)),
            Changed::TooLarge => Turned::Done(Ok(Turn::TooLarge)),
            Changed::NoMemory => Turned::Done(Err(AllocError)),
            Changed::Unknown => Turned::Left(known),
        }
    }
}
