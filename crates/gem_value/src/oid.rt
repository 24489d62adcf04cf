//! The names of objects.
ghost use Rattle.std.specs.Prelude.{◌≡◌, ◌^◌, ◌<◌, Some, SomeIff};
ghost use Rattle.gem_value.specs.Oid.{oid_number, serial_of, counter_of, oid_text};

use std::fmt;
use std::marker::Model;

/// The name of an object: a number below 2^48, which is a serial times 2^24 and a counter. The
/// serial tells sessions apart and is 0 for the objects of the kernel; the counter tells the
/// objects of one serial apart.
///
/// A contract sees the number. Names are compared by it, so by the serial and then by the counter.
/// As text a name is `serial:counter` in decimal.
#[derive(Clone, Copy, Debug, PartialEq, Eq, PartialOrd, Ord, Hash)]
pub struct Oid {
    number: u64,
}

impl Model for Oid {
    ghost use Rattle.std.specs.Prelude.{ℕ, ◌^◌, ◌<◌};

    ghost Value = { ℕ };

    ghost view = { λ oid. oid.number };

    ghost invariant = { λ oid. oid.number < 2 ^ 48 };

    ghost inverse = { λ number. record { number = number } };
}

impl Oid {
    /// The name with this number, as it is read from a store. None exactly from 2^48 on.
    pub fn of(number: u64) -> Option<Oid>
        ensures { SomeIff result (number < 2 ^ 48) number }
    {
        if number < 1 << 48 {
            Some(Oid { number })
        } else {
            None
        }
    }

    /// The name of this serial and counter, both below 2^24.
    pub fn from_parts(serial: u32, counter: u32) -> Oid
        requires serial { serial < 2 ^ 24 }
        requires counter { counter < 2 ^ 24 }
        ensures { result ≡ oid_number serial counter }
    {
        Oid {
            number: (serial as u64) * (1 << 24) + counter as u64,
        }
    }

    /// The number, below 2^48.
    pub fn number(self) -> u64
        ensures number { result ≡ self }
        ensures bound { result < 2 ^ 48 }
    {
        self.number
    }

    /// The serial, below 2^24.
    pub fn serial(self) -> u32
        ensures serial { result ≡ serial_of self }
        ensures bound { result < 2 ^ 24 }
    {
        (self.number / (1 << 24)) as u32
    }

    /// The counter, below 2^24.
    pub fn counter(self) -> u32
        ensures counter { result ≡ counter_of self }
        ensures bound { result < 2 ^ 24 }
    {
        (self.number % (1 << 24)) as u32
    }
}

impl fmt::Display for Oid {
    ghost output = { λ oid. Some (oid_text oid) };

    fn fmt<W: fmt::Write>(&self, f: &mut fmt::Formatter<W>) -> fmt::Result {
        let (serial, counter) = (self.serial(), self.counter());
        write!(f, "{serial}:{counter}")
    }
}
