//! The numbers of a load.
ghost use Rattle.std.specs.Prelude.{◌≡◌, ◌≤◌};
ghost use Rattle.load_maker.specs.Numbers.{IsSeed, next_state, number_of};

const MULTIPLIER: u64 = 1_103_515_245;

const INCREMENT: u64 = 12_345;

const MODULUS: u64 = 1 << 31;

// Gives the numbers of a load, one after another.
#[derive(Drop)]
pub(crate) struct Generator {
    state: u32,
    ghost in_range: { state ≤ 2147483647 },
}

impl Generator {
    pub(crate) fn from(seed: u32) -> Generator
        requires { IsSeed seed }
        ensures { result.state ≡ seed }
    {
        Generator { state: seed }
    }

    // The next number, from 1 to 9.
    pub(crate) fn draw(&mut self) -> u32
        ensures state { self.new.state ≡ next_state self.old.state }
        ensures number { result ≡ number_of self.new.state }
    {
        let state = (MULTIPLIER * u64::from(self.state) + INCREMENT) % MODULUS;
        self.state = state as u32;
        1 + self.state / 65_536 % 9
    }
}
