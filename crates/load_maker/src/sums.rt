//! What the numbers of a load add up to.
ghost use Rattle.std.specs.Prelude.{◌≡◌, ◌≤◌, ◌*◌, sum};
ghost use Rattle.load_maker.specs.Numbers.{IsSeed, IsSessionCount, IsRoundCount, round_numbers, state_after, load_sum};

use crate::generator::Generator;

/// What all numbers of a load add up to.
pub fn load_sum(seed: u32, sessions: u32, rounds: u32) -> u32
    requires seed { IsSeed seed }
    requires sessions { IsSessionCount sessions }
    requires rounds { IsRoundCount rounds }
    ensures { result ≡ load_sum seed sessions rounds }
{
    let mut generator = Generator::from(seed);
    let mut total = 0;
    for _ in 0..sessions {
        total += session_sum(&mut generator, rounds);
    }
    total
}

// What the numbers of one session add up to.
fn session_sum(generator: &mut Generator, rounds: u32) -> u32
    requires { IsRoundCount rounds }
    ensures sum { result ≡ sum (round_numbers rounds generator.old.state) }
    ensures bound { result ≤ 9 * rounds }
    ensures state { generator.new.state ≡ state_after rounds generator.old.state }
{
    let mut total = 0;
    for _ in 0..rounds {
        total += generator.draw();
    }
    total
}
