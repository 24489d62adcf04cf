//! What contracts know a shared Stone by.
use std::marker::Brand;

/// Names one shared Stone, for contracts alone: the clock of its events, what it was opened with, and
/// the keeper that it started with.
pub trait Named<K> {
    ghost use Rattle.std.specs.Prelude.{Option};
    ghost use Rattle.gem_clock.specs.Shown.{ClockId};
    ghost use Rattle.gem_meaning.specs.Opened.{Opened};

    ghost clock: { ClockId };

    ghost opened: { Opened };

    ghost keeper: { Option K };
}

impl<K> Named<K> for Brand {
    ghost use Rattle.std.specs.Prelude.{None};
    ghost use Rattle.gem_clock.specs.Shown.{no_clock};
    ghost use Rattle.stone_shared.specs.Shared.{nothing_opened};

    ghost clock = { no_clock };

    ghost opened = { nothing_opened };

    ghost keeper = { None };
}
