//! What the first way brings to each place.
ghost use Rattle.std.specs.Prelude.{◌≡◌, ◌+◌, ◌<◌, ◌^◌, ℕ, suc, ◌∷◌, ◌++◌, length, replicate, None, slice_get, IfOk, OnOk};
ghost use Rattle.st_code.specs.Ways.{open_line, reach, first_ways, known_of};

use crate::blocks::BlockCode;
use crate::line::Line;
use crate::ways::{Held, Way, start_way, ways_on};
use std::alloc::{AllocError, Global};
use std::collections::VecDeque;

fn nothing_known(alloc: Global, places: usize) -> Result<Vec<Option<Held>>, AllocError>
    ensures { IfOk result (λ known. known.items ≡ replicate places None) }
{
    let mut known = Vec::with_capacity(alloc, places)?;
    for _place in 0..places {
        known.push(None)?;
    }
    Ok(known)
}

fn first_ways(alloc: Global, blocks: &[BlockCode]) -> Result<VecDeque<Way>, AllocError>
    ensures { IfOk result (λ ways. ways.items ≡ first_ways blocks.now) }
{
    let mut ways = VecDeque::new(alloc);
    if let Some(first) = blocks.first() {
        ways.push_back(start_way(alloc, 0, &[], first)?)?;
    }
    Ok(ways)
}

/// The instruction to which the step leads, if no way has come there yet.
fn open_line(lines: &[Option<Line>], known: &[Option<Held>], way: &Way) -> Option<Line>
    ensures { result ≡ open_line way.now.block (slice_get lines.now way.now.to)
        (slice_get known.now way.now.to) }
{
    let Some(Some(line)) = lines.get(way.to as usize) else {
        return None;
    };
    let Some(None) = known.get(way.to as usize) else {
        return None;
    };
    if line.block != way.block {
        return None;
    }
    Some(*line)
}

fn add_all(ways: &mut VecDeque<Way>, more: Vec<Way>) -> Result<(), AllocError>
    ensures { OnOk result (ways.new.items ≡ ways.old.items ++ more.items) }
{
    for way in more {
        ways.push_back(way)?;
    }
    Ok(())
}

/// Goes a step.
fn take_step(
    alloc: Global,
    lines: &[Option<Line>],
    blocks: &[BlockCode],
    way: Way,
    ways: &mut VecDeque<Way>,
    known: &mut Vec<Option<Held>>,
) -> Result<(), AllocError>
    ensures { OnOk result ((steps : ℕ)
        → reach lines.now blocks.now (suc steps) (way ∷ ways.old.items) known.old.items
        ≡ reach lines.now blocks.now steps ways.new.items known.new.items) }
{
    let Some(line) = open_line(lines, known, &way) else {
        return Ok(());
    };
    let on = ways_on(alloc, blocks, &line, &way.held)?;
    known[way.to as usize] = Some(way.held);
    add_all(ways, on)
}

/// What the first way brings to each place, if a way leads there.
#[tactic(auto, unfolding(crate::specs::Ways::known_of))]
pub(crate) fn known_of(
    alloc: Global,
    lines: &[Option<Line>],
    blocks: &[BlockCode],
) -> Result<Vec<Option<Held>>, AllocError>
    requires { length lines.now < 2 ^ 32 }
    ensures { IfOk result (λ known. known.items ≡ known_of lines.now blocks.now) }
{
    let mut known = nothing_known(alloc, lines.len())?;
    let mut ways = first_ways(alloc, blocks)?;
    let mut steps = lines.len() + lines.len() + 1;
    while steps > 0 {
        let Some(way) = ways.pop_front() else {
            break;
        };
        take_step(alloc, lines, blocks, way, &mut ways, &mut known)?;
        steps -= 1;
    }
    Ok(known)
}
