//! The scripts of a generated load.
ghost use Rattle.std.specs.Prelude.{◌≡◌, ◌++◌, IfOk, OnOk};
ghost use Rattle.std.specs.List.{flat_map};
ghost use Rattle.texts.specs.Lines.{text_of_lines};
ghost use Rattle.load_maker.specs.Numbers.{IsSeed, IsSessionCount, IsRoundCount, round_numbers, state_after};
ghost use Rattle.load_maker.specs.Scripts.{setup_text, round_lines, session_lines, load_text, tally_text};

use crate::generator::Generator;
use std::alloc::{AllocError, Global};

/// The script that comes before a load: it makes the counter `Hits` and the bag `Names`, and
/// commits them. Err is want of memory.
pub fn setup_script(alloc: Global) -> Result<Vec<u8>, AllocError>
    ensures { IfOk result (λ script. script.items ≡ setup_text) }
{
    b"session DataCurator\n\
      run\n\
      Globals at: #Hits put: RcCounter new. Globals at: #Names put: RcIdentityBag new\n\
      %\n\
      commit\n"
        .to_vec(alloc)
}

/// The script of a load: in each round of each session a number is added to the counter, and a name
/// with that number to the bag, and both are committed. The numbers, from 1 to 9, come from the
/// seed. Err is want of memory.
pub fn load_script(
    alloc: Global,
    seed: u32,
    sessions: u32,
    rounds: u32,
) -> Result<Vec<u8>, AllocError>
    requires seed { IsSeed seed }
    requires sessions { IsSessionCount sessions }
    requires rounds { IsRoundCount rounds }
    ensures { IfOk result (λ script. script.items ≡ load_text seed sessions rounds) }
{
    let mut script = Vec::new(alloc);
    let mut generator = Generator::from(seed);
    for _ in 0..sessions {
        push_session(alloc, &mut script, &mut generator, rounds)?;
    }
    Ok(script)
}

fn push_session(
    alloc: Global,
    script: &mut Vec<u8>,
    generator: &mut Generator,
    rounds: u32,
) -> Result<(), AllocError>
    ensures text { OnOk result (script.new.items ≡ script.old.items
        ++ text_of_lines (session_lines (round_numbers rounds generator.old.state))) }
    ensures state { OnOk result (generator.new.state ≡ state_after rounds generator.old.state) }
{
    push_text(script, "session DataCurator\n")?;
    push_rounds(alloc, script, generator, rounds)
}

fn push_rounds(
    alloc: Global,
    script: &mut Vec<u8>,
    generator: &mut Generator,
    rounds: u32,
) -> Result<(), AllocError>
    ensures text { OnOk result (script.new.items ≡ script.old.items
        ++ text_of_lines (flat_map round_lines (round_numbers rounds generator.old.state))) }
    ensures state { OnOk result (generator.new.state ≡ state_after rounds generator.old.state) }
{
    for _ in 0..rounds {
        push_round(alloc, script, generator.draw())?;
    }
    Ok(())
}

fn push_round(alloc: Global, script: &mut Vec<u8>, number: u32) -> Result<(), AllocError>
    ensures { OnOk result
        (script.new.items ≡ script.old.items ++ text_of_lines (round_lines number)) }
{
    let round = format!(in alloc;
        "run\nHits incrementBy: {number}. Names add: #n{number}\n%\ncommit\n"
    )?;
    push_text(script, round.as_str())
}

fn push_text(script: &mut Vec<u8>, text: &str) -> Result<(), AllocError>
    ensures { OnOk result (script.new.items ≡ script.old.items ++ text.now) }
{
    script.extend_from_slice(text.as_bytes())
}

/// The script that comes after a load: it prints the counter, and the size of the bag. Err is want
/// of memory.
pub fn tally_script(alloc: Global) -> Result<Vec<u8>, AllocError>
    ensures { IfOk result (λ script. script.items ≡ tally_text) }
{
    b"session DataCurator\nprintit\nHits value\n%\nprintit\nNames size\n%\n".to_vec(alloc)
}
