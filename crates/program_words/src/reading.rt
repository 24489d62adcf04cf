//! The reader of a command line.
ghost use Rattle.std.specs.Prelude.{◌≡◌, ◌↔◌, ◌∷◌, codes, map, string_bytes, IsErr, MatchOption};
ghost use Rattle.program_words.specs.Asked.{Asked, asked_of};
ghost use Rattle.program_words.specs.WordsGrammar.{ReadsWords, AsksNothing, Says, IsReading, number_or_default};

use crate::demo::read_settings;
use crate::files::read_paths;
use crate::words::{DEFAULT_ROUNDS, Usage, Words};

/// Reads the words of a command line, without the program's own name. Nothing takes memory.
///
/// # Errors
///
/// `Usage` exactly where the words ask for nothing.
pub fn read_words<'a>(words: &'a [String]) -> Result<Words<'a>, Usage>
    ensures read { (asked : Asked) →
        (Says result asked ↔ ReadsWords (map string_bytes words.now) asked) }
    ensures usage { IsErr result ↔ AsksNothing (map string_bytes words.now) }
{
    words_of(words).ok_or(Usage)
}

fn words_of(words: &[String]) -> Option<Words<'_>>
    ensures { IsReading (map string_bytes words.now) result }
{
    let (command, rest) = words.split_first()?;
    let command = command.as_str();
    if command == "serve" {
        return read_serve(rest);
    }
    if command == "init" {
        return read_init(rest);
    }
    if command == "check" {
        return read_check(rest);
    }
    if command == "demo" {
        return read_demo(rest);
    }
    None
}

fn read_serve(words: &[String]) -> Option<Words<'_>>
    ensures { IsReading (codes "serve" ∷ map string_bytes words.now) result }
{
    if words.is_empty() {
        return Some(Words::Serve(None));
    }
    let paths = read_paths(words)?;
    Some(Words::Serve(Some(paths)))
}

fn read_init(words: &[String]) -> Option<Words<'_>>
    ensures { IsReading (codes "init" ∷ map string_bytes words.now) result }
{
    let paths = read_paths(words)?;
    Some(Words::Init(paths))
}

fn read_check(words: &[String]) -> Option<Words<'_>>
    ensures { IsReading (codes "check" ∷ map string_bytes words.now) result }
{
    let paths = read_paths(words)?;
    Some(Words::Check(paths))
}

fn read_demo(words: &[String]) -> Option<Words<'_>>
    ensures { IsReading (codes "demo" ∷ map string_bytes words.now) result }
{
    let settings = read_settings(words)?;
    let seed = settings.seed?;
    let sessions = settings.sessions?;
    let rounds = number_or_default(settings.rounds);
    Some(Words::Demo {
        seed,
        sessions,
        rounds,
    })
}

fn number_or_default(rounds: Option<u32>) -> u32
    ensures { result ≡ number_or_default rounds }
{
    match rounds {
        Some(number) => number,
        None => DEFAULT_ROUNDS,
    }
}
