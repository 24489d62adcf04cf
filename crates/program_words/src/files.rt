//! The names of a store's files.
ghost use Rattle.std.specs.Prelude.{◌≡◌, ◌∷◌, [], map, string_bytes, MatchOption};
ghost use Rattle.program_words.specs.Asked.{Files, files_of};
ghost use Rattle.program_words.specs.WordsGrammar.{is_file_word, AreFiles};

use crate::words::Paths;

// The two files that these words name.
pub(crate) fn read_paths(words: &[String]) -> Option<Paths<'_>>
    ensures { MatchOption result
        ((files : Files) → AreFiles (map string_bytes words.now) files → ⊥)
        (λ paths. AreFiles (map string_bytes words.now) (files_of paths)) }
{
    let (extent, rest) = words.split_first()?;
    let (log, rest) = rest.split_first()?;
    if !rest.is_empty() {
        return None;
    }
    both(extent.as_str(), log.as_str())
}

fn both<'a>(extent: &'a str, log: &'a str) -> Option<Paths<'a>>
    ensures { MatchOption result
        ((files : Files) → AreFiles (extent.now ∷ log.now ∷ []) files → ⊥)
        (λ paths. AreFiles (extent.now ∷ log.now ∷ []) (files_of paths)) }
{
    if !is_file_word(extent) {
        return None;
    }
    if !is_file_word(log) {
        return None;
    }
    Some(Paths { extent, log })
}

fn is_file_word(word: &str) -> bool
    ensures { result ≡ is_file_word word.now }
{
    match word.as_bytes().split_first() {
        Some((first, _)) => *first != b'-',
        None => false,
    }
}
