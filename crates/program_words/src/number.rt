//! A number in decimal digits.
ghost use Rattle.std.specs.Prelude.{◌≡◌, ℕ, ◌<◌, ◌^◌, MatchOption};
ghost use Rattle.program_words.specs.Settings.{IsNumber, begins_with_plus};

// How many digits a number has at most.
pub(crate) const MOST_DIGITS: usize = 10;

// The number that the word is, if it is one that fits.
pub(crate) fn read_number(word: &str) -> Option<u32>
    ensures { MatchOption result
        ((number : ℕ) → number < 2 ^ 32 → IsNumber word.now number → ⊥) (IsNumber word.now) }
{
    if word.len() > MOST_DIGITS {
        return None;
    }
    if begins_with_plus(word) {
        return None;
    }
    match word.parse::<u32>() {
        Ok(number) => Some(number),
        Err(_) => None,
    }
}

fn begins_with_plus(word: &str) -> bool
    ensures { result ≡ begins_with_plus word.now }
{
    match word.as_bytes().split_first() {
        Some((first, _)) => *first == b'+',
        None => false,
    }
}
