//! The options of `demo`.
ghost use Rattle.std.specs.Prelude.{◌≡◌, ◌≢◌, ◌↔◌, ℕ, List, None, map, string_bytes, IsTrue, MatchOption};
ghost use Rattle.texts.specs.Bytes.{Bytes};
ghost use Rattle.program_words.specs.Settings.{setting_name, Takes, IsNumber, Gives, AreChoices, IsSet};
ghost use Rattle.program_words.specs.Chosen.{number_at, with_number, IsChosen, IsOnce};

use crate::number::read_number;
use load_maker::{LOAD_ROUND_LIMIT, LOAD_SEED_LIMIT, LOAD_SESSION_LIMIT};

// An option.
#[derive(Clone, Copy)]
pub(crate) enum Setting {
    Seed,
    Sessions,
    Rounds,
}

impl Setting {
    // The option of this name.
    fn named(name: &str) -> Option<Setting>
        ensures { MatchOption result
            ((setting : Setting) → name.now ≢ setting_name setting)
            (λ setting. name.now ≡ setting_name setting) }
    {
        if name == "--seed" {
            Some(Setting::Seed)
        } else if name == "--sessions" {
            Some(Setting::Sessions)
        } else if name == "--rounds" {
            Some(Setting::Rounds)
        } else {
            None
        }
    }

    // Whether the option may be this number.
    fn takes(self, number: u32) -> bool
        ensures { IsTrue result ↔ Takes self number }
    {
        match self {
            Setting::Seed => number <= LOAD_SEED_LIMIT,
            Setting::Sessions => 1 <= number && number <= LOAD_SESSION_LIMIT,
            Setting::Rounds => 1 <= number && number <= LOAD_ROUND_LIMIT,
        }
    }
}

// An option, and the number that it is given.
#[derive(Clone, Copy)]
pub(crate) struct Choice {
    setting: Setting,
    number: u32,
}

// The options that were given so far.
#[derive(Clone, Copy)]
pub(crate) struct Settings {
    pub(crate) seed: Option<u32>,
    pub(crate) sessions: Option<u32>,
    pub(crate) rounds: Option<u32>,
}

impl Settings {
    fn number_at(self, setting: Setting) -> Option<u32>
        ensures { result ≡ number_at self setting }
    {
        match setting {
            Setting::Seed => self.seed,
            Setting::Sessions => self.sessions,
            Setting::Rounds => self.rounds,
        }
    }

    // These with one more, which wasn't given before.
    fn with(self, choice: Choice) -> Settings
        ensures { result ≡ with_number self choice }
    {
        let number = Some(choice.number);
        match choice.setting {
            Setting::Seed => Settings {
                seed: number,
                ..self
            },
            Setting::Sessions => Settings {
                sessions: number,
                ..self
            },
            Setting::Rounds => Settings {
                rounds: number,
                ..self
            },
        }
    }
}

// The options that these words are, each given at most once.
pub(crate) fn read_settings(words: &[String]) -> Option<Settings>
    ensures { MatchOption result
        ((choices : List Choice) → AreChoices (map string_bytes words.now) choices → IsOnce choices → ⊥)
        (IsChosen (map string_bytes words.now)) }
{
    let mut settings = Settings {
        seed: None,
        sessions: None,
        rounds: None,
    };
    let mut rest = words;
    while !rest.is_empty() {
        let (choice, after) = read_choice(rest)?;
        if settings.number_at(choice.setting).is_some() {
            return None;
        }
        settings = settings.with(choice);
        rest = after;
    }
    Some(settings)
}

// The option that the first of these words give a number, and the words that follow.
fn read_choice(words: &[String]) -> Option<(Choice, &[String])>
    ensures { MatchOption result
        ((choice : Choice) (rest : List Bytes) → Gives (map string_bytes words.now) choice rest → ⊥)
        (λ read. Gives (map string_bytes words.now) read.0 (map string_bytes read.1.now)) }
{
    let (first, after) = words.split_first()?;
    match first.as_str().split_once('=') {
        Some((name, value)) => Some((choice_of(name, value)?, after)),
        None => {
            let (value, rest) = after.split_first()?;
            Some((choice_of(first.as_str(), value.as_str())?, rest))
        }
    }
}

// The option of this name, and the number that the value is.
fn choice_of(name: &str, value: &str) -> Option<Choice>
    ensures { MatchOption result ((choice : Choice) → IsSet name.now value.now choice → ⊥)
        (IsSet name.now value.now) }
{
    let setting = Setting::named(name)?;
    let number = read_number(value)?;
    if setting.takes(number) {
        Some(Choice { setting, number })
    } else {
        None
    }
}
