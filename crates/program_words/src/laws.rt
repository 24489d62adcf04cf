//! What holds of command lines whatever reader reads them.
ghost use Rattle.std.specs.Prelude.{◌≡◌, List};
ghost use Rattle.texts.specs.Bytes.{Bytes};
ghost use Rattle.program_words.specs.Asked.{Asked};
ghost use Rattle.program_words.specs.WordsGrammar.{ReadsWords};

/// Words ask for at most one thing.
pub fn one_reading()
    ensures { (words : List Bytes) (asked other : Asked)
        → ReadsWords words asked → ReadsWords words other → asked ≡ other }
{}
