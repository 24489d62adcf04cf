//! What holds of scripts whatever reader reads them.
ghost use Rattle.std.specs.Prelude.{◌≡◌, ℕ, List, ◌⊎◌};
ghost use Rattle.texts.specs.Bytes.{Bytes};
ghost use Rattle.shell_words.specs.Script.{SessionCommands};
ghost use Rattle.shell_words.specs.ScriptGrammar.{ReadsScript, BreaksRule};

/// A text is a script or breaks one rule first at one line: never both, always one of the two, and
/// one answer of each.
pub fn one_answer()
    ensures scripts { (text : Bytes) (script other : List SessionCommands)
        → ReadsScript text script → ReadsScript text other → script ≡ other }
    ensures rules { (text : Bytes) (line number rule broken : ℕ)
        → BreaksRule text line rule → BreaksRule text number broken
        → (line ≡ number) × (rule ≡ broken) }
    ensures never_both { (text : Bytes) (script : List SessionCommands) (line rule : ℕ)
        → ReadsScript text script → BreaksRule text line rule → ⊥ }
    ensures always { (text : Bytes) → ((script : List SessionCommands) × ReadsScript text script)
        ⊎ ((line rule : ℕ) × BreaksRule text line rule) }
{}
