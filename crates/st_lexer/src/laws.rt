//! What holds of tokens whatever lexer finds them.
ghost use Rattle.std.specs.Prelude.{◌≡◌, ℕ, ◌+◌, List, ◌∷◌, ◌++◌, ◌⊎◌, length, take, map, Ok, Err};
ghost use Rattle.texts.specs.Bytes.{Bytes};
ghost use Rattle.st_grammar.specs.Tokens as spec;
ghost use Rattle.st_grammar.specs.Tokens.{Lexes, Stops, TokenRule, end_after, moved};
ghost use Rattle.st_grammar.specs.Lexed.{tokens_of};
ghost use Rattle.st_lexer.specs.Spans.{SpansAscend};

/// A text has tokens or one first bad token: never both, always one of the two, and one answer of
/// each.
pub fn one_answer()
    ensures lists { (text : Bytes) (ts us : List spec.Token) → Lexes 0 text ts → Lexes 0 text us
        → ts ≡ us }
    ensures faults { (text : Bytes) (place other : ℕ) (r s : TokenRule) → Stops 0 text place r
        → Stops 0 text other s → (place ≡ other) × (r ≡ s) }
    ensures never_both { (text : Bytes) (ts : List spec.Token) (place : ℕ) (r : TokenRule)
        → Lexes 0 text ts → Stops 0 text place r → ⊥ }
    ensures always { (text : Bytes)
        → ((ts : List spec.Token) × Lexes 0 text ts)
        ⊎ ((place : ℕ) × (r : TokenRule) × Stops 0 text place r) }
{}

/// The function that gives a text's tokens, or its first bad token, gives just these.
pub fn as_function()
    ensures tokens { (text : Bytes) (ts : List spec.Token) → Lexes 0 text ts
        → tokens_of text ≡ Ok ts }
    ensures fault { (text : Bytes) (place : ℕ) (r : TokenRule) → Stops 0 text place r
        → tokens_of text ≡ Err (record { place = place; rule = r }) }
{}

/// The tokens of a text stand one after another within it, each with one byte at least.
pub fn spans_ascend()
    ensures { (text : Bytes) (ts : List spec.Token) → Lexes 0 text ts
        → SpansAscend 0 (length text) ts }
{}

/// A front of a text that ends where a token ends, then a space and another text, has the front's
/// tokens and then those of the other text, as far back as they stand.
pub fn front_and_more()
    ensures { (text more : Bytes) (seen left ts : List spec.Token) → Lexes 0 text (seen ++ left)
        → Lexes 0 more ts
        → Lexes 0 (take (end_after 0 seen) text ++ 32 ∷ more)
        (seen ++ map (moved (end_after 0 seen + 1)) ts) }
{}
