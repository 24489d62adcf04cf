//! Where strings and comments end.
ghost use Rattle.std.specs.Prelude.{◌≡◌, ◌≤◌, length, false, MatchOption, Some, None};
ghost use Rattle.st_grammar.specs.Tokens.{comment_end, string_end, string_bytes};

// What stands in quotes: how many bytes from after the first quote on, and of how many bytes it is
// the text.
#[derive(Clone, Copy, Debug)]
pub(crate) struct Quoted {
    pub(crate) len: usize,
    pub(crate) size: usize,
}

// How many bytes a comment has from after its first quote on.
pub(crate) fn comment_end(text: &[u8]) -> Option<usize>
    ensures len { result ≡ comment_end text.now }
    ensures within { MatchOption result (Unit {0}) (λ n. n ≤ length text.now) }
{
    for (i, b) in text.iter().enumerate() {
        if *b == b'"' {
            return Some(i + 1);
        }
    }
    None
}

// The string whose first quote stands before the text.
pub(crate) fn string_end(text: &[u8]) -> Option<Quoted>
    ensures len { MatchOption result (string_end false text.now ≡ None)
        (λ q. string_end false text.now ≡ Some q.len) }
    ensures size { MatchOption result (Unit {0})
        (λ q. length (string_bytes false text.now) ≡ q.size) }
    ensures within { MatchOption result (Unit {0}) (λ q. q.len ≤ length text.now) }
{
    let mut size = 0;
    let mut quoted = false;
    for (i, b) in text.iter().enumerate() {
        if quoted {
            if *b != b'\'' {
                return Some(Quoted { len: i, size });
            }
            quoted = false;
            size += 1;
        } else if *b == b'\'' {
            quoted = true;
        } else {
            size += 1;
        }
    }
    if quoted {
        Some(Quoted {
            len: text.len(),
            size,
        })
    } else {
        None
    }
}
