//! Lines and words, cut off the front of a text.
ghost use Rattle.std.specs.Prelude.{◌≡◌, ℕ, ◌+◌, ◌^◌, ◌<◌, ◌≤◌, List, [], ◌∷◌, ◌++◌, length, take, drop, codes, IfOk, IfSome, MatchOption, map};
ghost use Rattle.std.specs.List.{AllByRecursion, position_or_len, slice_split};
ghost use Rattle.texts.specs.Bytes.{Bytes};
ghost use Rattle.texts.specs.Lines.{text_of_lines};
ghost use Rattle.shell_words.specs.Lines.{is_line_feed, full_parts, without_return, lines_of, is_space, line_words, IsInner, IsBody};

use std::alloc::{AllocError, Global};

// The first line, and what follows it.
pub(crate) fn split_line(text: &[u8]) -> (&[u8], &[u8])
    requires { 0 < length text.now }
    ensures lines { lines_of text.now ≡ result.0.now ∷ lines_of result.1.now }
    ensures shorter { length result.1.now < length text.now }
    ensures within { length result.0.now ≤ length text.now }
{
    let (part, rest) = split_part(text);
    (without_return(part), rest)
}

// What stands before the first LF, and what follows that.
fn split_part(text: &[u8]) -> (&[u8], &[u8])
    requires { 0 < length text.now }
    ensures parts { full_parts (slice_split is_line_feed text.now)
        ≡ result.0.now ∷ full_parts (slice_split is_line_feed result.1.now) }
    ensures shorter { length result.1.now < length text.now }
    ensures within { length result.0.now ≤ length text.now }
{
    let (part, rest) = text.split_at(part_len(text));
    match rest.split_first() {
        Some((_, after)) => (part, after),
        None => (part, rest),
    }
}

// How many bytes stand before the first LF.
fn part_len(text: &[u8]) -> usize
    ensures first { result ≡ position_or_len is_line_feed text.now }
    ensures within { result ≤ length text.now }
{
    text.iter().take_while(|byte| **byte != b'\n').count()
}

fn without_return(part: &[u8]) -> &[u8]
    ensures value { result.now ≡ without_return part.now }
    ensures within { length result.now ≤ length part.now }
{
    match part.split_last() {
        Some((byte, front)) if *byte == b'\r' => front,
        _ => part,
    }
}

// The first word, and what follows the space after it.
pub(crate) fn split_word(line: &[u8]) -> (&[u8], Option<&[u8]>)
    ensures { MatchOption result.1 (line_words line.now ≡ result.0.now ∷ [])
        (λ rest. line_words line.now ≡ result.0.now ∷ line_words rest.now) }
{
    let (word, rest) = line.split_at(word_len(line));
    match rest.split_first() {
        Some((_, after)) => (word, Some(after)),
        None => (word, None),
    }
}

// How many bytes stand before the first space.
fn word_len(line: &[u8]) -> usize
    ensures first { result ≡ position_or_len is_space line.now }
    ensures within { result ≤ length line.now }
{
    line.iter().take_while(|byte| **byte != b' ').count()
}

// The lines of a chunk: their text, how many there are with the line `%`, and what follows that.
#[derive(Drop)]
pub(crate) struct Body<'a> {
    pub(crate) text: Vec<u8>,
    pub(crate) lines: u32,
    pub(crate) rest: &'a [u8],
}

// The lines up to a line `%`, or `None` where there is none.
pub(crate) fn split_body(alloc: Global, text: &[u8]) -> Result<Option<Body<'_>>, AllocError>
    requires { length (lines_of text.now) < 2 ^ 32 }
    ensures body { IfOk result (λ found. MatchOption found
        (AllByRecursion IsInner (lines_of text.now))
        (λ b. (body : List Bytes) × IsBody (lines_of text.now) body (lines_of b.rest.now)
        × (b.text.items ≡ text_of_lines body) × (b.lines ≡ length body + 1))) }
    ensures shorter { IfOk result (λ found. IfSome found
        (λ b. length b.rest.now < length text.now)) }
{
    let mut body = Vec::new(alloc);
    let mut lines = 0;
    let mut rest = text;
    while !rest.is_empty() {
        let (line, after) = split_line(rest);
        lines += 1;
        rest = after;
        if line == b"%".as_slice() {
            return Ok(Some(Body {
                text: body,
                lines,
                rest,
            }));
        }
        body.extend_from_slice(line)?;
        body.push(b'\n')?;
    }
    Ok(None)
}
