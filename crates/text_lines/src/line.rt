ghost use Rattle.std.specs.Prelude.{◌≡◌, ◌≤◌, ◌<◌, ◌+◌, ◌-◌, ◌∷◌, [], ◌==◌, length, map, position, IfOk, IfSome, IfNone, option_map, None, Some};
ghost use Rattle.text_lines.specs.Text.{lines, lines_left, is_line_end, words, line_words, without_comment, is_blank, is_allowed, without_last_end};
ghost use Rattle.std.specs.List.{slice_split, position_or_len, list_all};

use std::alloc::{AllocError, Global};
use std::marker::Model;

/// The lines of a text that are left, without their line ends.
#[derive(Drop)]
pub struct Lines<'a> {
    left: Option<&'a [u8]>,
}

impl<'a> Model for Lines<'a> {
    ghost use Rattle.std.specs.Prelude.{List, option_map};
    ghost use Rattle.text_lines.specs.Text.{Text, lines_left};

    ghost Value = { List Text };

    ghost view = { λ l. lines_left (option_map (λ text. text.now) l.left) };
}

impl<'a> Lines<'a> {
    /// The lines of a text. It takes no memory.
    pub fn of(text: &'a [u8]) -> Lines<'a>
        ensures value { result ≡ lines text.now }
        ensures few { length result ≤ length text.now + 1 }
    {
        Lines {
            left: Some(without_last_end_of(text)),
        }
    }

    /// The next line, if one is left.
    pub fn next_line(&mut self) -> Option<&'a [u8]>
        ensures next { IfSome result (λ line. self.old ≡ line.now ∷ self.new) }
        ensures end { IfNone result (self.old ≡ []) }
        ensures ended { IfNone result (self.new ≡ []) }
    {
        let Some(text) = self.left else {
            return None;
        };
        let (line, rest) = first_line(text);
        self.left = rest;
        Some(line)
    }
}

/// A text without the line end that stands at its end, if one does.
fn without_last_end_of(text: &[u8]) -> &[u8]
    ensures { result.now ≡ without_last_end text.entry.now }
{
    match text {
        [front @ .., b'\n'] => front,
        _ => text,
    }
}

/// The first line of a text, and the text behind its line end, if it has one.
fn first_line(text: &[u8]) -> (&[u8], Option<&[u8]>)
    ensures { lines_left (Some text.entry.now)
        ≡ result.0.now ∷ lines_left (option_map (λ rest. rest.now) result.1) }
{
    match first_end(text) {
        Some(end) => (&text[..end], Some(&text[end + 1..])),
        None => (text, None),
    }
}

/// The place of the first line end.
fn first_end(text: &[u8]) -> Option<usize>
    ensures place { result ≡ position is_line_end text.now }
    ensures within { IfSome result (λ place. place < length text.now) }
{
    text.iter().position(|byte| *byte == b'\n')
}

/// The words of a line behind which a comment may stand.
pub fn line_words_of(alloc: Global, line: &[u8]) -> Result<Vec<&[u8]>, AllocError>
    ensures { IfOk result (λ found. map (λ word. word.now) found.items ≡ line_words line.now) }
{
    words_of(alloc, without_comment_of(line))
}

/// The words of a line: what stands between its blanks.
pub fn words_of(alloc: Global, line: &[u8]) -> Result<Vec<&[u8]>, AllocError>
    ensures { IfOk result (λ found. map (λ word. word.now) found.items ≡ words line.now) }
{
    line.split(|byte| is_blank_byte(*byte))
        .filter(|word| !word.is_empty())
        .collect(alloc)
}

/// Whether a byte is a blank: a space, a tab or a carriage return.
fn is_blank_byte(byte: u8) -> bool
    ensures { result ≡ is_blank byte }
{
    matches!(byte, b' ' | b'\t' | b'\r')
}

/// A line without its comment, which begins at `#`.
fn without_comment_of(line: &[u8]) -> &[u8]
    ensures { result.now ≡ without_comment line.now }
{
    &line[..comment_place(line)]
}

/// The place of the first `#`, or the line's length where there is none.
#[tactic(auto, using(crate::proofs::TextLemmas::unwrap_or_position))]
fn comment_place(line: &[u8]) -> usize
    ensures place { result ≡ position_or_len (λ b. b == 35) line.now }
    ensures within { result ≤ length line.now }
{
    first_hash(line).unwrap_or(line.len())
}

fn first_hash(line: &[u8]) -> Option<usize>
    ensures place { result ≡ position (λ b. b == 35) line.now }
    ensures within { IfSome result (λ place. place ≤ length line.now) }
{
    line.iter().position(|byte| *byte == b'#')
}

/// Whether all bytes may stand in a text.
pub fn are_allowed(bytes: &[u8]) -> bool
    ensures { result ≡ list_all is_allowed bytes.now }
{
    bytes.iter().all(|byte| is_allowed_byte(*byte))
}

/// Whether a byte may stand in a text.
fn is_allowed_byte(byte: u8) -> bool
    ensures { result ≡ is_allowed byte }
{
    is_blank_byte(byte) || byte == b'\n' || matches!(byte, 32..=126)
}
