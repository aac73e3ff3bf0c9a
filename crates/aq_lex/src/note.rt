ghost use Rattle.std.specs.Prelude.{◌≡◌, ◌≤◌, length};
ghost use Rattle.std.specs.List.{prefix_len, suffix_len};
ghost use Rattle.aq_lex.specs.Bytes.{is_blank};
ghost use Rattle.aq_lex.specs.Notes.{
  is_note_letter,
  uncommented_len,
  without_front_blanks,
  without_end_blanks,
  trimmed,
  note_text,
  note_name,
  note_rest,
};

use crate::scan::{begins, is_blank, is_word};

/// The parts of a note, as slices of its text.
#[derive(Clone, Copy, Debug)]
pub struct NoteParts<'a> {
    /// The letters, digits, `_` and `.` right behind the `@`. It may be empty.
    pub name: &'a [u8],
    /// What stands behind the name, without the blanks at its ends. It may be empty.
    pub rest: &'a [u8],
}

/// How many bytes stand before the first `//`, or how many bytes there are.
fn uncommented_len(bytes: &[u8]) -> usize
    ensures value { result ≡ uncommented_len bytes.now }
    ensures within { result ≤ length bytes.now }
{
    for (i, byte) in bytes.iter().enumerate() {
        if *byte == b'/' && begins(b'/', &bytes[i + 1..]) {
            return i;
        }
    }
    bytes.len()
}

/// How many blanks stand in front.
fn blanks_len(bytes: &[u8]) -> usize
    ensures value { result ≡ prefix_len is_blank bytes.now }
    ensures within { result ≤ length bytes.now }
{
    bytes.iter().take_while(|b| is_blank(**b)).count()
}

/// How many blanks stand at the end.
fn end_blanks_len(bytes: &[u8]) -> usize
    ensures value { result ≡ suffix_len is_blank bytes.now }
    ensures within { result ≤ length bytes.now }
{
    bytes.iter().rev().take_while(|b| is_blank(**b)).count()
}

/// How many letters of a note's name stand in front.
fn name_len(bytes: &[u8]) -> usize
    ensures value { result ≡ prefix_len is_note_letter bytes.now }
    ensures within { result ≤ length bytes.now }
{
    bytes
        .iter()
        .take_while(|b| is_word(**b) || **b == b'.')
        .count()
}

fn without_front_blanks(bytes: &[u8]) -> &[u8]
    ensures { result.now ≡ without_front_blanks bytes.now }
{
    &bytes[blanks_len(bytes)..]
}

fn without_end_blanks(bytes: &[u8]) -> &[u8]
    ensures { result.now ≡ without_end_blanks bytes.now }
{
    &bytes[..bytes.len() - end_blanks_len(bytes)]
}

/// The bytes without the blanks at both ends.
fn trimmed(bytes: &[u8]) -> &[u8]
    ensures { result.now ≡ trimmed bytes.now }
{
    without_end_blanks(without_front_blanks(bytes))
}

/// The parts of the text of a note. The text is cut at its first `//`, and the blanks at its ends are
/// dropped. Behind the `@` stands the name, which is as long as possible, and then the rest.
pub fn note_parts(text: &[u8]) -> NoteParts<'_>
    ensures name { result.name.now ≡ note_name text.now }
    ensures rest { result.rest.now ≡ note_rest text.now }
{
    let text = trimmed(&text[..uncommented_len(text)]);
    let body = if text.is_empty() { text } else { &text[1..] };
    let len = name_len(body);
    NoteParts {
        name: &body[..len],
        rest: trimmed(&body[len..]),
    }
}
