//! The id by which a process knows itself.

ghost use Rattle.std.specs.Prelude.{◌≡◌, ◌≤◌, None, Some, length, not, option_map, IfOk, IfErr};
ghost use Rattle.std.specs.List.{suffix_len};
ghost use Rattle.bz_base.specs.declared.error.Error.{Error};
ghost use Rattle.bz_proc.specs.Status.{id_behind, is_between, labelled, last_word, ns_tgid_in, number_in};

use bz_base::{Error, Result, first_line};

/// What the line of the ids begins with.
const LABEL: &[u8] = b"NStgid:";

/// A form feed.
pub(crate) const FORM_FEED: u8 = b'\x0c';

/// The id by which the process knows itself, as the text of its status tells it. It is the last word
/// behind `NStgid:` in the first line that begins so. There is none where no line does. InvalidData:
/// the text isn't UTF-8, or that word isn't a number of 32 bits.
pub fn parse_ns_tgid(status: &[u8]) -> Result<Option<u32>>
    ensures ok { IfOk result (λ id. ns_tgid_in status.now ≡ Some id) }
    ensures refusal { IfErr result (λ e. (ns_tgid_in status.now ≡ None) × (e ≡ Error.InvalidData)) }
{
    match std::str::from_utf8(status) {
        Ok(text) => id_behind(labelled(text.as_bytes())).ok_or(Error::InvalidData),
        Err(_) => Err(Error::InvalidData),
    }
}

/// The id that stands last behind the label. Some(None): no line has the label. None: the last word
/// behind it isn't a number of 32 bits.
fn id_behind(text: Option<&[u8]>) -> Option<Option<u32>>
    ensures { result ≡ id_behind (option_map (λ text. text.now) text.entry) }
{
    match text {
        Some(text) => Some(Some(number(last_word(text))?)),
        None => Some(None),
    }
}

/// What stands behind the label of the first line that begins with it.
fn labelled(status: &[u8]) -> Option<&[u8]>
    ensures { option_map (λ text. text.now) result ≡ labelled status.now }
{
    let mut rest = status;
    while let Some((line, after)) = first_line(rest) {
        if line.starts_with(LABEL) {
            return Some(&line[LABEL.len()..]);
        }
        rest = after;
    }
    None
}

/// Whether words stand between such bytes.
fn is_between(byte: u8) -> bool
    ensures { result ≡ is_between byte }
{
    byte == b' ' || byte == b'\t' || byte == FORM_FEED || byte == b'\r'
}

/// How many bytes that words stand between are behind the last word.
fn end_len(text: &[u8]) -> usize
    ensures value { result ≡ suffix_len is_between text.now }
    ensures within { result ≤ length text.now }
{
    text.iter().rev().take_while(|b| is_between(**b)).count()
}

/// How many bytes the word at the end has.
fn word_len(text: &[u8]) -> usize
    ensures value { result ≡ suffix_len (λ b. not (is_between b)) text.now }
    ensures within { result ≤ length text.now }
{
    text.iter().rev().take_while(|b| !is_between(**b)).count()
}

/// The last word, or an empty text where there is none.
fn last_word(text: &[u8]) -> &[u8]
    ensures { result.now ≡ last_word text.now }
{
    let kept = &text[..text.len() - end_len(text)];
    &kept[kept.len() - word_len(kept)..]
}

/// The number that a word spells: decimal digits, with a plus in front or without one.
fn number(word: &[u8]) -> Option<u32>
    ensures { result ≡ number_in word.now }
{
    match std::str::from_utf8(word) {
        Ok(word) => word.parse::<u32>().ok(),
        Err(_) => None,
    }
}
