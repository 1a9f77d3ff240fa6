//! The lines of a text.

ghost use Rattle.std.specs.Prelude.{◌≡◌, ◌<◌, ◌∷◌, [], ◌++◌, None, length, option_map, IfSome, IfNone};
ghost use Rattle.bz_bytes.specs.Byte.{line_feed, HasNo};
ghost use Rattle.bz_bytes.specs.Line.{after_first_line_feed, all_lines, ended, ended_lines, unended};

use memchr::memchr;

/// The first line of the text, without its line feed, and the text after that. There is none where
/// the text is empty, or has no line feed.
pub fn next_line(text: &[u8]) -> Option<(&[u8], &[u8])>
    ensures some { IfSome result (λ cut. ended_lines text.now ≡ option_map (λ lines. cut.0.now ∷ lines) (ended_lines cut.1.now)) }
    ensures all { IfSome result (λ cut. all_lines text.now ≡ cut.0.now ∷ all_lines cut.1.now) }
    ensures whole { IfSome result (λ cut. text.now ≡ ended cut.0.now ++ cut.1.now) }
    ensures no_line_feed { IfSome result (λ cut. HasNo line_feed cut.0.now) }
    ensures shorter { IfSome result (λ cut. length cut.1.now < length text.now) }
    ensures none { IfNone result (HasNo line_feed text.now) }
    ensures last { IfNone result (all_lines text.now ≡ unended text.now) }
    ensures unended { IfNone result (0 < length text.now → ended_lines text.now ≡ None) }
{
    let end = memchr(b'\n', text)?;
    Some((&text[..end], &text[end + 1..]))
}

/// The first line of the text, without its line feed if it has one, and the text after that. There
/// is none where the text is empty.
pub fn first_line(text: &[u8]) -> Option<(&[u8], &[u8])>
    ensures all { IfSome result (λ cut. all_lines text.now ≡ cut.0.now ∷ all_lines cut.1.now) }
    ensures no_line_feed { IfSome result (λ cut. HasNo line_feed cut.0.now) }
    ensures reads { IfSome result (λ cut. cut.1.now ≡ after_first_line_feed text.now) }
    ensures shorter { IfSome result (λ cut. length cut.1.now < length text.now) }
    ensures none { IfNone result (text.now ≡ []) }
{
    match next_line(text) {
        Some(cut) => Some(cut),
        None => if text.is_empty() {
            None
        } else {
            Some((text, &text[text.len()..]))
        },
    }
}
