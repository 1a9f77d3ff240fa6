//! The fields of a line.

ghost use Rattle.std.specs.Prelude.{◌≡◌, ◌∷◌, ◌<◌, ◌≤◌, not, [], length, map, IfSome, IfNone, IfOk};
ghost use Rattle.std.specs.List.{prefix_len};
ghost use Rattle.bz_requests.specs.Fields.{fields, is_space};

use std::alloc::{AllocError, Global};

/// The fields of the text: it is cut at each space. So two spaces, or one at the end, give an empty
/// field, and an empty text is one empty field.
pub fn fields(alloc: Global, text: &[u8]) -> Result<Vec<&[u8]>, AllocError>
    ensures { IfOk result (λ all. map (λ field. field.now) all.items ≡ fields text.now) }
{
    let mut all = Vec::new(alloc);
    let mut rest = text;
    while let Some((field, after)) = cut(rest) {
        all.push(field)?;
        rest = after;
    }
    all.push(rest)?;
    Ok(all)
}

// The text before the first space, and the text after it.
fn cut(text: &[u8]) -> Option<(&[u8], &[u8])>
    ensures some { IfSome result (λ cut. fields text.now ≡ cut.0.now ∷ fields cut.1.now) }
    ensures shorter { IfSome result (λ cut. length cut.1.now < length text.now) }
    ensures none { IfNone result (fields text.now ≡ text.now ∷ []) }
{
    let at = field_len(text);
    if at == text.len() {
        None
    } else {
        Some((&text[..at], &text[at + 1..]))
    }
}

fn field_len(text: &[u8]) -> usize
    ensures value { result ≡ prefix_len (λ b. not (is_space b)) text.now }
    ensures bound { result ≤ length text.now }
{
    text.iter().take_while(|b| **b != b' ').count()
}
