//! Lines, each empty or an item.

ghost use Rattle.std.specs.Prelude.{◌≡◌, ℕ, List, Option, Ok, Err, map, option_map, IfOk, IsErrOf};
ghost use Rattle.bz_requests.specs.Lines.{content_of, items_in};
ghost use Rattle.bz_requests.specs.declared.lines.BadInput.TheVariants.{OutOfMemory};

use bz_base::first_line;
use std::alloc::{AllocError, AllocFailed, Global};

/// Why an input gives no items.
#[derive(Clone, Copy, Debug, PartialEq, Eq)]
pub enum BadInput {
    /// The number of the first line that isn't well formed. All lines count, from 1.
    Line(u64),
    /// Memory ran out.
    OutOfMemory,
}

impl From<AllocError> for BadInput {
    ghost from_gives = { λ _ e. e ≡ OutOfMemory };

    fn from(_failed: AllocError) -> BadInput {
        BadInput::OutOfMemory
    }
}

impl<T: Drop> From<AllocFailed<T>> for BadInput {
    ghost from_gives = { λ _ e. e ≡ OutOfMemory };

    fn from(_failed: AllocFailed<T>) -> BadInput {
        BadInput::OutOfMemory
    }
}

/// What a line says, by the line's content alone.
pub trait FromLine: Sized {
    /// What contracts see of an item.
    ghost Data: { Type 0 };

    /// The same of an item that the code has.
    ghost data_of: { Self → Data };

    /// The item that a content spells, if it spells one.
    ghost reads: { List ℕ → Option Data };

    /// The item that a content spells. Contents that are empty are skipped and never asked for.
    fn from_line(alloc: Global, content: &[u8]) -> Result<Option<Self>, AllocError>
        ensures { IfOk result (λ item. option_map data_of item ≡ reads content.now) };
}

/// The items that the lines of the input say: one on each line, or none where it is empty. One
/// carriage return that ends a line isn't part of its content.
pub fn read_lines<T: FromLine + Drop>(alloc: Global, text: &[u8]) -> Result<Vec<T>, BadInput>
    ensures ok { IfOk result (λ items. items_in T.reads text.now ≡ Ok (map T.data_of items.items)) }
    ensures line { (n : ℕ) → IsErrOf result (BadInput.Line n) → items_in T.reads text.now ≡ Err n }
{
    let mut all = Vec::new(alloc);
    let mut rest = text;
    let mut number = 0;
    while let Some((line, after)) = first_line(rest) {
        number += 1;
        let content = content(line);
        if !content.is_empty() {
            let Some(item) = T::from_line(alloc, content)? else {
                return Err(BadInput::Line(number));
            };
            all.push(item)?;
        }
        rest = after;
    }
    Ok(all)
}

// The line without the one carriage return that may end it.
fn content(line: &[u8]) -> &[u8]
    ensures { result.now ≡ content_of line.now }
{
    if line.ends_with(b"\r") {
        &line[..line.len() - 1]
    } else {
        line
    }
}
