//! By what line records are put in order.

ghost use Rattle.std.specs.Prelude.{◌≡◌};
ghost use Rattle.bz_breakpad_table.specs.LineKeys.{line_key};

use crate::types::LineKey;
use bz_base::Spanned;
use bz_breakpad_lines::line_or_zeros;

impl Spanned for LineKey {
    ghost start = { λ k. k.start };

    ghost size = { λ k. k.size };

    fn start(&self) -> u64 {
        self.start
    }

    fn size(&self) -> u64 {
        u64::from(self.size)
    }
}

/// The key of the line record at a place; one of zeros where none is.
pub fn line_key(bytes: &[u8], place: usize) -> LineKey
    ensures { result ≡ line_key bytes.now place }
{
    let line = line_or_zeros(bytes, place);
    LineKey {
        start: line.addr,
        size: line.size,
        place,
    }
}
