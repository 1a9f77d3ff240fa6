//! The inlined calls of functions, with what their records say.

ghost use Rattle.std.specs.Prelude.{◌≡◌};
ghost use Rattle.bz_breakpad_function.specs.Lent.{inlinee_seen};
ghost use Rattle.bz_breakpad_table.specs.Kept.{kept_call};

use crate::types::Inlinee;
use bz_base::Spanned;
use bz_breakpad_lines::call_at;
use bz_breakpad_table::CallRange;

/// The inlined call of a range, with what its record says.
pub(crate) fn inlinee_of(bytes: &[u8], range: &CallRange) -> Inlinee
    ensures { inlinee_seen result ≡ kept_call bytes.now range.now }
{
    let call = call_at(bytes, range.place as usize);
    Inlinee {
        depth: range.depth,
        addr: range.start(),
        size: range.size,
        call_file: call.file,
        call_line: call.line,
        origin_id: call.origin,
    }
}
