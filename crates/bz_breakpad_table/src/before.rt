//! What lines tell of the next one, and which record it has. Unlike `Walk`, `Before` keeps nothing of a
//! line: it only finds the first that isn't admitted.

ghost use Rattle.std.specs.Prelude.{◌≡◌, List, ◌&&◌, Some, is_some, option_map, IfOk, IfSome};
ghost use Rattle.bz_breakpad_lines.specs.Choice.{body_at};
ghost use Rattle.bz_breakpad_lines.specs.Contexts.{body_record, record_at};
ghost use Rattle.bz_breakpad_lines.specs.Says.{module_of};
ghost use Rattle.bz_breakpad_lines.specs.Told.{context_told, record_told};
ghost use Rattle.bz_breakpad_lines.specs.declared.record.Range.{Range};
ghost use Rattle.bz_breakpad_table.specs.Admitted.{after_line, after_record, at_front};
ghost use Rattle.bz_breakpad_table.specs.Told.{before_told};

use bz_breakpad_lines::{
    Context, Range, RecordLine, after_white, body, is_blank_line, read_record,
};
use std::alloc::AllocError;

/// What lines tell of the next one.
#[derive(Clone, Copy)]
pub struct Before {
    /// The record under which it may stand.
    context: Context,
    /// Whether white space may stand before it.
    white_allowed: bool,
    /// Whether a record is among them.
    record_seen: bool,
}

impl Before {
    /// What is told at the front of a file.
    pub fn at_front() -> Before
        ensures { before_told result ≡ at_front }
    {
        Before {
            context: Context::Outside,
            white_allowed: false,
            record_seen: false,
        }
    }

    /// What is told after a line more; none where that isn't admitted. The ranges of an INLINE record
    /// need memory.
    #[tactic(auto, unfolding(crate::specs::Admitted::after_line))]
    pub fn after_line(
        self,
        ranges: &mut Vec<Range>,
        line: &[u8],
    ) -> Result<Option<Before>, AllocError>
        ensures { IfOk result (λ after. option_map before_told after ≡ after_line (before_told self) line.now) }
    {
        let text = after_white(self.white_allowed, line);
        if is_blank_line(self.white_allowed, text) {
            return Ok(Some(self));
        }
        match record_in(ranges, self.context, text)? {
            Some((found, _body)) => Ok(self.after_record(&found)),
            None => Ok(None),
        }
    }

    /// What is told after a record more; none where that isn't admitted.
    fn after_record(self, found: &RecordLine<'_>) -> Option<Before>
        ensures { (ranges : List Range) → option_map before_told result ≡ after_record (before_told self) (record_told found.now ranges) }
    {
        if is_late_module(found, self.record_seen) {
            return None;
        }
        Some(Before {
            context: found.context_after(),
            white_allowed: found.white_allowed_after(),
            record_seen: true,
        })
    }
}

/// The record of a line, and its body. The text is what is left of the line after white space. The
/// ranges of an INLINE record stand beside it.
#[tactic(auto, unfolding(bz_breakpad_lines::specs::Contexts::record_at))]
pub fn record_in<'a>(
    ranges: &mut Vec<Range>,
    context: Context,
    text: &'a [u8],
) -> Result<Option<(RecordLine<'a>, &'a [u8])>, AllocError>
    ensures told { IfOk result (λ found. option_map (λ r. record_told r.0 ranges.new.items) found ≡ record_at (context_told context) text.now) }
    ensures body { IfOk result (λ found. IfSome found (λ r. body_at text.now ≡ Some r.1.now)) }
    ensures read { IfOk result (λ found. IfSome found (λ r. body_record (context_told context) r.1.now ≡ Some (record_told r.0 ranges.new.items))) }
{
    let Some(body) = body(text) else {
        return Ok(None);
    };
    match read_record(ranges, context, body)? {
        Some(found) => Ok(Some((found, body))),
        None => Ok(None),
    }
}

/// Whether the record is a MODULE record, and there is a record before it.
pub fn is_late_module(found: &RecordLine<'_>, record_seen: bool) -> bool
    ensures { (ranges : List Range) → result ≡ (is_some (module_of (record_told found.now ranges)) && record_seen) }
{
    found.is_module() && record_seen
}
