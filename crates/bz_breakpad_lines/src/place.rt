//! Where a line may stand: what the record before it says of that, and the white space in front.

ghost use Rattle.std.specs.Prelude.{◌≡◌, ◌≤◌, List, length, is_some, ◌&&◌};
ghost use Rattle.std.specs.List.{prefix_len};
ghost use Rattle.bz_breakpad_lines.specs.Byte.{is_nothing, is_white};
ghost use Rattle.bz_breakpad_lines.specs.Contexts.{after_white, context_after, white_allowed_after};
ghost use Rattle.bz_breakpad_lines.specs.Says.{module_of};
ghost use Rattle.bz_breakpad_lines.specs.Told.{context_told, record_told};
ghost use Rattle.bz_breakpad_lines.specs.declared.record.Range.{Range};

use crate::record::{Context, RecordLine, TopLine};

impl RecordLine<'_> {
    /// The record under which the next line may stand.
    pub fn context_after(&self) -> Context
        ensures { (ranges : List Range) → context_told result ≡ context_after (record_told self.now ranges) }
    {
        match self {
            RecordLine::Top(TopLine::Func(_)) => Context::InFunc,
            RecordLine::Top(TopLine::StackCfiInit) => Context::InCfi,
            RecordLine::Top(_) => Context::Outside,
            RecordLine::OfFunc(_) => Context::InFunc,
            RecordLine::OfCfi => Context::InCfi,
        }
    }

    /// Whether white space may stand before the next line.
    pub fn white_allowed_after(&self) -> bool
        ensures { (ranges : List Range) → result ≡ white_allowed_after (record_told self.now ranges) }
    {
        match self {
            RecordLine::Top(_) => true,
            RecordLine::OfFunc(_) => false,
            RecordLine::OfCfi => false,
        }
    }

    /// Whether it is a MODULE record.
    pub fn is_module(&self) -> bool
        ensures { (ranges : List Range) → result ≡ is_some (module_of (record_told self.now ranges)) }
    {
        matches!(self, RecordLine::Top(TopLine::Module(_)))
    }
}

/// The line without the white space at its front, where that may stand.
#[tactic(auto, unfolding(crate::specs::Contexts::after_white))]
pub fn after_white(white_allowed: bool, line: &[u8]) -> &[u8]
    ensures text { result.now ≡ after_white white_allowed line.now }
    ensures within { length result.now ≤ length line.now }
{
    if white_allowed {
        &line[white_len(line)..]
    } else {
        line
    }
}

/// How many bytes of white space stand at the front.
fn white_len(text: &[u8]) -> usize
    ensures value { result ≡ prefix_len is_white text.now }
    ensures within { result ≤ length text.now }
{
    text.iter().take_while(|b| is_white(**b)).count()
}

fn is_white(byte: u8) -> bool
    ensures { result ≡ is_white byte }
{
    byte == b' ' || byte == b'\t' || byte == b'\r'
}

/// Whether a line is blank where it may be. The text is what is left of it after white space.
pub fn is_blank_line(white_allowed: bool, text: &[u8]) -> bool
    ensures { result ≡ (white_allowed && is_nothing text.now) }
{
    white_allowed && text.is_empty()
}
