//! The lines of Breakpad symbol files: the grammar of a file, and the readers of one line, general and
//! quick.
#![tactic(auto)]

mod at_place;
mod field;
mod func;
mod in_turn;
mod inline;
mod lanes;
pub mod laws;
mod line;
mod on_run;
mod place;
mod quick;
mod record;
mod start_text;
mod values;

pub use at_place::{call_at, line_len, line_or_zeros, line_record_at, start_at, start_of};
pub use field::body;
pub use func::{cfi_line, func_line};
pub use in_turn::{NextLine, known_line_record};
pub use inline::inline_line;
pub use lanes::{Stops, line_feeds};
pub use line::{QuickLine, quick_line};
pub use on_run::{RunLine, next_on_run};
pub use place::{after_white, is_blank_line};
pub use quick::Shown;
pub use record::{
    Context, FuncLine, InlineCall, InnerLine, PublicLine, Range, RecordLine, SourceLine, TopLine,
    read_record,
};
pub use start_text::StartText;
