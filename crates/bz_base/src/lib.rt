//! What an answer of the symbolizer is and why there is none, and what finds one. Texts, bytes and
//! searches have crates of their own, whose items stand here too.
#![tactic(auto)]

mod batch;
mod clone;
mod error;
mod input;
pub mod laws;
mod path;
mod pid;
mod resolve;
mod types;

pub use batch::in_batch;
pub use bz_bytes::{
    ByteTest, Cursor, begins_with_slash, first_line, next_line, padding, read_decimal, read_hex,
    run_len, slash_after, split_source, text_before_zero, u8_at, u16_at, u32_at, u64_at,
    whole_decimal, whole_hex, whole_u32,
};
pub use bz_search::{
    Addr, Nested, Place, Probe, Spanned, Starts, Steps, around_in, chain_in, covering_at,
    covering_in, covers, inner_in, inside, nearest, nearest_each, place_found, sort_nested,
    sort_table, starts_of,
};
pub use error::{Error, ErrorKind, Result};
pub use input::Input;
pub use pid::Pid;
pub use resolve::{Resolve, Symbolize, TranslateFileOffset};
pub use types::{
    CodeInfo, FindSymOpts, InlinedFn, Reason, ResolvedSym, SrcLang, Sym, SymType, Symbolized,
};
