//! Texts and the pieces of binary files: lines, numbers, paths, and what is read one after another or
//! at places.
#![tactic(auto)]

mod cursor;
mod digits;
pub mod laws;
mod leb128;
mod line;
mod number;
mod path;
mod scan;
mod text;

pub use cursor::{Cursor, padding};
pub use digits::{read_decimal, read_hex, whole_decimal, whole_hex, whole_u32};
pub use line::{first_line, next_line};
pub use number::{u8_at, u16_at, u32_at, u64_at};
pub use path::{begins_with_slash, slash_after, split_source};
pub use scan::{ByteTest, run_len};
pub use text::text_before_zero;
