//! Texts that are written: numbers, an answer's text, the canonical text of a Breakpad file,
//! and a generated one with addresses among its functions.
#![tactic(auto)]

mod answer;
mod canonical_run;
mod generate;
mod hex;
pub mod laws;
mod piece;
mod record;
mod text;
mod text_piece;

pub use answer::{answer_text, push_answer};
pub use generate::{gen_addrs, gen_text};
pub use text::canonical;
