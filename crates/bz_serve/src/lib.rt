//! Requests served by one symbolizer, and crash frames answered by a store of symbol files.
#![tactic(auto)]

mod frames;
mod input;
pub mod laws;
mod requests;
mod serving;

pub use frames::{frame_text, frame_texts, read_frames, run_frames};
pub use requests::serve_input;
pub use serving::serve;
