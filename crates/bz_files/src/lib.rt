//! What a file is to a symbolizer: worlds of files, their stamps and faults, and the ends of texts.
#![tactic(auto)]

mod counter;
mod files;
pub mod laws;
mod mem_files;
mod mem_text;
mod real_files;
mod real_text;
mod stamp;
mod text;
mod worlds;

pub use files::{FileError, Files, StampedBytes};
pub use mem_files::MemFiles;
pub use mem_text::{MemIn, MemOut};
pub use real_files::RealFiles;
pub use real_text::{RealIn, RealOut};
pub use stamp::Stamp;
pub use text::{IoFault, TextIn, TextOut};
