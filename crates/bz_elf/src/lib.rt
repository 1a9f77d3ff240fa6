//! ELF files: the functions that they name, and where their bytes are loaded.
#![tactic(auto)]

mod file;
pub mod laws;
mod parser;
mod resolver;
mod types;

pub use file::ElfFile;
pub use resolver::ElfResolver;
