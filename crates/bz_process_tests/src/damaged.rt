//! Texts that are cut, deep trees, and offsets at the ends of what a file has.

mod breakpad;
mod deep;
mod processes;
mod system_texts;
