//! A run of the program over the words of its command line, and two of its kinds of run: stacks and the
//! generated job.
#![tactic(auto)]

mod frames;
mod generating;
mod misuse;
mod program;
mod source;
mod stacks;
mod targets;

pub use generating::generate;
pub use program::run;
pub use stacks::run_stacks;
