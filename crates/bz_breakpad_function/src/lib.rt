//! Breakpad symbol files: the records of one function, and where an address lies in it.
#![tactic(auto)]

mod calls;
mod function;
mod line_iter;
mod line_run;
mod lines;
mod locations;
mod types;
mod walks;

pub use function::Function;
pub use line_iter::LineIter;
pub use line_run::{Cuts, Guess};
pub use locations::{Location, location_at};
pub use types::Inlinee;
