//! Stacks that are folded for flame graphs: each path of frames once, with how often it was seen.
#![tactic(auto)]

mod asking;
mod error;
mod folded;
pub mod laws;
mod path;
mod reading;
mod stack;
mod text;

pub use asking::fold;
pub use error::StackError;
pub use folded::Folded;
pub use reading::read_stacks;
pub use stack::Stack;
