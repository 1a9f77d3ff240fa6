//! A store of Breakpad symbol files, of which a bounded number is kept: the most recently used ones.
#![tactic(auto)]

mod found;
mod frame;
mod known;
pub mod laws;
mod path;
mod store;

pub use frame::{CrashFrame, FrameAnswer};
pub use store::Store;
