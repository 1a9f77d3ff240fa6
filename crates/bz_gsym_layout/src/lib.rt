//! GSYM files from a plan: which functions, rows and inlined calls a file is to have, and its bytes.
#![tactic(auto)]

mod calls;
mod error;
mod format;
mod function;
pub mod laws;
mod layout;
mod leb;
mod plan;
mod rows;
mod sources;
mod tables;
mod texts;
mod words;

pub use error::LayoutError;
pub use layout::write;
pub use plan::{Function, Node, Plan, Row, SourceFile};
pub use sources::Sources;
pub use texts::Texts;
