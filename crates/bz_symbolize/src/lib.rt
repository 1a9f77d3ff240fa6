//! A symbolizer: sources of symbols, and the answers that they give for batches of addresses.
#![tactic(auto)]

mod builder;
pub mod cache;
mod copies;
pub mod evict;
pub mod helper;
mod kept_files;
pub mod laws;
mod settings;
pub mod source;
mod symbolizer;

pub use builder::Builder;
pub use bz_base::Pid;
pub use bz_lookups::{Lookups, TOGETHER};
pub use bz_proc::{EntryPath as ProcessMemberPath, PathName as ProcessMemberType};
pub use bz_process::{NoDispatch, ProcessDispatch, ProcessMemberInfo};
pub use symbolizer::Symbolizer;
