//! What is answered for addresses of a process: by its mappings, the files that they name, and its perf
//! map. A perf map is a text in which a process lists the functions that it made while it ran.
//! A dispatcher answers for what only the caller knows.
#![tactic(auto)]

mod answering;
mod caching;
pub mod caching_laws;
mod dispatch;
mod dispatching;
mod forgetting;
pub mod laws;
mod mapped;
mod mapped_file;
mod perf_maps;
mod processes;
mod query;
mod remembered;

pub use caching::ProcessCaching;
pub use dispatch::{NoDispatch, ProcessDispatch, ProcessMemberInfo};
pub use mapped_file::elf_answer_at;
pub use processes::Processes;
pub use query::ProcessQuery;
