//! The texts of a process under Linux: its mappings, the id that its status tells, and its perf map. In
//! the last stand the functions that the process compiled for itself.
#![tactic(auto)]

pub mod laws;
mod mappings;
mod maps;
pub mod perf_laws;
mod perf_map;
mod reading;
mod status;

pub use mappings::Mappings;
pub use maps::{EntryPath, MapsEntry, PathName, owner, parse_maps};
pub use perf_map::PerfMap;
pub use reading::read_maps;
pub use status::parse_ns_tgid;
