//! Which version of a file is in view: a cache of parsed files by their stamps; pinning and forgetting
//! of paths; and what a call on one file answers and leaves.
#![tactic(auto)]

mod builder;
mod file_cache;
mod file_pin;
mod insert_map;
pub mod laws;
mod version;

pub use builder::CacheBuilder;
pub use file_cache::FileCache;
pub use file_pin::pin_file;
pub use insert_map::InsertMap;
pub use version::Version;
