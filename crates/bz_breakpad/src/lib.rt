//! A parsed Breakpad symbol file: its records, and its answers to addresses and names.
#![tactic(auto)]

mod file;
mod find;
mod found;
mod inspect;
pub mod laws;
mod lookups;
mod publics;
mod resolver;
mod symbol;
mod types;
mod version;

pub use bz_breakpad_function::{Function, Inlinee, LineIter};
pub use bz_breakpad_lines::SourceLine;
pub use file::{SymbolFile, SymbolParser};
pub use found::FoundRecord;
pub use inspect::{FindAddrOpts, Inspect, SymInfo};
pub use resolver::BreakpadResolver;
pub use types::PublicSymbol;
