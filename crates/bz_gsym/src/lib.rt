//! GSYM files: their head and tables, the symbols that they name, and the calls that were inlined into
//! these.
#![tactic(auto)]

mod entries;
pub mod format;
mod inline;
pub mod laws;
mod linetab;
mod locations;
mod parser;
mod resolver;
mod short;
mod symbol;
mod table;
mod types;

pub use format::{
    GSYM_MAGIC, GSYM_VERSION, INFO_TYPE_END_OF_LIST, INFO_TYPE_INLINE_INFO,
    INFO_TYPE_LINE_TABLE_INFO,
};
pub use inline::InlineInfo;
pub use linetab::{LineTableHeader, LineTableRow, RunResult, run_op};
pub use parser::{AddrDataIter, GsymContext, parse_address_data};
pub use resolver::GsymResolver;
pub use table::GsymTable;
pub use types::{AddrData, AddrInfo, FileInfo, Header, InlineFrame};
