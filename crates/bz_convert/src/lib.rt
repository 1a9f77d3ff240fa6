//! The conversion: the plan of a Breakpad file without a fault, laid out as a GSYM file. Also why a
//! file isn't converted, and the rows and inlined calls of its functions.
#![tactic(auto)]

mod calls;
mod clean_ids;
mod conversion;
mod error;
mod fault;
mod ids;
pub mod laws;
mod rows;

pub use conversion::convert;
pub use error::ConvertError;
