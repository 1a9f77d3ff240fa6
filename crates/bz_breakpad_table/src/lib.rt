//! The walk over a Breakpad file's lines, the table that it keeps,
//! and where bytes are refused as such a file.
#![tactic(auto)]

mod before;
mod calls;
mod function_key;
mod functions;
pub mod laws;
mod line_key;
mod names;
mod publics;
mod read;
mod reading;
mod refused;
mod sorting;
mod standing;
mod table;
mod types;
mod walk;

pub use names::{Names, name_of, names_of, text_of};
pub use publics::{PublicTable, sorted_publics};
pub use refused::{Refused, first_refused};
pub use table::{FileRead, read_table};
pub use types::{
    CallRange, FunctionKey, FunctionTable, KeptFunction, KeptPublic, KeptTable, LineRecords, Part,
};
