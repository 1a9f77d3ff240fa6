//! How an input is read, and what its lines say: one item each, as an address or a request to a
//! symbolizer. Empty lines are skipped. Also the fields of a line, and the settings of a symbolizer.
#![tactic(auto)]

mod addresses;
mod field;
mod input;
pub mod laws;
mod lines;
mod reading;
mod requests;

pub use addresses::{address, each_address};
pub use field::fields;
pub use input::{ReadStop, read_addrs, read_input};
pub use lines::{BadInput, FromLine, read_lines};
pub use reading::read_requests;
pub use requests::{Config, Request, Target};
