//! Which record of a table answers for an address.
#![tactic(auto)]

mod abreast;
mod chain;
pub mod laws;
mod place;
mod records;
mod span;
mod starts;
mod steps;
mod sweep;
mod table;

pub use chain::{Nested, around_in, chain_in, inner_in, sort_nested};
pub use place::Place;
pub use records::covering_in;
pub use span::{Addr, covers, inside};
pub use starts::{Probe, Starts, nearest};
pub use steps::Steps;
pub use sweep::nearest_each;
pub use table::{Spanned, covering_at, place_found, sort_table, starts_of};
