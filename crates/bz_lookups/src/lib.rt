//! A held version of a source, and its answers for a batch of addresses.
#![tactic(auto)]

mod answering;
mod breakpad;
mod elf;
mod gsym;
mod held;
mod lookups;
mod together;

pub use answering::{Answers, hold_file};
pub use gsym::hold_data;
pub use held::{ElfAddressKind, Held, HeldElf};
pub use lookups::Lookups;
pub use together::TOGETHER;
