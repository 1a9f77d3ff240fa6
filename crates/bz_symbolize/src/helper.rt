//! What answers addresses by one file that it holds, without a symbolizer.

pub use bz_breakpad::BreakpadResolver;
pub use bz_elf::ElfResolver;
pub use bz_gsym::GsymResolver;
