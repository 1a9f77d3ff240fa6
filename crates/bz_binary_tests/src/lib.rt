//! Tests of bz_elf and bz_gsym, over what they make public; and of GSYM files that bz_gsym_layout and
//! bz_convert make.
#![tactic(auto)]

#[cfg(test)]
mod conversions;
#[cfg(test)]
mod elf;
#[cfg(test)]
mod faults;
#[cfg(test)]
mod files;
#[cfg(test)]
mod gsym;
#[cfg(test)]
mod plans;
