//! Tests of bz_symbolize, over what it makes public. More of processes and of dispatchers are in
//! bz_process_tests, and more of calls that fail in bz_stacks_tests.
#![tactic(auto)]

#[cfg(test)]
mod asking;
#[cfg(test)]
mod breakpad;
#[cfg(test)]
mod calling;
#[cfg(test)]
mod changes;
#[cfg(test)]
mod copies;
#[cfg(test)]
mod elf;
#[cfg(test)]
mod gsym;
#[cfg(test)]
mod keeping;
#[cfg(test)]
mod lookups;
#[cfg(test)]
mod many;
#[cfg(test)]
mod steps;
#[cfg(test)]
mod told;
