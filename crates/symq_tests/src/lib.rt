//! Tests of the program by runs in memory. They show what single files and processes answer, what is
//! made of files, and how words, inputs and faults end a run.
#![tactic(auto)]

#[cfg(test)]
mod answers;
#[cfg(test)]
mod canon;
#[cfg(test)]
mod convert;
#[cfg(test)]
mod elf;
#[cfg(test)]
mod endings;
#[cfg(test)]
mod gsym;
#[cfg(test)]
mod inputs;
#[cfg(test)]
mod outputs;
#[cfg(test)]
mod processes;
#[cfg(test)]
mod tables;
#[cfg(test)]
mod words;
