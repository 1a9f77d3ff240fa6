//! Tests of the program's other jobs by runs in memory: requests, stacks, crash frames, and generated
//! jobs. Parts of a run are called by themselves too, and frames are read from their lines.
#![tactic(auto)]

#[cfg(test)]
mod frame_lines;
#[cfg(test)]
mod frames;
#[cfg(test)]
mod jobs;
#[cfg(test)]
mod parts;
#[cfg(test)]
mod serve;
#[cfg(test)]
mod stacks;
#[cfg(test)]
mod tables;
