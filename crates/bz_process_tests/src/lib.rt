//! Tests of bz_proc and bz_process, over what they make public; of processes that a symbolizer is asked
//! for; and of texts that are cut, and deep trees.
#![tactic(auto)]

#[cfg(test)]
mod answers;
#[cfg(test)]
mod caching;
#[cfg(test)]
mod calling;
#[cfg(test)]
mod damaged;
#[cfg(test)]
mod dispatchers;
#[cfg(test)]
mod files;
#[cfg(test)]
mod maps;
#[cfg(test)]
mod owners;
#[cfg(test)]
mod perf_maps;
#[cfg(test)]
mod reading;
#[cfg(test)]
mod refusals;
#[cfg(test)]
mod statuses;
#[cfg(test)]
mod steps;
#[cfg(test)]
mod symbolizer;
