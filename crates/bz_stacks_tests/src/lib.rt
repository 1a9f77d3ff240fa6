//! Tests of bz_stacks and bz_store, over what they make public; and of calls of a symbolizer that fail.
#![tactic(auto)]

#[cfg(test)]
mod asking;
#[cfg(test)]
mod courses;
#[cfg(test)]
mod failing;
#[cfg(test)]
mod files;
#[cfg(test)]
mod frames;
#[cfg(test)]
mod reading;
