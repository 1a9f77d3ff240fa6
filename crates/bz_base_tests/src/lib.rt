//! Tests of bz_base, bz_bytes, bz_search, bz_files and bz_cache, over what they make public. They show
//! that calls succeed, that they answer what was worked out by hand, and what real files, readers and
//! writers give.
#![tactic(auto)]

#[cfg(test)]
mod answers;
#[cfg(test)]
mod cursor;
#[cfg(test)]
mod failing;
#[cfg(test)]
mod file_cache;
#[cfg(test)]
mod insert_map;
#[cfg(test)]
mod mem_files;
#[cfg(test)]
mod mem_text;
#[cfg(test)]
mod nearest;
#[cfg(test)]
mod path;
#[cfg(test)]
mod pids;
#[cfg(test)]
mod real_files;
#[cfg(test)]
mod real_text;
#[cfg(test)]
mod replaced;
#[cfg(test)]
mod resolve;
#[cfg(test)]
mod text;
