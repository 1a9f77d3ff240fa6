//! Calls of a symbolizer that fail: by damaged files, by files that aren't there or may not be read,
//! and by looks that fail.

mod alone;
mod asking;
mod causes;
mod faults;
mod keeping;
mod sources;
mod steps;
