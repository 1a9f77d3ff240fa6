//! What the words of a command line ask for.

use bz_base::Input;
use bz_requests::{Config, Target};

/// What the words ask for.
#[derive(Drop)]
pub struct Command {
    /// How sources are asked. Every job takes all of it; what a job has no use for has no effect.
    pub config: Config,
    /// What is to be done.
    pub job: Job,
}

/// What is to be done.
#[derive(Drop)]
pub enum Job {
    /// One batch of the addresses on the input: what it asks, and which kind of address they are.
    Batch(Target, Input<()>),
    /// The requests on the input.
    Serve,
    /// The generated job; the input isn't read.
    Generate {
        /// The number before the first of its numbers, each of which is made of the one before it.
        seed: u64,
        /// How many functions its text has.
        functions: u64,
        /// How many addresses it asks for.
        addresses: u64,
    },
    /// A product; the input isn't read.
    Make(Product),
    /// The stacks on the input, folded; their addresses are those of the Breakpad file at a path.
    Stacks(String),
    /// The frames on the input, answered by the symbol files of the store at a path.
    Frames(String),
}

/// What is made of one file, and written as it is.
#[derive(Drop)]
pub enum Product {
    /// The GSYM bytes of the Breakpad file at a path.
    Converted(String),
    /// The canonical text of the Breakpad file at a path.
    Canonical(String),
}
