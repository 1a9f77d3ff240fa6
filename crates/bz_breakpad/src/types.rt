//! What is told of a PUBLIC record of a Breakpad file.

/// A symbol of a PUBLIC record.
#[derive(Debug, PartialEq, Eq, Drop)]
pub struct PublicSymbol<'a> {
    /// Where it starts, relative to the module's base.
    pub addr: u64,
    /// The size of its parameters, in bytes.
    pub parameter_size: u32,
    /// Its name.
    pub name: &'a str,
}
