//! What is to be laid out: functions with their rows and the calls that were inlined into them. They
//! refer to texts and source files by their indexes. Rows and calls, of which there are many, have
//! indexes of 32 bits. Addresses are relative to the module's base, which is the file's base address 0.

/// A source file, by the indexes of its directory and its name among the texts. A file without
/// directory has the empty text there.
#[derive(Clone, Copy)]
pub struct SourceFile {
    /// The index of the text that names its directory.
    pub dir: usize,
    /// The index of the text that names it in its directory.
    pub name: usize,
}

/// A row of a line table: code from this address on comes from a line of a source file.
#[derive(Clone, Copy)]
pub struct Row {
    /// The address, at the start of the function or behind it.
    pub addr: u64,
    /// The index of the source file.
    pub source: u32,
    /// The line in the source file.
    pub line: u32,
}

/// A node of an inline tree: a call that was inlined.
#[derive(Clone, Copy)]
pub struct Node {
    /// How many calls lie around it in its function.
    pub depth: u32,
    /// Where its code begins: an address, as that of the function.
    pub start: u64,
    /// How many bytes its code has.
    pub size: u32,
    /// The index of the text that names what is called.
    pub name: u32,
    /// The index of the source file that it is called in.
    pub source: u32,
    /// The line that it is called at.
    pub line: u32,
}

/// A function.
#[derive(Drop)]
pub struct Function {
    /// Where its code begins: an address relative to the module's base.
    pub start: u64,
    /// How many bytes its code has.
    pub size: u32,
    /// The index of the text that names it.
    pub name: usize,
    /// Its rows, in the order of their addresses.
    pub rows: Vec<Row>,
    /// The calls that were inlined into it, each behind those around it.
    pub calls: Vec<Node>,
}

/// Functions, and what they refer to: texts and source files, each once, in the order of first use.
#[derive(Drop)]
pub struct Plan<'a> {
    /// The texts.
    pub texts: Vec<&'a str>,
    /// The source files.
    pub sources: Vec<SourceFile>,
    /// The functions, in the order of their addresses.
    pub functions: Vec<Function>,
}
