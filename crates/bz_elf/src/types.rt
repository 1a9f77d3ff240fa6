//! What is read of an ELF file: numbers, and places in its bytes.

ghost use Rattle.std.specs.Prelude.{◌≡◌};

use bz_base::Spanned;

/// A part of the file's bytes.
#[derive(Clone, Copy)]
pub(crate) struct Part {
    /// The place of its first byte.
    pub offset: usize,
    /// How many bytes it has.
    pub size: usize,
}

/// A section header, an `Elf64_Shdr` of the System V gABI.
#[derive(Clone, Copy)]
pub(crate) struct Section {
    /// The section's type, `sh_type`.
    pub kind: u32,
    /// The place of its first byte in the file, `sh_offset`.
    pub offset: u64,
    /// Its size, in bytes: `sh_size`.
    pub size: u64,
    /// The index of another section, that of the strings of a symbol table: `sh_link`.
    pub link: u32,
    /// The size of one of its entries, in bytes: `sh_entsize`.
    pub entry_size: u64,
}

/// A load segment, `PT_LOAD`: a part of the file that is loaded.
#[derive(Clone, Copy)]
pub(crate) struct Segment {
    /// The place of its first byte in the file, `p_offset`.
    pub offset: u64,
    /// The address at which that byte is loaded, `p_vaddr`.
    pub addr: u64,
    /// How many bytes of the file are loaded: `p_filesz`.
    pub size: u64,
}

/// A symbol that counts, by fields of its `Elf64_Sym`.
#[derive(Clone, Copy)]
pub(crate) struct SymbolEntry {
    /// Its first address, `st_value`.
    pub start: u64,
    /// Its size in bytes, `st_size`; 0 where that isn't known.
    pub size: u64,
    /// The place of its name in the strings, `st_name`.
    pub name: u32,
}

impl Spanned for SymbolEntry {
    ghost start = { λ symbol. symbol.start };

    ghost size = { λ symbol. symbol.size };

    fn start(&self) -> u64 {
        self.start
    }

    fn size(&self) -> u64 {
        self.size
    }
}

/// Where the symbols of a file lie.
#[derive(Clone, Copy)]
pub(crate) struct SymbolTable {
    /// The place of the first entry in the file's bytes.
    pub offset: usize,
    /// How many entries there are.
    pub count: usize,
    /// The strings that names lie in.
    pub strings: Part,
}

/// What is kept of a file beside its bytes.
#[derive(Drop)]
pub(crate) struct KeptFile {
    /// The strings that names lie in.
    pub strings: Part,
    /// The symbols that count, by start and size, those alike in both in the order of the file.
    pub symbols: Vec<SymbolEntry>,
    /// The load segments, in the order of the file.
    pub segments: Vec<Segment>,
}
