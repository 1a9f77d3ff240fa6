//! Where an ELF file of 64 bits has its fields, and what their values mean, by the names that the
//! System V gABI gives them. Head, sections and symbols stand in its chapter 4, program headers in
//! chapter 5.

// The identification, `e_ident`, which begins the head.

/// The place of the magic number.
pub(super) const EI_MAG0: usize = 0;

/// The magic number: the bytes 7f, E, L and F.
pub(super) const ELFMAG: u32 = 0x464c457f;

/// The place of the class.
pub(super) const EI_CLASS: usize = 4;

/// The place of the order of bytes.
pub(super) const EI_DATA: usize = 5;

/// The class of files of 64 bits.
pub(super) const ELFCLASS64: u8 = 2;

/// The order of bytes of little-endian files.
pub(super) const ELFDATA2LSB: u8 = 1;

/// How many bytes hold the magic number, the class and the order of bytes.
pub(super) const IDENTITY_LEN: usize = 6;

// The head, `Elf64_Ehdr`.

/// The size of the head, in bytes.
pub(super) const HEAD_LEN: usize = 64;

/// The place of the file offset at which the program headers begin.
pub(super) const E_PHOFF: usize = 32;

/// The place of the file offset at which the section headers begin.
pub(super) const E_SHOFF: usize = 40;

/// The place of the size of a program header.
pub(super) const E_PHENTSIZE: usize = 54;

/// The place of the number of program headers.
pub(super) const E_PHNUM: usize = 56;

/// The place of the size of a section header.
pub(super) const E_SHENTSIZE: usize = 58;

/// The place of the number of section headers.
pub(super) const E_SHNUM: usize = 60;

/// The number of program headers that says that another place tells it.
pub(super) const PN_XNUM: u16 = 0xffff;

// A program header, `Elf64_Phdr`. The segment's type, `p_type`, is its first field.

/// The size of a program header, in bytes.
pub(super) const PROGRAM_HEADER_LEN: usize = 56;

/// The place of the file offset at which a segment begins.
pub(super) const P_OFFSET: usize = 8;

/// The place of the address at which a segment is loaded.
pub(super) const P_VADDR: usize = 16;

/// The place of the number of bytes that a segment has in the file.
pub(super) const P_FILESZ: usize = 32;

/// The type of a segment that is loaded.
pub(super) const PT_LOAD: u32 = 1;

// A section header, `Elf64_Shdr`.

/// The size of a section header, in bytes.
pub(super) const SECTION_HEADER_LEN: usize = 64;

/// The place of a section's type.
pub(super) const SH_TYPE: usize = 4;

/// The place of the file offset at which a section begins.
pub(super) const SH_OFFSET: usize = 24;

/// The place of a section's size.
pub(super) const SH_SIZE: usize = 32;

/// The place of the index of another section, that of the strings of a symbol table.
pub(super) const SH_LINK: usize = 40;

/// The place of the size of a section's entries.
pub(super) const SH_ENTSIZE: usize = 56;

/// The type of section that holds all symbols.
pub(super) const SHT_SYMTAB: u32 = 2;

/// The type of section that holds the symbols for linking at run time.
pub(super) const SHT_DYNSYM: u32 = 11;

// An entry of a symbol table, `Elf64_Sym`. The place of the name in the strings, `st_name`, is its
// first field.

/// The size of an entry of a symbol table, in bytes.
pub(super) const SYMBOL_LEN: usize = 24;

/// The place of a symbol's binding and type.
pub(super) const ST_INFO: usize = 4;

/// The place of the index of the section that a symbol lies in.
pub(super) const ST_SHNDX: usize = 6;

/// The place of a symbol's address.
pub(super) const ST_VALUE: usize = 8;

/// The place of a symbol's size.
pub(super) const ST_SIZE: usize = 16;

/// The type of symbols that are functions.
pub(super) const STT_FUNC: u8 = 2;

/// The type of symbols that are functions chosen when the file is loaded. It is an extension by GNU,
/// among the types that the gABI leaves to systems.
pub(super) const STT_GNU_IFUNC: u8 = 10;

/// The index that says that a symbol lies in no section.
pub(super) const SHN_UNDEF: u16 = 0;
