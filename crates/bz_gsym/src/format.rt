//! The numbers of the format, for readers and for writers of files.

/// The number that each file begins with.
pub const GSYM_MAGIC: u32 = 0x4753594d;

/// The one version that is read.
pub const GSYM_VERSION: u16 = 1;

/// How many bytes the head has.
pub const HEADER_LEN: usize = 48;

/// How many bytes there are for the build id, at the end of the head.
pub const GSYM_MAX_UUID_SIZE: usize = 20;

/// How many bytes a data place has.
pub const DATA_PLACE_LEN: usize = 4;

/// How many bytes the count of files has.
pub const FILE_COUNT_LEN: usize = 4;

/// How many bytes an entry of the file table has: the places of a directory and of a name.
pub const FILE_ENTRY_LEN: usize = 8;

/// How many bytes stand before a symbol's data entries: those of its size and of its name.
pub const FUNCTION_INFO_LEN: usize = 8;

/// The type of data entry that ends a list.
pub const INFO_TYPE_END_OF_LIST: u32 = 0;

/// The type of data entry that is a line table.
pub const INFO_TYPE_LINE_TABLE_INFO: u32 = 1;

/// The type of data entry that is a tree of inlined calls.
pub const INFO_TYPE_INLINE_INFO: u32 = 2;

/// The operator that ends a line table.
pub const END_SEQUENCE: u8 = 0;

/// The operator that sets the file. Its state is no row.
pub const SET_FILE: u8 = 1;

/// The operator that goes on to a further address. Its state is a row.
pub const ADVANCE_PC: u8 = 2;

/// The operator that goes on to another line. Its state is no row.
pub const ADVANCE_LINE: u8 = 3;

/// The first of the special operators, whose states are rows.
pub const FIRST_SPECIAL: u8 = 4;

/// The count of ranges that ends siblings in an inline tree.
pub const NO_RANGES: u64 = 0;

/// The flag of a node of an inline tree that has no children. Any other one says that children follow.
pub const NO_CHILDREN: u8 = 0;
