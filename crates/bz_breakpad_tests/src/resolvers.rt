//! Resolvers: what opening one answers, and the symbols that one finds.

use crate::files::OVERLAPPING;
use crate::inspected::{LATE_TWIN, LONG_TWIN, SHORT_TWIN, TWINS};
use crate::resolved::Found::{Refused, Symbol, Unknown};
use crate::resolved::Resolved::{At, Named, NoVariables, Printed};
use crate::resolved::{Row, is_resolved};
use bz_base::{Error, ErrorKind, FindSymOpts, Reason, Result, SymType};
use bz_breakpad::{BreakpadResolver, SymInfo};
use bz_files::MemFiles;
use bz_samples::{BREAKPAD_KINDS, put};
use std::alloc::Global;

/// A function whose line record has a file that no FILE record names.
const UNKNOWN_FILE: &[u8] = b"FUNC 1000 30 10 f\n1000 30 7 9\n";

/// The shorter one of two functions of one start.
const X: SymInfo<'static> = SymInfo {
    name: "x",
    addr: 1,
    size: Some(2),
    sym_type: SymType::Function,
    file_offset: None,
    module: None,
};

/// What a resolver prints, and what it finds at addresses. A site is refused where it is asked for, and
/// there alone. Then the functions of a name, and no variables.
static RESOLVED: [Row; 16] = [
    (BREAKPAD_KINDS, Printed("Breakpad /p")),
    (
        BREAKPAD_KINDS,
        At(
            0x1010,
            FindSymOpts::CodeInfoAndInlined,
            Symbol(("another func", "", "bar.c", 7), 0x1000, Some(0x30), "bar"),
        ),
    ),
    (
        BREAKPAD_KINDS,
        At(
            0x1234,
            FindSymOpts::CodeInfoAndInlined,
            Symbol(("some public", "", "", 0), 0x1234, None, "bar"),
        ),
    ),
    (
        BREAKPAD_KINDS,
        At(
            0x1300,
            FindSymOpts::CodeInfoAndInlined,
            Symbol(("some public", "", "", 0), 0x1234, None, "bar"),
        ),
    ),
    (
        b"FUNC 10 8 0 f\n",
        At(
            0x17,
            FindSymOpts::CodeInfoAndInlined,
            Symbol(("f", "", "", 0), 0x10, Some(8), ""),
        ),
    ),
    (
        BREAKPAD_KINDS,
        At(0xfff, FindSymOpts::Basic, Unknown(Reason::UnknownAddr)),
    ),
    (
        BREAKPAD_KINDS,
        At(0x1030, FindSymOpts::Basic, Unknown(Reason::UnknownAddr)),
    ),
    (
        b"INFO x\n",
        At(0x1000, FindSymOpts::Basic, Unknown(Reason::MissingSyms)),
    ),
    (
        UNKNOWN_FILE,
        At(0x1000, FindSymOpts::CodeInfo, Refused(Error::InvalidInput)),
    ),
    (
        UNKNOWN_FILE,
        At(
            0x1000,
            FindSymOpts::Basic,
            Symbol(("f", "", "", 0), 0x1000, Some(0x30), ""),
        ),
    ),
    (TWINS, Named("twin", &[SHORT_TWIN, LONG_TWIN, LATE_TWIN])),
    (TWINS, Named("twi", &[])),
    (OVERLAPPING, Named("x", &[X])),
    (OVERLAPPING, Named("q", &[])),
    (OVERLAPPING, NoVariables("x")),
    (TWINS, NoVariables("twin")),
];

/// How many rows are shown by the resolvers of their texts, before one that isn't.
fn count_until_failure(alloc: Global, files: &mut MemFiles, rows: &[Row]) -> usize {
    for index in 0..rows.len() {
        let (text, resolved) = &rows[index];
        if is_resolved(alloc, files, text, resolved) != Ok(true) {
            return index;
        }
    }
    rows.len()
}

#[test]
fn resolvers_print_and_find_symbols_and_functions_or_refuse(rt: HostRuntime) {
    let rows = &RESOLVED;
    let shown = count_until_failure(rt.alloc(), &mut MemFiles::new(rt.alloc(), 0), rows);
    assert!(rt; shown == rows.len(), "row {shown}");
}

/// Whether the path is refused so.
fn refuses(alloc: Global, files: &mut MemFiles, path: &str, kind: ErrorKind) -> bool {
    match BreakpadResolver::open(alloc, files, path) {
        Ok(_) => false,
        Err(error) => error.kind() == kind,
    }
}

/// Paths, and the causes by which they are refused, one after another.
static REFUSED: [(&str, ErrorKind); 4] = [
    ("/absent", ErrorKind::NotFound),
    ("/denied", ErrorKind::PermissionDenied),
    ("/cut", ErrorKind::InvalidInput),
    ("/p", ErrorKind::ReadFault),
];

/// Puts a good file, a text whose line has no end, and a path that is denied. The fourth call
/// fails.
fn fill(alloc: Global, files: &mut MemFiles) -> Result<()> {
    put(alloc, files, "/p", BREAKPAD_KINDS)?;
    put(alloc, files, "/cut", b"MODULE Linux x86 ffff0000 bar")?;
    files.deny(alloc, "/denied")?;
    files.fail_call(alloc, 4)
}

/// The first thing that fails: a path that isn't refused by its cause, or the putting of files;
/// nothing where none does.
fn first_to_fail(alloc: Global, files: &mut MemFiles) -> &'static str {
    let Ok(()) = fill(alloc, files) else {
        return "files are put";
    };
    for (path, kind) in &REFUSED {
        if !refuses(alloc, files, path, *kind) {
            return path;
        }
    }
    ""
}

#[test]
fn paths_are_refused_by_their_causes(rt: HostRuntime) {
    let failed = first_to_fail(rt.alloc(), &mut MemFiles::new(rt.alloc(), 0));
    assert!(rt; failed.is_empty(), "{failed}");
}
