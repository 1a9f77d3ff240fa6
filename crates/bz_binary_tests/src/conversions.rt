//! Files that are converted, and what the GSYM files answer.

use crate::files::file_of;
use bz_base::{CodeInfo, Error, FindSymOpts, ResolvedSym, Symbolize};
use bz_convert::{ConvertError, convert};
use bz_gsym::GsymTable;
use bz_samples::{BREAKPAD_KINDS, GSYM_CONVERTED};
use std::alloc::Global;

/// A function with a call that was inlined, and two inside that one. One call stands there twice, and
/// one has no size.
const CALLS: &[u8] =
    b"FILE 7 p.c\nFILE 15 o.c\nFILE 4 m.c\nFILE 8 i2.c\nFUNC 1000 30 10 outer_func()\nINLINE_ORIGIN 1 inner_func_2()\nINLINE_ORIGIN 2 mid_func()\nINLINE_ORIGIN 3 inner_func_1()\nINLINE 1 17 4 1 1010 10\nINLINE 0 60 15 2 1000 20\nINLINE 1 12 4 3 1000 10\nINLINE 1 17 4 1 1010 10\nINLINE 0 9 15 2 1028 0\n1000 10 42 7\n1010 10 52 8\n1020 10 62 15\n";

/// The same function without the call that stands there twice and the one that has no size, and with
/// its calls in another order.
const NESTED: &[u8] =
    b"FILE 7 p.c\nFILE 15 o.c\nFILE 4 m.c\nFILE 8 i2.c\nFUNC 1000 30 10 outer_func()\nINLINE_ORIGIN 1 inner_func_2()\nINLINE_ORIGIN 2 mid_func()\nINLINE_ORIGIN 3 inner_func_1()\nINLINE 0 60 15 2 1000 20\nINLINE 1 12 4 3 1000 10\nINLINE 1 17 4 1 1010 10\n1000 10 42 7\n1010 10 52 8\n1020 10 62 15\n";

/// An address, and what the converted file answers there: start, size and module of the function, and
/// each name with its site, which has no directory, the outermost first; or a reason.
type Row = (u64, &'static str);

static ANSWERS: [Row; 5] = [
    (
        0x1000,
        "0x1000 0x30 -: outer_func() o.c:60; mid_func() m.c:12; inner_func_1() p.c:42; ",
    ),
    (
        0x101f,
        "0x1000 0x30 -: outer_func() o.c:60; mid_func() m.c:17; inner_func_2() i2.c:52; ",
    ),
    (0x1028, "0x1000 0x30 -: outer_func() o.c:62; "),
    (0xfff, "address not found in symbolization source"),
    (0x1030, "address not found in symbolization source"),
];

static NESTED_ANSWERS: [Row; 4] = [
    (
        0x1000,
        "0x1000 0x30 -: outer_func() o.c:60; mid_func() m.c:12; inner_func_1() p.c:42; ",
    ),
    (
        0x1010,
        "0x1000 0x30 -: outer_func() o.c:60; mid_func() m.c:17; inner_func_2() i2.c:52; ",
    ),
    (0x1020, "0x1000 0x30 -: outer_func() o.c:62; "),
    (0x1030, "address not found in symbolization source"),
];

/// What a file is converted to.
fn converted(alloc: Global, text: &[u8]) -> Result<Result<Vec<u8>, ConvertError>, Error> {
    Ok(convert(alloc, &file_of(alloc, text)?))
}

/// Writes a name with its site. A directory would stand right before the file.
fn write_at(out: &mut String, name: &str, site: &Option<CodeInfo<'_>>) -> Result<(), Error> {
    out.push_str(name)?;
    if let Some(site) = site {
        let dir = match &site.dir {
            Some(dir) => dir.as_str(),
            None => "",
        };
        let file = site.file.as_str();
        if let Some(line) = site.line {
            write!(out, " {dir}{file}:{line}; ")?;
        }
    }
    Ok(())
}

/// Writes start, size and module of a symbol, and the names of it and of the calls inlined there.
fn write_symbol(out: &mut String, symbol: &ResolvedSym<'_>) -> Result<(), Error> {
    let start = symbol.addr;
    let size = symbol.size.unwrap_or(0);
    let module = symbol.module.unwrap_or("-");
    write!(out, "{start:#x} {size:#x} {module}: ")?;
    write_at(out, symbol.name, &symbol.code_info)?;
    for call in &symbol.inlined {
        write_at(out, call.name.as_str(), &call.code_info)?;
    }
    Ok(())
}

/// What is answered at an address.
fn answer_at(alloc: Global, table: &GsymTable, addr: u64) -> Result<String, Error> {
    let mut said = String::new(alloc);
    match table.find_sym(alloc, addr, &FindSymOpts::CodeInfoAndInlined)? {
        Ok(symbol) => write_symbol(&mut said, &symbol)?,
        Err(reason) => write!(said, "{reason}")?,
    }
    Ok(said)
}

/// Whether this is said at an address.
fn is_said(alloc: Global, table: &GsymTable, addr: u64, expected: &str) -> bool {
    match answer_at(alloc, table, addr) {
        Ok(said) => said.as_str() == expected,
        Err(_) => false,
    }
}

/// How many rows' addresses a table answers so, before one that it doesn't.
fn count_until_failure(alloc: Global, table: &GsymTable, rows: &[Row]) -> usize {
    for index in 0..rows.len() {
        let (addr, expected) = rows[index];
        if !is_said(alloc, table, addr, expected) {
            return index;
        }
    }
    rows.len()
}

/// The same of the file that a text is converted to.
fn count_answers(alloc: Global, text: &[u8], rows: &[Row]) -> usize {
    let Ok(Ok(bytes)) = converted(alloc, text) else {
        return 0;
    };
    match GsymTable::from_bytes(bytes) {
        Ok(table) => count_until_failure(alloc, &table, rows),
        Err(_) => 0,
    }
}

/// Whether a function with a line is converted, byte by byte, and a PUBLIC record is left out.
fn converts_a_line(alloc: Global) -> bool {
    match converted(alloc, BREAKPAD_KINDS) {
        Ok(Ok(bytes)) => bytes.as_slice() == GSYM_CONVERTED,
        _ => false,
    }
}

#[test]
fn files_are_converted(rt: HostRuntime) {
    assert!(rt; converts_a_line(rt.alloc()), "a line");
    let rows = &ANSWERS;
    let answered = count_answers(rt.alloc(), CALLS, rows);
    assert!(rt; answered == rows.len(), "calls: row {answered}");
    let nested = &NESTED_ANSWERS;
    let answered = count_answers(rt.alloc(), NESTED, nested);
    assert!(rt; answered == nested.len(), "nested calls: row {answered}");
}
