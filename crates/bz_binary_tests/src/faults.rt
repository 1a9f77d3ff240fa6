//! Files that aren't converted, and why.

use crate::files::file_of;
use bz_breakpad::SymbolFile;
use bz_convert::{ConvertError, convert};
use bz_samples::BREAKPAD_CALLS;
use std::alloc::Global;

/// A file's text, and what is said of its first fault: nothing where it has none. Each cause once;
/// sizes of 0, equal calls, and functions whose end passes 64 bits. Then files with several causes: in
/// one function the first by the kinds' order, in several the one of the least start.
static CAUSES: [(&[u8], &str); 21] = [
    (b"INFO x\n", ""),
    (b"FUNC 10 0 0 f\n", "the function at 0x10 has size 0"),
    (
        b"FUNC 10 8 0 g\nFUNC 10 4 0 f\n",
        "two functions start at 0x10",
    ),
    (
        b"FUNC 1000 20 0 f\n1000 8 1 0\n1010 10 2 0\nFILE 0 a.c\n",
        "the function at 0x1000 has no line at 0x1008",
    ),
    (b"FILE 0 a.c\nFUNC 10 8 0 f\n14 4 1 0\n", ""),
    (
        b"FILE 0 a.c\nINLINE_ORIGIN 0 g\nFUNC 10 8 0 f\nINLINE 0 1 0 0 14 8\n10 8 1 0\n",
        "the function at 0x10 has a call of depth 0 at 0x14 that isn't nested",
    ),
    (
        b"FILE 0 a.c\nINLINE_ORIGIN 0 g\nFUNC 10 8 0 f\nINLINE 1 1 0 0 14 2\n10 8 1 0\n",
        "the function at 0x10 has a call of depth 1 at 0x14 that isn't nested",
    ),
    (
        b"FILE 0 a.c\nINLINE_ORIGIN 0 g\nFUNC 10 8 0 f\nINLINE 0 1 0 0 10 4 12 4\n10 8 1 0\n",
        "the function at 0x10 has calls of depth 0 that overlap at 0x12",
    ),
    (
        b"FILE 0 a.c\nINLINE_ORIGIN 0 g\nFUNC 10 8 0 f\nINLINE 0 1 0 0 10 4 12 0\n10 8 1 0\n",
        "the function at 0x10 has calls of depth 0 that overlap at 0x12",
    ),
    (
        b"FILE 0 a.c\nINLINE_ORIGIN 0 g\nFUNC 10 8 0 f\nINLINE 0 1 0 0 10 4 10 4\n10 8 1 0\n",
        "",
    ),
    (
        BREAKPAD_CALLS,
        "the function at 0x1000 asks for a file of id 7, which isn't known",
    ),
    (
        b"FILE 0 a.c\nINLINE_ORIGIN 0 g\nFUNC 10 8 0 f\nINLINE 0 1 5 0 10 4\n10 8 1 0\n",
        "the function at 0x10 asks for a file of id 5, which isn't known",
    ),
    (
        b"FILE 0 a.c\nFUNC 10 8 0 f\nINLINE 0 1 5 0 10 0\n10 8 1 0\n",
        "",
    ),
    (
        b"FILE 0 a.c\nFUNC 10 8 0 f\nINLINE 0 1 0 3 10 4\n10 8 1 0\n",
        "the function at 0x10 asks for an origin of id 3, which isn't known",
    ),
    (
        b"FUNC 10 4 0 a\x00b\n",
        "a text of the function at 0x10 holds a zero byte",
    ),
    (b"FUNC ffffffffffffffff 2 0 f\n1 1 1 9\n", ""),
    (
        b"FUNC 10 8 0 f\n10 4 1 9\n",
        "the function at 0x10 has no line at 0x14",
    ),
    (
        b"FUNC 10 8 0 f\nINLINE 0 1 0 0 10 4 12 8\n10 8 1 9\n",
        "the function at 0x10 has a call of depth 0 at 0x12 that isn't nested",
    ),
    (
        b"FUNC 10 8 0 f\nINLINE 0 1 0 0 10 4 12 4\n10 8 1 9\n",
        "the function at 0x10 has calls of depth 0 that overlap at 0x12",
    ),
    (
        b"FUNC 20 0 0 g\nFUNC 10 8 0 f\n10 8 1 9\n",
        "the function at 0x10 asks for a file of id 9, which isn't known",
    ),
    (
        b"FUNC 10 8 0 f\n10 8 1 9\nFUNC 10 0 0 g\n",
        "the function at 0x10 has size 0",
    ),
];

fn is_message(alloc: Global, error: ConvertError, expected: &str) -> bool {
    match format!(in alloc; "{error}") {
        Ok(message) => message.as_str() == expected,
        Err(_) => false,
    }
}

/// The length of a file that is too large is said in decimal digits.
fn tells_the_length_of_a_large_file(alloc: Global) -> bool {
    let error = ConvertError::TooLarge { bytes: 4294967296 };
    is_message(
        alloc,
        error,
        "the converted file would have 4294967296 bytes, which is too many",
    )
}

/// Whether this is said of the first fault of a file, or nothing where the file is converted.
fn is_first_fault(alloc: Global, file: &SymbolFile, said: &str) -> bool {
    match convert(alloc, file) {
        Ok(_bytes) => said.is_empty(),
        Err(fault) => is_message(alloc, fault, said),
    }
}

/// The same of a text.
fn is_said(alloc: Global, text: &[u8], said: &str) -> bool {
    match file_of(alloc, text) {
        Ok(file) => is_first_fault(alloc, &file, said),
        Err(_) => false,
    }
}

#[test]
fn tells_the_first_fault_of_files_or_none(rt: HostRuntime) {
    let causes = &CAUSES;
    for index in 0..causes.len() {
        let (text, said) = causes[index];
        assert!(rt; is_said(rt.alloc(), text, said), "row {index}");
    }
    assert!(rt;
        tells_the_length_of_a_large_file(rt.alloc()),
        "a large file"
    );
}
