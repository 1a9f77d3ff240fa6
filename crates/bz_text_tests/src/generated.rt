//! The generated job.

use bz_canon::{gen_addrs, gen_text};
use std::alloc::Global;

/// The text of two functions.
const TEXT: &str =
    "MODULE Linux x86_64 0 gen\nFILE 0 gen.c\nINLINE_ORIGIN 0 g\nFUNC 1040 30 0 f1\nINLINE 0 7 0 0 1040 8\n1040 10 2 0\n1050 20 3 0\nFUNC 1000 30 0 f0\nINLINE 0 7 0 0 1000 8\n1000 10 1 0\n1010 20 2 0\n";

/// Whether the text of two functions is this one, with the last function first.
fn writes_the_last_function_first(alloc: Global) -> bool {
    match gen_text(alloc, 2) {
        Ok(bytes) => bytes.as_slice() == TEXT.as_bytes(),
        Err(_) => false,
    }
}

/// Whether the greatest text has all its bytes.
fn writes_the_greatest_text(alloc: Global) -> bool {
    match gen_text(alloc, 100_000) {
        Ok(bytes) => bytes.len() == 8_297_622,
        Err(_) => false,
    }
}

/// Whether four addresses are asked about, of three functions.
fn asks_among_three_functions(alloc: Global) -> bool {
    match gen_addrs(alloc, 1, 3, 4) {
        Ok(addrs) => addrs.as_slice() == [0x10c6, 0x107e, 0x1081, 0x106b].as_slice(),
        Err(_) => false,
    }
}

#[test]
fn generates_texts_and_addresses(rt: HostRuntime) {
    assert!(rt; writes_the_last_function_first(rt.alloc()), "two functions");
    assert!(rt; writes_the_greatest_text(rt.alloc()), "the greatest text");
    assert!(rt; asks_among_three_functions(rt.alloc()), "addresses");
}
