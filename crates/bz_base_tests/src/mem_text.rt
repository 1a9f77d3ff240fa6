//! Readers and writers in memory.

use bz_files::{IoFault, MemIn, MemOut, TextIn, TextOut};
use std::alloc::Global;

/// Whether a text comes in pieces of three bytes, with a failure in between.
fn comes_in_pieces(input: &mut MemIn) -> bool {
    let mut piece = [0u8; 3];
    input.fail_call(2);
    input.take(&mut piece) == Ok(3)
        && piece == *b"abc"
        && input.take(&mut piece) == Err(IoFault::Fault)
        && input.take(&mut piece) == Ok(2)
        && input.faults() == 1
}

/// Whether a text comes so of bytes in memory.
fn comes_of_bytes(alloc: Global) -> bool {
    match b"abcde".to_vec(alloc) {
        Ok(bytes) => comes_in_pieces(&mut MemIn::new(bytes)),
        Err(_) => false,
    }
}

/// Whether a text goes in pieces, with a failure in between.
fn goes_in_pieces(output: &mut MemOut) -> bool {
    output.fail_call(2);
    output.put(b"abc") == Ok(3)
        && output.put(b"abc") == Err(IoFault::Fault)
        && output.written() == b"abc".as_slice()
        && output.faults() == 1
}

#[test]
fn memory_texts_come_and_go_in_pieces_and_fail(rt: HostRuntime) {
    let went = goes_in_pieces(&mut MemOut::new(rt.alloc()));
    assert!(rt; went, "a writer");
    assert!(rt; comes_of_bytes(rt.alloc()), "a reader");
}
