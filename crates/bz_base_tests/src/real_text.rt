//! Readers and writers of the system.

use bz_files::{IoFault, RealIn, RealOut, TextIn, TextOut};
use std::alloc::Global;
use std::io::{self, ErrorKind, Read, Write};

/// Whether a text comes in pieces of three bytes, and then ends.
fn comes_in_pieces() -> bool {
    let mut piece = [0u8; 3];
    let mut input = RealIn::new(b"abcd".as_slice());
    input.take(&mut piece) == Ok(3)
        && piece == *b"abc"
        && input.take(&mut piece) == Ok(1)
        && piece == *b"dbc"
        && input.take(&mut piece) == Ok(0)
        && input.faults() == 0
}

/// Whether pieces of a text go.
fn goes(written: &mut Vec<u8>) -> bool {
    let mut output = RealOut::new(written);
    output.put(b"abc") == Ok(3) && output.put(b"de") == Ok(2) && output.faults() == 0
}

/// Whether a text goes in pieces.
fn goes_in_pieces(alloc: Global) -> bool {
    let mut written = Vec::new(alloc);
    goes(&mut written) && written.as_slice() == b"abcde".as_slice()
}

#[test]
fn real_texts_come_and_go_in_pieces(rt: HostRuntime) {
    assert!(rt; comes_in_pieces(), "a reader");
    assert!(rt; goes_in_pieces(rt.alloc()), "a writer");
}

/// A reader and writer whose first calls fail in one way, and that then serves.
#[derive(Drop)]
struct FailsFirst {
    kind: ErrorKind,
    /// How many calls still fail.
    left: u32,
}

impl FailsFirst {
    /// Fails this call, if it is one of the first.
    fn call(&mut self) -> io::Result<()> {
        if self.left > 0 {
            self.left -= 1;
            return Err(io::Error::from(self.kind));
        }
        Ok(())
    }
}

impl Read for FailsFirst {
    fn read(&mut self, piece: &mut [u8]) -> io::Result<usize> {
        self.call()?;
        match piece.first_mut() {
            Some(byte) => {
                *byte = b'a';
                Ok(1)
            }
            None => Ok(0),
        }
    }
}

impl Write for FailsFirst {
    fn write(&mut self, piece: &[u8]) -> io::Result<usize> {
        self.call()?;
        Ok(piece.len())
    }

    fn flush(&mut self) -> io::Result<()> {
        Ok(())
    }
}

/// How the first calls fail, how many of them, and how many faults that is.
static FAILURES: [(ErrorKind, u32, u64); 3] = [
    (ErrorKind::BrokenPipe, 1, 1),
    // Calls that the system interrupts are made again.
    (ErrorKind::Interrupted, 63, 0),
    // So many in a row are a fault.
    (ErrorKind::Interrupted, 64, 1),
];

/// Whether the first piece is a fault that is counted, if there is one, and the next one comes.
fn comes_after(kind: ErrorKind, left: u32, faults: u64) -> bool {
    let mut piece = [0u8; 3];
    let mut input = RealIn::new(FailsFirst { kind, left });
    (faults == 0 || input.take(&mut piece) == Err(IoFault::Fault))
        && input.take(&mut piece) == Ok(1)
        && piece == *b"a\0\0"
        && input.faults() == faults
}

/// Whether the first piece is a fault that is counted, if there is one, and the next one goes.
fn goes_after(kind: ErrorKind, left: u32, faults: u64) -> bool {
    let mut output = RealOut::new(FailsFirst { kind, left });
    (faults == 0 || output.put(b"abc") == Err(IoFault::Fault))
        && output.put(b"abc") == Ok(3)
        && output.faults() == faults
}

/// Whether a writer over an array takes nothing once it is full.
fn goes_while_there_is_room() -> bool {
    let mut room = [0u8; 2];
    let mut full = RealOut::new(room.as_mut_slice());
    full.put(b"abc") == Ok(2)
        && full.put(b"c") == Err(IoFault::Fault)
        && full.put(b"") == Ok(0)
        && full.faults() == 1
}

#[test]
fn real_texts_go_on_after_failures_and_end_where_there_is_no_room(rt: HostRuntime) {
    let failures = &FAILURES;
    for index in 0..failures.len() {
        let (kind, left, faults) = failures[index];
        assert!(rt; comes_after(kind, left, faults), "a reader, row {index}");
        assert!(rt; goes_after(kind, left, faults), "a writer, row {index}");
    }
    assert!(rt; goes_while_there_is_room(), "a full array");
}
