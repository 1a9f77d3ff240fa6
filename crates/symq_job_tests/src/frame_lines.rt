//! Frames of lines.

use bz_requests::BadInput;
use bz_serve::read_frames;
use bz_store::CrashFrame;
use std::alloc::Global;

/// An input, how many frames it says, and of the last of them its module, the module's id, and its
/// offset there.
type Row = (&'static [u8], usize, &'static str, &'static str, u64);

static WELL_FORMED: [Row; 7] = [
    (b"bar AA 1010\n", 1, "bar", "AA", 0x1010),
    (b"bar AA 0x1010", 1, "bar", "AA", 0x1010),
    (b"\nbar AA 1010\r\n\r\n.. BB 0\r\n", 2, "..", "BB", 0),
    (b"  0\n", 1, "", "", 0),
    (
        b"bar  fFfFfFfFfFfFfFfF\n",
        1,
        "bar",
        "",
        0xffff_ffff_ffff_ffff,
    ),
    (b" AA 1\n", 1, "", "AA", 1),
    (
        b"b\xc3\xa4r\tx A\xc3\x84 1\n",
        1,
        "b\u{e4}r\tx",
        "A\u{c4}",
        1,
    ),
];

/// An input, and its first line that isn't well formed.
static BAD: [(&[u8], u64); 11] = [
    (b"bar\n", 1),
    (b"bar AA\n", 1),
    (b" \n", 1),
    (b"bar AA \n", 1),
    (b"bar AA 10 \n", 1),
    (b"bar AA 10 20\n", 1),
    (b"bar AA xyz\n", 1),
    (b"bar AA 00000000000000001\n", 1),
    (b"\n\nbar AA 1\nb\xffr AA 1\n", 4),
    (b"bar A\xc3 1\n", 1),
    (b"bar AA 1\r\r\n", 1),
];

/// Whether the frame is the row's last.
fn is(frame: &CrashFrame, row: &Row) -> bool {
    frame.module_name() == row.2 && frame.id() == row.3 && frame.offset() == row.4
}

/// Whether the row's input says so many frames, with this one at its end.
fn says(alloc: Global, row: &Row) -> bool {
    match read_frames(alloc, row.0) {
        Ok(frames) => match frames.last() {
            Some(frame) => frames.len() == row.1 && is(frame, row),
            None => false,
        },
        Err(_) => false,
    }
}

/// Whether the input is refused at this line.
fn is_bad_at(alloc: Global, text: &[u8], line: u64) -> bool {
    match read_frames(alloc, text) {
        Err(BadInput::Line(number)) => number == line,
        _ => false,
    }
}

#[test]
fn reads_frames_and_refuses_bad_lines(rt: HostRuntime) {
    let well_formed = &WELL_FORMED;
    for index in 0..well_formed.len() {
        assert!(rt; says(rt.alloc(), &well_formed[index]), "row {index}");
    }
    let rows = &BAD;
    for index in 0..rows.len() {
        let (text, line) = rows[index];
        assert!(rt; is_bad_at(rt.alloc(), text, line), "bad row {index}");
    }
}
