//! Texts, and where they are refused.

use bz_breakpad_table::{Refused, first_refused};
use std::alloc::Global;

/// A text, and where it is refused, as its lines say by themselves.
static TEXTS: [(&[u8], Option<Refused>); 22] = [
    // No line.
    (b"", Some(Refused::Empty)),
    // Files.
    (b"FILE 1 a.c\n", None),
    (b"FILE 1 a.c\r\n", None),
    (
        b"MODULE Linux x86 1 m\n\nFILE 1 a.c\n \tFUNC 1 2 3 x\n",
        None,
    ),
    (
        b"FUNC 1 2 3 x\n\n1 2 3 4\nINLINE 0 7 1 5 a 1 c 2\nINLINE_ORIGIN 5 o\nPUBLIC 20 0 p\n",
        None,
    ),
    (
        b"STACK CFI INIT 1 2 .cfa: 3\nSTACK CFI 1 .cfa: 4\nSTACK WIN 4\n",
        None,
    ),
    // The last line has no end.
    (b"MODULE Linux x86 1 m", Some(Refused::NoEnd)),
    (b"FUNC 1 2 3 x\n1 2 3 4", Some(Refused::NoEnd)),
    (b"FILE 1 a.c\n ", Some(Refused::NoEnd)),
    // A line that is no record, with its end and without it.
    (b"nothing\n", Some(Refused::Line(1))),
    (b"FILE 1 a.c\nnothing", Some(Refused::Line(2))),
    (
        b"FUNC 1 2 3 x\n1 2 3 4\n1 2 3\n1 2 3 4\nnothing\n",
        Some(Refused::Line(3)),
    ),
    (
        b"FUNC 1 2 3 x\n1 2 3 4\nINLINE 0 7 1 5\n",
        Some(Refused::Line(3)),
    ),
    (b"FILE 1 a\rc\n", Some(Refused::Line(1))),
    // A line that stands under no record of its own.
    (b"1 2 3 4\n", Some(Refused::Line(1))),
    (
        b"FUNC 1 2 3 x\nPUBLIC 20 0 p\n1 2 3 4\n",
        Some(Refused::Line(3)),
    ),
    (
        b"FUNC 1 2 3 x\nSTACK CFI 1 .cfa: 4\n",
        Some(Refused::Line(2)),
    ),
    // White space that may not stand there.
    (b"\nFILE 1 a.c\n", Some(Refused::Line(1))),
    (
        b"FUNC 1 2 3 x\n1 2 3 4\n\nFILE 1 a.c\n",
        Some(Refused::Line(3)),
    ),
    (
        b"FUNC 1 2 3 x\n1 2 3 4\n FILE 1 a.c\n",
        Some(Refused::Line(3)),
    ),
    // A MODULE record that isn't the first record.
    (
        b"MODULE Linux x86 1 m\nMODULE Linux x86 1 m\n",
        Some(Refused::Line(2)),
    ),
    (
        b"FILE 1 a.c\n\nMODULE Linux x86 1 m\n",
        Some(Refused::Line(3)),
    ),
];

/// Whether a text is refused there.
fn is_refused(alloc: Global, row: &(&[u8], Option<Refused>)) -> bool {
    match first_refused(alloc, row.0) {
        Ok(found) => found == row.1,
        Err(_) => false,
    }
}

#[test]
fn tells_where_texts_are_refused_if_they_are(rt: HostRuntime) {
    let texts = &TEXTS;
    for index in 0..texts.len() {
        assert!(rt; is_refused(rt.alloc(), &texts[index]), "row {index}");
    }
}
