//! The texts of answers made by hand.

use bz_base::{CodeInfo, InlinedFn, Reason, Result, Sym, Symbolized};
use bz_canon::answer_text;
use std::alloc::Global;
use std::borrow::CowStr;

/// A directory, a file and a line. No directory, and no file of a site that is absent, is `-`.
type Site = (&'static str, &'static str, Option<u32>);

const ABSENT: Site = ("-", "-", None);

/// An address, and the name and the module, the start, the offset and the size, and the site of its
/// symbol. Then the names and sites of its inlined calls, and the text of the answer. No module is `-`.
type Answer = (
    u64,
    (&'static str, &'static str),
    (u64, usize, Option<usize>),
    Site,
    &'static [(&'static str, Site)],
    &'static str,
);

static ANSWERS: [Answer; 9] = [
    (
        1,
        ("f", "-"),
        (1, 0, None),
        ("/foobar", "source.c", Some(14)),
        &[],
        "0x1: f+0x0 start 0x1 size - module - at /foobar/source.c:14\n",
    ),
    (
        1,
        ("f", "-"),
        (1, 0, None),
        ("a/", "b", None),
        &[],
        "0x1: f+0x0 start 0x1 size - module - at a/b\n",
    ),
    (
        1,
        ("f", "-"),
        (1, 0, None),
        ("a", "/b", None),
        &[],
        "0x1: f+0x0 start 0x1 size - module - at /b\n",
    ),
    (
        1,
        ("f", "-"),
        (1, 0, None),
        ("", "b", Some(0)),
        &[],
        "0x1: f+0x0 start 0x1 size - module - at b:0\n",
    ),
    (
        1,
        ("f", "-"),
        (1, 0, None),
        ("/", "b", Some(4294967295)),
        &[],
        "0x1: f+0x0 start 0x1 size - module - at /b:4294967295\n",
    ),
    (
        1,
        ("f", "-"),
        (1, 0, None),
        ("-", "source.c", None),
        &[],
        "0x1: f+0x0 start 0x1 size - module - at source.c\n",
    ),
    (
        0x1010,
        ("another func", "bar"),
        (0x1000, 0x10, Some(0x30)),
        ("-", "bar.c", Some(7)),
        &[],
        "0x1010: another func+0x10 start 0x1000 size 0x30 module bar at bar.c:7\n",
    ),
    (
        0xabcdef,
        ("factorial", "a.out"),
        (0xabcdeb, 4, Some(46)),
        ("/foobar", "source.c", Some(14)),
        &[
            ("inner", ("/foobar", "source.c", Some(20))),
            ("innermost", ABSENT),
        ],
        "0xabcdef: factorial+0x4 start 0xabcdeb size 0x2e module a.out at /foobar/source.c:14\n  inner at /foobar/source.c:20\n  innermost at -\n",
    ),
    (
        0,
        ("f", "-"),
        (0, 0, None),
        ABSENT,
        &[],
        "0x0: f+0x0 start 0x0 size - module - at -\n",
    ),
];

/// The text, if it isn't `-`.
fn given(text: &'static str) -> Option<CowStr<'static>> {
    if text == "-" {
        None
    } else {
        Some(CowStr::Borrowed(text))
    }
}

/// The site, if it has a file.
fn site_of((dir, file, line): Site) -> Option<CodeInfo<'static>> {
    let file = given(file)?;
    Some(CodeInfo {
        dir: given(dir),
        file,
        line,
        column: None,
    })
}

/// The inlined calls.
fn calls_of(alloc: Global, rows: &[(&'static str, Site)]) -> Result<Vec<InlinedFn<'static>>> {
    let mut calls = Vec::new(alloc);
    for row in rows {
        calls.push(InlinedFn {
            name: CowStr::Borrowed(row.0),
            code_info: site_of(row.1),
        })?;
    }
    Ok(calls)
}

/// Whether the text of the answer is this one.
fn is_text(alloc: Global, addr: u64, answer: &Symbolized<'_>, text: &str) -> bool {
    match answer_text(alloc, addr, answer) {
        Ok(written) => written.as_str() == text,
        Err(_) => false,
    }
}

/// Whether the text of a row's answer is its own.
fn prints(alloc: Global, row: &Answer) -> bool {
    let Ok(inlined) = calls_of(alloc, row.4) else {
        return false;
    };
    let answer = Symbolized::Sym(Sym {
        name: CowStr::Borrowed(row.1.0),
        module: given(row.1.1),
        addr: row.2.0,
        offset: row.2.1,
        size: row.2.2,
        code_info: site_of(row.3),
        inlined,
        public: false,
    });
    is_text(alloc, row.0, &answer, row.5)
}

/// Whether an answer without a symbol is printed as its reason.
fn prints_a_reason(alloc: Global) -> bool {
    let answer = Symbolized::Unknown(Reason::UnknownAddr);
    let text = "0x1030: ? address not found in symbolization source\n";
    is_text(alloc, 0x1030, &answer, text)
}

/// With and without a directory, a line, a module, a size, a site, inlined calls, and a symbol.
#[test]
fn answers_print_with_and_without_each_part(rt: HostRuntime) {
    for row in &ANSWERS {
        assert!(rt; prints(rt.alloc(), row), "{}", row.5);
    }
    assert!(rt; prints_a_reason(rt.alloc()), "a reason");
}
