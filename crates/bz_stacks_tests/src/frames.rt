//! What stacks of answers fold to.

use bz_base::{InlinedFn, Reason, Result, Sym, Symbolized};
use bz_stacks::{Folded, Stack};
use std::alloc::Global;
use std::borrow::CowStr;

/// An answer: the name of a symbol, and those of the calls that were inlined there. An unknown address
/// has no name.
type Answered = &'static [&'static str];

/// A stack by the answers to its addresses, and its count.
type Row = (&'static [Answered], u32);

/// Stacks that are added, how many there are then, and the text that they fold to.
type Step = (&'static [Row], u32, &'static str);

/// What is added one after the other.
static ROWS: [&[Step]; 12] = [
    // No stack.
    &[(&[], 0, "")],
    // A stack of no addresses, alone and beside one of an empty name.
    &[(&[(&[], 3)], 1, " 3\n")],
    &[(&[(&[], 3), (&[&[""]], 4)], 2, " 7\n")],
    // An unknown address and an ignored error.
    &[(&[(&[&[], &[]], 2)], 1, "[unknown];[unknown] 2\n")],
    // Inlined calls.
    &[(&[(&[&["f", "g", "h"], &["i", "j"]], 1)], 1, "f;g;h;i;j 1\n")],
    // Names that end a frame or a line, or are empty.
    &[(&[(&[&["a;b"]], 4)], 1, "a:b 4\n")],
    &[(
        &[(&[&["\r\n", ";", "a\rb\nc"], &["", ""]], 5)],
        1,
        "::;:;a:b:c;; 5\n",
    )],
    // A count of 0.
    &[(&[(&[&["f"]], 0)], 1, "f 0\n")],
    // A path that a name spells.
    &[(
        &[
            (&[&["a", "b"]], 1),
            (&[&["a"], &["b"]], 2),
            (&[&["a;b"]], 4),
            (&[&["a:b"]], 8),
        ],
        4,
        "a:b 12\na;b 3\n",
    )],
    // Sums past 32 bits.
    &[(
        &[
            (&[&["f"]], 4294967295),
            (&[&["g"]], 4294967295),
            (&[&["f"]], 4294967295),
        ],
        3,
        "f 8589934590\ng 4294967295\n",
    )],
    // Paths that begin with others, in the order of their bytes.
    &[(
        &[
            (&[&["b"]], 1),
            (&[&["ab"]], 2),
            (&[&["ä"]], 3),
            (&[&["a"], &[]], 4),
            (&[&["a"]], 5),
            (&[&["B"]], 6),
            (&[&["a b"]], 7),
        ],
        7,
        "B 6\na 5\na b 7\na;[unknown] 4\nab 2\nb 1\nä 3\n",
    )],
    // Stacks that go on being added after a text was asked for.
    &[
        (&[], 0, ""),
        (
            &[(&[&["f"]], 2), (&[&[], &["f", "g"]], 1)],
            2,
            "[unknown];f;g 1\nf 2\n",
        ),
        (
            &[(&[&["f"]], 5), (&[&["e"]], 1)],
            4,
            "[unknown];f;g 1\ne 1\nf 7\n",
        ),
        (&[], 4, "[unknown];f;g 1\ne 1\nf 7\n"),
    ],
];

/// The answer of these names. An unknown address has this reason.
fn answer(alloc: Global, names: &[&'static str], reason: Reason) -> Result<Symbolized<'static>> {
    let Some((name, calls)) = names.split_first() else {
        return Ok(Symbolized::Unknown(reason));
    };
    let mut inlined = Vec::new(alloc);
    for call in calls {
        inlined.push(InlinedFn {
            name: CowStr::Borrowed(*call),
            code_info: None,
        })?;
    }
    Ok(Symbolized::Sym(Sym {
        name: CowStr::Borrowed(*name),
        module: None,
        addr: 0,
        offset: 0,
        size: None,
        code_info: None,
        inlined,
        public: false,
    }))
}

/// The answers of a row. An unknown one at an odd place is an ignored error.
fn answers(alloc: Global, row: &[Answered]) -> Result<Vec<Symbolized<'static>>> {
    let mut answers = Vec::new(alloc);
    for names in row {
        let reason = if answers.len() % 2 == 0 {
            Reason::UnknownAddr
        } else {
            Reason::IgnoredError
        };
        answers.push(answer(alloc, names, reason)?)?;
    }
    Ok(answers)
}

/// Adds a stack of this count, where there may be one more and each of its addresses has an answer.
/// Says whether it was added.
fn add(folded: &mut Folded, stack: &Stack, answers: &[Symbolized<'_>], count: u32) -> bool {
    stack.count() == count
        && answers.len() == stack.addrs().len()
        && folded.stacks() < u32::MAX
        && folded.add(stack, answers).is_ok()
}

/// Adds the stack of a row. Says whether it was added.
fn add_row(alloc: Global, folded: &mut Folded, row: &Row) -> Result<bool> {
    let stack = Stack::new(vec![in alloc; 0x1010; row.0.len()]?, row.1);
    let answers = answers(alloc, row.0)?;
    Ok(add(folded, &stack, &answers, row.1))
}

/// Whether the folded stacks are so many, with this text.
fn reads(alloc: Global, folded: &Folded, stacks: u32, text: &str) -> bool {
    match folded.text(alloc) {
        Ok(written) => folded.stacks() == stacks && written.as_slice() == text.as_bytes(),
        Err(_) => false,
    }
}

/// Whether the stacks read so after each step.
fn read_so(alloc: Global, folded: &mut Folded, steps: &[Step]) -> bool {
    for step in steps {
        for row in step.0 {
            if add_row(alloc, folded, row) != Ok(true) {
                return false;
            }
        }
        if !reads(alloc, folded, step.1, step.2) {
            return false;
        }
    }
    true
}

/// Whether they do where nothing was folded before.
fn holds(alloc: Global, steps: &[Step]) -> bool {
    let mut folded = Folded::new(alloc);
    read_so(alloc, &mut folded, steps)
}

#[test]
fn writes_a_line_for_each_path(rt: HostRuntime) {
    let rows = &ROWS;
    for index in 0..rows.len() {
        assert!(rt; holds(rt.alloc(), rows[index]), "row {index}");
    }
}
