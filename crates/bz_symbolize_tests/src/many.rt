//! Files of many functions.

ghost use Rattle.std.specs.Prelude.{◌≡◌, ◌<◌};

use crate::asking::Asked::Many;
use crate::breakpad::FILE;
use crate::steps::Step::{Ask, Opens, PutGenerated};
use crate::steps::{ALL, CODE_INFO_OFF, Script, hold};
use crate::told::{Code, is_located};
use bz_base::{Input, Reason, Result, Steps, Sym, Symbolized, whole_decimal};
use bz_canon::gen_text;
use bz_files::MemFiles;
use bz_symbolize::source::Source;
use bz_symbolize::{Lookups, Symbolizer};
use std::alloc::Global;
use std::marker::Brand;
use std::sync::ledger::{Blank, Ledger};

/// Addresses that are asked for, at equal steps through the file. The steps come in an order.
#[derive(Drop)]
pub(crate) struct Batch {
    /// How many addresses there are.
    pub(crate) addresses: u64,
    /// How many bytes a step has.
    pub(crate) stride: u64,
    /// How many steps lie between an address and the next, round the end. It has no divisor but 1 in
    /// common with how many addresses there are.
    pub(crate) factor: u64,
    /// The step that comes first.
    pub(crate) first: u64,
    /// How often they are asked for in each of two ways, beside being looked up once.
    pub(crate) times: u32,
}

/// Puts the generated file of so many functions at `/s.sym`. Says whether it did.
pub(crate) fn put_generated(alloc: Global, files: &mut MemFiles, functions: u64) -> bool {
    if functions > 100_000 {
        return false;
    }
    match gen_text(alloc, functions) {
        Ok(text) => files.put(alloc, "/s.sym", text).is_ok(),
        Err(_) => false,
    }
}

/// The step that comes at an index in the order of a batch.
fn step_at(index: u64, batch: &Batch) -> u64 {
    let step = index.wrapping_mul(batch.factor).wrapping_add(batch.first);
    step.checked_rem(batch.addresses).unwrap_or(0)
}

/// The addresses of a batch.
fn addresses_of(alloc: Global, batch: &Batch) -> Result<Vec<u64>> {
    let mut addrs = Vec::new(alloc);
    for index in 0..batch.addresses {
        let past = batch.stride.wrapping_mul(step_at(index, batch));
        addrs.push(past.wrapping_add(4096))?;
    }
    Ok(addrs)
}

/// Whether the symbol is the function so many bytes past the first one.
fn is_function(symbol: &Sym<'_>, past: u64) -> bool {
    let number = match symbol.name.as_str().strip_prefix('f') {
        Some(digits) => whole_decimal(digits.as_bytes(), 10, 4_294_967_295),
        None => None,
    };
    number == Some(past / 64) && symbol.offset as u64 == past % 64 && symbol.size == Some(0x30)
}

/// The source code of all functions.
const CODE: &Code = &Code {
    module: "gen",
    dir: "",
    file: "gen.c",
    inlined: "g",
    inlined_file: "gen.c",
};

/// Whether the symbol has the lines of the function so many bytes past the first one. They are those of
/// the call, or of one of its two line records.
fn has_lines(symbol: &Sym<'_>, past: u64) -> bool {
    let first = past / 64 + 1;
    match past % 64 {
        0..8 => is_located(symbol, CODE, 7, first),
        8..16 => is_located(symbol, CODE, first, 0),
        _ => is_located(symbol, CODE, first + 1, 0),
    }
}

/// Whether the answer is that so many bytes past the first address, and the same as the plain one.
fn is_right(answer: &Symbolized<'_>, plain: &Symbolized<'_>, past: u64, code_info: bool) -> bool {
    let is_as_told = match answer {
        Symbolized::Sym(symbol) => {
            past % 64 < 48 && is_function(symbol, past) && (!code_info || has_lines(symbol, past))
        }
        Symbolized::Unknown(reason) => past % 64 >= 48 && *reason == Reason::UnknownAddr,
    };
    is_as_told && *plain == *answer
}

/// Whether the answer at an index of the batch is right.
fn is_right_at(
    answer: &Symbolized<'_>,
    index: usize,
    batch: &Batch,
    code_info: bool,
    plain: &[Symbolized<'_>],
) -> bool {
    let step = step_at(index as u64, batch);
    let past = batch.stride.wrapping_mul(step);
    let place = step as usize;
    place < plain.len() && is_right(answer, &plain[place], past, code_info)
}

/// Whether the answers are those of the batch, with code info or not, and the same as the plain ones.
fn are_right(
    answers: &[Symbolized<'_>],
    batch: &Batch,
    code_info: bool,
    plain: &[Symbolized<'_>],
) -> bool {
    if answers.len() as u64 != batch.addresses {
        return false;
    }
    for index in 0..answers.len() {
        if !is_right_at(&answers[index], index, batch, code_info, plain) {
            return false;
        }
    }
    true
}

/// Whether a call answers so.
fn is_answered(
    answers: Result<Vec<Symbolized<'_>>>,
    batch: &Batch,
    code_info: bool,
    plain: &[Symbolized<'_>],
) -> bool {
    match answers {
        Ok(answers) => are_right(answers.as_slice(), batch, code_info, plain),
        Err(_) => false,
    }
}

/// Whether this is so of an answer alone.
fn is_answered_at(
    answer: Result<Symbolized<'_>>,
    index: usize,
    batch: &Batch,
    code_info: bool,
    plain: &[Symbolized<'_>],
) -> bool {
    match answer {
        Ok(answer) => is_right_at(&answer, index, batch, code_info, plain),
        Err(_) => false,
    }
}

/// Whether what was looked up answers so, one by one.
fn are_looked_up(
    alloc: Global,
    lookups: &Lookups<'_>,
    batch: &Batch,
    code_info: bool,
    plain: &[Symbolized<'_>],
) -> bool {
    if lookups.len() as u64 != batch.addresses {
        return false;
    }
    for index in 0..lookups.len() {
        let answer = lookups.answer(alloc, index);
        if !is_answered_at(answer, index, batch, code_info, plain) {
            return false;
        }
    }
    true
}

/// Whether the addresses are looked up, and answer so.
fn looks_up<L: Ledger>(
    alloc: Global,
    symbolizer: &mut Symbolizer,
    files: &mut MemFiles,
    src: &Source<'_>,
    addrs: &[u64],
    batch: &Batch,
    code_info: bool,
    plain: &[Symbolized<'_>],
    steps: &mut Steps<L>,
) -> bool {
    let Ok(copy) = Vec::from_slice(alloc, addrs) else {
        return false;
    };
    match symbolizer.look_up(alloc, files, src, Input::FileOffset(copy), steps) {
        Ok(lookups) => are_looked_up(alloc, &lookups, batch, code_info, plain),
        Err(_) => false,
    }
}

/// Whether calls answer so again and again, with a count of steps and without, and once looked up.
fn answers_often<L: Ledger>(
    alloc: Global,
    symbolizer: &mut Symbolizer,
    files: &mut MemFiles,
    src: &Source<'_>,
    addrs: &[u64],
    batch: &Batch,
    code_info: bool,
    plain: &[Symbolized<'_>],
    blank: Blank,
) -> bool
    requires name { blank.name ≡ L.name }
    requires parts { blank.parts ≡ L.parts }
    requires positive { 0 < L.parts }
{
    let mut steps = Steps::<L>::new(blank);
    let input = Input::FileOffset(addrs);
    for _ in 0..batch.times {
        let answers = symbolizer.symbolize(alloc, files, src, input);
        if !is_answered(answers, batch, code_info, plain) {
            return false;
        }
        let counted = symbolizer.symbolize_counted(alloc, files, src, input, &mut steps);
        if !is_answered(counted, batch, code_info, plain) {
            return false;
        }
    }
    looks_up(
        alloc, symbolizer, files, src, addrs, batch, code_info, plain, &mut steps,
    )
}

/// Whether this is so of the addresses of the batch, beside the answers in ascending order.
pub(crate) fn answers_many(
    alloc: Global,
    symbolizer: &mut Symbolizer,
    files: &mut MemFiles,
    src: &Source<'_>,
    batch: &Batch,
    code_info: bool,
) -> bool {
    let in_order = Batch {
        addresses: batch.addresses,
        stride: batch.stride,
        factor: 1,
        first: 0,
        times: 1,
    };
    let Ok(ascending) = addresses_of(alloc, &in_order) else {
        return false;
    };
    let Ok(addrs) = addresses_of(alloc, batch) else {
        return false;
    };
    let input = Input::FileOffset(ascending.as_slice());
    match symbolizer.symbolize(alloc, files, src, input) {
        Ok(plain) => {
            let addrs = addrs.as_slice();
            let plain = plain.as_slice();
            let blank = Blank::new(1);
            answers_often::<Brand>(
                alloc, symbolizer, files, src, addrs, batch, code_info, plain, blank,
            )
        }
        Err(_) => false,
    }
}

/// Addresses of 2000 functions, in their order.
const ASCENDING: Batch = Batch {
    addresses: 3460,
    stride: 37,
    factor: 1,
    first: 0,
    times: 1,
};

/// The same, the last one first.
const DESCENDING: Batch = Batch {
    factor: 3459,
    first: 3459,
    ..ASCENDING
};

/// The same in a mixed order.
const MIXED: Batch = Batch {
    factor: 1009,
    ..ASCENDING
};

/// They are answered in ascending, descending and mixed order.
const ORDERS: Script = &[
    PutGenerated(2000),
    Ask(FILE, Many(ASCENDING, true)),
    Ask(FILE, Many(DESCENDING, true)),
    Ask(FILE, Many(MIXED, true)),
    Opens(1),
];

/// All functions of a large file, the last one first, again and again.
const ALL_FUNCTIONS: Batch = Batch {
    addresses: 100_000,
    stride: 64,
    factor: 99_999,
    first: 99_999,
    times: 50,
};

/// They answer, and the file is read once.
const LARGE: Script = &[
    PutGenerated(100_000),
    Ask(FILE, Many(ALL_FUNCTIONS, false)),
    Opens(1),
];

#[test]
fn addresses_answer_alike_in_any_order(rt: HostRuntime) {
    assert!(rt; hold(rt.alloc(), &ALL, &[ORDERS]));
}

#[test]
fn a_large_file_is_read_once_for_all_answers(rt: HostRuntime) {
    assert!(rt; hold(rt.alloc(), &CODE_INFO_OFF, &[LARGE]));
}
