//! Plans, the bytes that they are laid out in, and the answers of those.

ghost use Rattle.std.specs.Prelude.{IfOk};
ghost use Rattle.bz_gsym_layout.specs.Indexed.{IsPlan};

use bz_base::{FindSymOpts, Symbolize};
use bz_gsym::GsymTable;
use bz_gsym_layout::{Function, LayoutError, Plan, Row, SourceFile, write};
use bz_samples::GSYM_CONVERTED;
use std::alloc::Global;

/// The plan of the converted sample: a function of 48 bytes with one line.
fn one_line(alloc: Global) -> Result<Plan<'static>, LayoutError>
    ensures { IfOk result IsPlan }
{
    let texts = Vec::from_slice(alloc, &["another func", "", "bar.c"])?;
    let sources = Vec::from_slice(alloc, &[SourceFile { dir: 1, name: 2 }])?;
    let row = Row {
        addr: 0x1000,
        source: 0,
        line: 7,
    };
    let rows = Vec::from_slice(alloc, &[row])?;
    let calls = Vec::new(alloc);
    let function = Function {
        start: 0x1000,
        size: 0x30,
        name: 0,
        rows,
        calls,
    };
    let mut functions = Vec::new(alloc);
    functions.push(function)?;
    Ok(Plan {
        texts,
        sources,
        functions,
    })
}

/// Whether the bytes are the sample's, and answer for the line.
fn is_read(alloc: Global, bytes: Vec<u8>) -> bool {
    if bytes.as_slice() != GSYM_CONVERTED {
        return false;
    }
    let Ok(table) = GsymTable::from_bytes(bytes) else {
        return false;
    };
    match table.find_sym(alloc, 0x1010, &FindSymOpts::CodeInfoAndInlined) {
        Ok(Ok(symbol)) => symbol.name == "another func" && symbol.size == Some(0x30),
        _ => false,
    }
}

/// Whether the plan is laid out in those bytes.
fn is_one_line(alloc: Global) -> bool {
    let Ok(plan) = one_line(alloc) else {
        return false;
    };
    match write(alloc, &plan) {
        Ok(bytes) => is_read(alloc, bytes),
        Err(_) => false,
    }
}

#[test]
fn a_plan_is_laid_out_and_answers(rt: HostRuntime) {
    assert!(rt; is_one_line(rt.alloc()));
}
