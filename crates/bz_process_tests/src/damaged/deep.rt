//! Calls inside one another, many levels deep.

use bz_base::FindSymOpts::CodeInfoAndInlined;
use bz_base::{CodeInfo, Error, InlinedFn, Reason, ResolvedSym, Symbolize};
use bz_breakpad::BreakpadResolver;
use bz_files::MemFiles;
use bz_gsym::GsymContext;
use std::alloc::{AllocError, Global};

/// How many nodes the tree has, one inside the other, and how many calls the text has so.
const DEPTH: u32 = 100_000;

/// The line at which each is called in the one around it, and that of the innermost one.
const CALL_LINE: u32 = 3;

const LAST_LINE: u32 = 5;

/// The front of a file of one symbol from 0x1000 on, with size 0. What follows are the length and the
/// bytes of its tree.
const FRONT: [u8; 112] = [
    // The head: magic, version, address size 1, base address 0x1000, one address, strings at 76.
    0x4d, 0x59, 0x53, 0x47, 0x01, 0x00, 0x01, 0x00, 0x00, 0x10, 0x00, 0x00, 0x00, 0x00, 0x00, 0x00,
    0x01, 0x00, 0x00, 0x00, 0x4c, 0x00, 0x00, 0x00, 0x0a, 0x00, 0x00, 0x00, 0x00, 0x00, 0x00, 0x00,
    0x00, 0x00, 0x00, 0x00, 0x00, 0x00, 0x00, 0x00, 0x00, 0x00, 0x00, 0x00, 0x00, 0x00, 0x00, 0x00,
    // The start 0; filling; the data place 88.
    0x00, 0x00, 0x00, 0x00, 0x58, 0x00, 0x00, 0x00,
    // Two files: an empty one, and `a.c`.
    0x02, 0x00, 0x00, 0x00, 0x00, 0x00, 0x00, 0x00, 0x00, 0x00, 0x00, 0x00, 0x00, 0x00, 0x00, 0x00,
    0x06, 0x00, 0x00, 0x00,
    // The strings: an empty one, `main`, `a.c`; and filling.
    0x00, 0x6d, 0x61, 0x69, 0x6e, 0x00, 0x61, 0x2e, 0x63, 0x00, 0x00, 0x00,
    // The symbol: size 0, name at 1, a line table with a row at line 5, and a tree.
    0x00, 0x00, 0x00, 0x00, 0x01, 0x00, 0x00, 0x00, 0x01, 0x00, 0x00, 0x00, 0x04, 0x00, 0x00, 0x00,
    0x7c, 0x0a, 0x05, 0x08, 0x02, 0x00, 0x00, 0x00,
];

/// The length of the tree, and one byte less.
const WHOLE: &[u8] = b"\xe0\xc8\x10\0";

const UNENDED: &[u8] = b"\xdf\xc8\x10\0";

/// Whether the site is that line of `a.c`.
fn is_at(site: &Option<CodeInfo<'_>>, line: u32) -> bool {
    match site {
        Some(site) => site.file.as_str() == "a.c" && site.line == Some(line),
        None => false,
    }
}

/// Whether all calls are of functions with this name, the last one at the last line, and the others
/// where the next one is called.
fn are_calls(calls: &[InlinedFn<'_>], name: &str) -> bool {
    let Some((last, outer)) = calls.split_last() else {
        return true;
    };
    for call in outer {
        if call.name.as_str() != name || !is_at(&call.code_info, CALL_LINE) {
            return false;
        }
    }
    last.name.as_str() == name && is_at(&last.code_info, LAST_LINE)
}

/// Whether the symbol that is found has so many calls of functions with this name in it. With none it
/// has the last line. Without a count the address is refused.
fn is_nest(
    found: &Result<Result<ResolvedSym<'_>, Reason>, Error>,
    name: &str,
    count: Option<usize>,
) -> bool {
    let line = if count == Some(0) {
        LAST_LINE
    } else {
        CALL_LINE
    };
    match found {
        Ok(Ok(symbol)) => {
            count == Some(symbol.inlined.len())
                && is_at(&symbol.code_info, line)
                && are_calls(symbol.inlined.as_slice(), name)
        }
        Ok(Err(_)) => false,
        Err(error) => count == None && *error == Error::InvalidData,
    }
}

/// Whether the file answers an address by so many calls.
fn has_calls(alloc: Global, context: &GsymContext<'_>, addr: u64, count: Option<usize>) -> bool {
    is_nest(
        &context.find_sym(alloc, addr, &CodeInfoAndInlined),
        "main",
        count,
    )
}

/// Whether a file answers by so many calls in its nodes and behind them. Its tree has so many bytes,
/// and the nodes are one inside the other, each of 0x20 bytes.
fn has_tree(
    alloc: Global,
    len: &[u8],
    inside: Option<usize>,
    behind: Option<usize>,
) -> Result<bool, Error> {
    let mut bytes = Vec::from_slice(alloc, &FRONT)?;
    bytes.extend_from_slice(len)?;
    for _ in 0..DEPTH {
        bytes.extend_from_slice(b"\x01\x00\x20\x01\x01\0\0\0\x01\x03")?;
    }
    for _ in 0..DEPTH {
        bytes.push(0)?;
    }
    let context = GsymContext::parse_header(bytes.as_slice())?;
    Ok(has_calls(alloc, &context, 0x1005, inside) && has_calls(alloc, &context, 0x1020, behind))
}

/// Writes the records of calls one inside the other, each of 0x10 bytes, and the line record.
fn write_calls(text: &mut String) -> Result<(), AllocError> {
    for depth in 0..DEPTH {
        write!(text, "INLINE {depth} 3 1 1 1000 10\n")?;
    }
    text.push_str("1000 20 5 1\n")
}

/// A text of a function with these calls.
fn text_of(alloc: Global) -> Result<String, AllocError> {
    let mut text = String::from_str(alloc, "FILE 1 a.c\nINLINE_ORIGIN 1 g\nFUNC 1000 20 0 f\n")?;
    write_calls(&mut text)?;
    Ok(text)
}

/// Whether the resolver answers an address by so many calls.
fn finds_calls(alloc: Global, resolver: &BreakpadResolver, addr: u64, count: usize) -> bool {
    is_nest(
        &resolver.find_sym(alloc, addr, &CodeInfoAndInlined),
        "g",
        Some(count),
    )
}

/// Whether that text answers by all its calls in them, and by none behind them.
fn has_nest(alloc: Global) -> Result<bool, Error> {
    let mut files = MemFiles::new(alloc, 0);
    files.put(alloc, "/p", text_of(alloc)?.into_bytes())?;
    let resolver = BreakpadResolver::open(alloc, &mut files, "/p")?;
    Ok(finds_calls(alloc, &resolver, 0x1005, 100_000) && finds_calls(alloc, &resolver, 0x1010, 0))
}

/// Whether memory was left, and it is so.
fn is_so(answer: Result<bool, Error>) -> bool {
    match answer {
        Ok(answer) => answer,
        Err(_) => false,
    }
}

/// Whether the whole tree answers, and one without its last byte is refused in the nodes and behind
/// them.
fn trees_answer(alloc: Global) -> bool {
    is_so(has_tree(alloc, WHOLE, Some(99_999), Some(0)))
        && is_so(has_tree(alloc, UNENDED, None, None))
}

#[test]
fn deep_calls_answer_if_their_tree_is_whole(rt: HostRuntime) {
    assert!(rt; trees_answer(rt.alloc()), "trees");
    assert!(rt; is_so(has_nest(rt.alloc())), "nested calls");
}
