//! What is told of addresses, and whether answers and refusals are that.

use bz_base::{CodeInfo, Error, Reason, Result, Sym, Symbolized};
use std::borrow::CowStr;

/// The source code of a file of symbols.
pub(crate) struct Code {
    /// The module of its symbols, or an empty text where they have none.
    pub(crate) module: &'static str,
    /// The directory of its files, or an empty text.
    pub(crate) dir: &'static str,
    /// The file of its functions.
    pub(crate) file: &'static str,
    /// The one function that is inlined in them.
    pub(crate) inlined: &'static str,
    /// The file of that function.
    pub(crate) inlined_file: &'static str,
}

/// What is told of an address.
pub(crate) enum Told {
    /// A symbol with this name.
    Named(&'static str),
    /// The symbol `f`, 8 bytes past its start, with this path as its module.
    InModule(&'static str),
    /// A symbol of this code with this name, this offset in it, and these lines: of its site, and of
    /// its one inlined call. Where a line is 0 there is no site, or no call.
    Located(&'static Code, &'static str, usize, u64, u64),
    /// No symbol, for this reason.
    Unknown(Reason),
    /// The call is refused so.
    Refused(Error),
}

/// Whether this is the module, or there is none and none is told.
fn is_module(given: &Option<CowStr<'_>>, name: &str) -> bool {
    match given {
        Some(given) => !name.is_empty() && given.as_str() == name,
        None => name.is_empty(),
    }
}

/// Whether the site is that line of the file in the directory, or there is neither.
fn is_site(site: &Option<CodeInfo<'_>>, dir: &str, file: &str, line: u64) -> bool {
    let Some(site) = site else {
        return line == 0;
    };
    let is_in = match &site.dir {
        Some(given) => given.as_str() == dir,
        None => dir.is_empty(),
    };
    is_in && site.file.as_str() == file && line != 0 && u64::from(site.line.unwrap_or(0)) == line
}

/// Whether the symbol is of the code's module, and has its site at that line of the code. Its one
/// inlined call is at the other line. Where a line is 0 there is no site, or no call.
pub(crate) fn is_located(symbol: &Sym<'_>, code: &Code, line: u64, called: u64) -> bool {
    let calls = match symbol.inlined.as_slice() {
        [] => called == 0,
        [call] => {
            call.name.as_str() == code.inlined
                && called != 0
                && is_site(&call.code_info, code.dir, code.inlined_file, called)
        }
        _ => false,
    };
    calls
        && is_module(&symbol.module, code.module)
        && is_site(&symbol.code_info, code.dir, code.file, line)
}

/// Whether the symbol is what is told.
fn is_symbol(symbol: &Sym<'_>, told: &Told) -> bool {
    match told {
        Told::Named(name) => symbol.name.as_str() == *name,
        Told::InModule(path) => match &symbol.module {
            Some(module) => {
                symbol.name.as_str() == "f" && symbol.offset == 8 && module.as_str() == *path
            }
            None => false,
        },
        Told::Located(code, name, offset, line, called) => {
            symbol.name.as_str() == *name
                && symbol.offset == *offset
                && is_located(symbol, code, *line, *called)
        }
        Told::Unknown(_) | Told::Refused(_) => false,
    }
}

/// Whether the answer is what is told.
fn is_told(answer: &Symbolized<'_>, told: &Told) -> bool {
    match answer {
        Symbolized::Sym(symbol) => is_symbol(symbol, told),
        Symbolized::Unknown(reason) => match told {
            Told::Unknown(expected) => *reason == *expected,
            _ => false,
        },
    }
}

/// Whether the answers are what is told, one by one.
fn are_told(answers: &[Symbolized<'_>], told: &[Told]) -> bool {
    if answers.len() != told.len() {
        return false;
    }
    for index in 0..told.len() {
        if !is_told(&answers[index], &told[index]) {
            return false;
        }
    }
    true
}

/// Whether the refusal is what is told.
pub(crate) fn is_refused(refusal: Error, told: &Told) -> bool {
    match told {
        Told::Refused(expected) => refusal == *expected,
        _ => false,
    }
}

/// Whether the address is answered or refused as is told.
pub(crate) fn is_given(answer: Result<Symbolized<'_>>, told: &Told) -> bool {
    match answer {
        Ok(answer) => is_told(&answer, told),
        Err(refusal) => is_refused(refusal, told),
    }
}

/// Whether the batch is answered as is told, one by one, or its refusal is all that is told.
pub(crate) fn are_given(answers: Result<Vec<Symbolized<'_>>>, told: &[Told]) -> bool {
    match answers {
        Ok(answers) => are_told(answers.as_slice(), told),
        Err(refusal) => told.len() == 1 && is_refused(refusal, &told[0]),
    }
}
