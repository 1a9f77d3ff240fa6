//! What resolvers show.

use crate::answered::is_call;
use crate::fact::Call;
use crate::named::are_listed;
use crate::walked::is_walk;
use bz_base::{Error, FindSymOpts, Reason, ResolvedSym, SrcLang, SymType, Symbolize};
use bz_breakpad::{BreakpadResolver, FindAddrOpts, Inspect, SymInfo};
use bz_files::MemFiles;
use bz_samples::put;
use std::alloc::Global;

/// What a resolver shows.
pub(crate) enum Resolved {
    /// How it is printed.
    Printed(&'static str),
    /// What is found at an address, as far as is asked.
    At(u64, FindSymOpts, Found),
    /// The functions of a name, in order.
    Named(&'static str, &'static [SymInfo<'static>]),
    /// It tells no variables, in a walk or by a name.
    NoVariables(&'static str),
}

/// What is found at an address.
pub(crate) enum Found {
    /// The symbol's name and site, start, size and module, which is empty where there is none. It has
    /// no inlined calls, and its language isn't known.
    Symbol(Call, u64, Option<usize>, &'static str),
    /// Why there is no symbol.
    Unknown(Reason),
    /// Why the address is refused.
    Refused(Error),
}

const FUNCTIONS: &FindAddrOpts = &FindAddrOpts {
    sym_type: SymType::Function,
};

const VARIABLES: &FindAddrOpts = &FindAddrOpts {
    sym_type: SymType::Variable,
};

/// A text, and what its resolver shows.
pub(crate) type Row = (&'static [u8], Resolved);

/// Whether the resolver of the text at `/p` shows this.
pub(crate) fn is_resolved(
    alloc: Global,
    files: &mut MemFiles,
    text: &[u8],
    resolved: &Resolved,
) -> Result<bool, Error> {
    put(alloc, files, "/p", text)?;
    let resolver = BreakpadResolver::open(alloc, files, "/p")?;
    Ok(shows(alloc, &resolver, resolved))
}

fn shows(alloc: Global, resolver: &BreakpadResolver, resolved: &Resolved) -> bool {
    match resolved {
        Resolved::Printed(text) => is_printed(alloc, resolver, text),
        Resolved::At(addr, opts, found) => is_found(&resolver.find_sym(alloc, *addr, opts), found),
        Resolved::Named(name, infos) => {
            are_listed(
                resolver.find_addr(alloc, name, &FindAddrOpts::default()),
                infos,
            ) && are_listed(resolver.find_addr(alloc, name, FUNCTIONS), infos)
        }
        Resolved::NoVariables(name) => has_no_variables(alloc, resolver, name),
    }
}

fn is_printed(alloc: Global, resolver: &BreakpadResolver, expected: &str) -> bool {
    match format!(in alloc; "{resolver:?}") {
        Ok(printed) => printed.as_str() == expected,
        Err(_) => false,
    }
}

fn is_found(found: &Result<Result<ResolvedSym<'_>, Reason>, Error>, expected: &Found) -> bool {
    match found {
        Ok(Ok(symbol)) => is_symbol(symbol, expected),
        Ok(Err(reason)) => matches!(expected, Found::Unknown(expected) if expected == reason),
        Err(error) => matches!(expected, Found::Refused(expected) if expected == error),
    }
}

fn is_symbol(symbol: &ResolvedSym<'_>, expected: &Found) -> bool {
    match expected {
        Found::Symbol(site, start, size, module) => {
            is_call(symbol.name, &symbol.code_info, site)
                && (symbol.addr, symbol.size) == (*start, *size)
                && symbol.lang == SrcLang::Unknown
                && symbol.inlined.is_empty()
                && symbol.module.unwrap_or("") == *module
        }
        Found::Unknown(_) | Found::Refused(_) => false,
    }
}

/// Whether variables are refused, in a walk and by the name.
fn has_no_variables(alloc: Global, resolver: &BreakpadResolver, name: &str) -> bool {
    let refused = Err(Error::Unsupported);
    is_walk(resolver, SymType::Variable, name, &[], refused)
        && matches!(
            resolver.find_addr(alloc, name, VARIABLES),
            Err(Error::Unsupported)
        )
}
