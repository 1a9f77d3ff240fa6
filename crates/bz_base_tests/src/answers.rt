//! Answers, errors and inputs.

use bz_base::{
    CodeInfo, Error, ErrorKind, InlinedFn, Input, Reason, Result, Sym, Symbolized, in_batch,
};
use std::alloc::Global;
use std::borrow::CowStr;

/// Whether a reason and an error print in words.
fn print_in_words(alloc: Global) -> bool {
    match format!(in alloc; "{} {}", Reason::UnknownAddr, Error::NotFound) {
        Ok(text) => text.as_str() == "address not found in symbolization source NotFound",
        Err(_) => false,
    }
}

/// Whether an input keeps its kind under a map, and lends and gives what it holds.
fn keeps_its_kind(input: Input<u64>) -> bool {
    input.map(Some) == Input::VirtOffset(Some(3))
        && *input.as_inner_ref() == 3
        && input.into_inner() == 3
}

/// The first thing that isn't told so; nothing where all are.
fn first_untold(alloc: Global) -> &'static str {
    if !print_in_words(alloc) {
        return "words";
    }
    if !keeps_its_kind(Input::VirtOffset(3)) {
        return "an input";
    }
    if Reason::MissingComponent.as_bytes() != b"proc maps entry has no component\0".as_slice() {
        return "bytes of a reason";
    }
    if Error::InvalidInput.kind() != ErrorKind::InvalidInput {
        return "kind of an error";
    }
    ""
}

#[test]
fn reasons_errors_and_inputs_tell_what_they_are(rt: HostRuntime) {
    let untold = first_untold(rt.alloc());
    assert!(rt; untold.is_empty(), "{untold}");
}

/// A site, whose texts are borrowed.
const SITE: CodeInfo<'static> = CodeInfo {
    dir: Some(CowStr::Borrowed("/foobar")),
    file: CowStr::Borrowed("source.c"),
    line: Some(14),
    column: None,
};

/// A call at that site.
const CALL: InlinedFn<'static> = InlinedFn {
    name: CowStr::Borrowed("inner"),
    code_info: Some(SITE),
};

/// A symbol with that call, whose texts are borrowed.
fn symbol(alloc: Global) -> Result<Sym<'static>> {
    let mut inlined = Vec::new(alloc);
    inlined.push(CALL)?;
    Ok(Sym {
        name: CowStr::Borrowed("factorial"),
        module: Some(CowStr::Borrowed("a.out")),
        addr: 0x2000100,
        offset: 4,
        size: Some(46),
        code_info: Some(SITE),
        inlined,
        public: false,
    })
}

/// Whether there is a value, and it is equal to this one.
fn is_equal<T: PartialEq + Drop>(value: Option<T>, expected: &T) -> bool {
    match value {
        Some(value) => value == *expected,
        None => false,
    }
}

/// Whether a copy is equal to its symbol, and its name is borrowed, or not.
fn is_copy(copy: Sym<'_>, symbol: &Sym<'_>, lent: bool) -> bool {
    let borrowed = matches!(copy.name, CowStr::Borrowed(_));
    is_equal(Some(copy), symbol) && borrowed == lent
}

/// Whether a copy of a symbol is equal to it, and its name is borrowed, or not.
fn is_cloned(alloc: Global, symbol: &Sym<'_>, lent: bool) -> bool {
    match symbol.try_clone(alloc) {
        Ok(copy) => is_copy(copy, symbol, lent),
        Err(_) => false,
    }
}

fn lends(answer: &Symbolized<'_>, expected: &Sym<'_>) -> bool {
    match answer.as_sym() {
        Some(symbol) => symbol == expected,
        None => false,
    }
}

/// Whether an answer lends the symbol, and then gives it.
fn gives(answer: Symbolized<'_>, expected: &Sym<'_>) -> bool {
    let lent = lends(&answer, expected);
    is_equal(answer.into_sym(), expected) && lent
}

/// Whether a copy of an answer is equal to it.
fn answer_is_cloned(alloc: Global, answer: &Symbolized<'_>) -> bool {
    is_equal(answer.try_clone(alloc).ok(), answer)
}

/// Whether an answer with a symbol is cloned, and gives one that is equal in every field.
fn is_answered(alloc: Global, answer: Symbolized<'_>, expected: &Sym<'_>) -> bool {
    let cloned = answer_is_cloned(alloc, &answer);
    gives(answer, expected) && cloned
}

/// Whether a symbol with texts of its own is cloned, and answers as the one that lent them.
fn is_kept(alloc: Global, own: Sym<'_>, lent: &Sym<'_>) -> bool {
    let cloned = is_cloned(alloc, &own, false);
    is_answered(alloc, Symbolized::Sym(own), lent) && cloned
}

/// The symbol with texts of its own.
fn own_symbol(alloc: Global) -> Result<Sym<'static>> {
    symbol(alloc)?.into_owned(alloc)
}

/// Whether the symbol with texts of its own is made, cloned and given, equal to the one that lent them.
fn owned_is_kept(alloc: Global, lent: &Sym<'_>) -> bool {
    match own_symbol(alloc) {
        Ok(own) => is_kept(alloc, own, lent),
        Err(_) => false,
    }
}

/// Whether a call and a site are cloned, and an answer that is none.
fn parts_are_cloned(alloc: Global, call: &InlinedFn<'_>, site: &CodeInfo<'_>) -> bool {
    is_equal(call.try_clone(alloc).ok(), call)
        && is_equal(site.try_clone(alloc).ok(), site)
        && answer_is_cloned(alloc, &Symbolized::Unknown(Reason::Unmapped))
}

/// Whether a call has texts of its own, and is equal to the one that lent them.
fn is_own_call(own: InlinedFn<'_>, lent: &InlinedFn<'_>) -> bool {
    let owned = matches!(own.name, CowStr::Owned(_));
    is_equal(Some(own), lent) && owned
}

/// Whether the call with texts of its own is equal to the one that lent them.
fn call_is_owned(alloc: Global, lent: &InlinedFn<'_>) -> bool {
    match CALL.into_owned(alloc) {
        Ok(own) => is_own_call(own, lent),
        Err(_) => false,
    }
}

/// Whether a site has texts of its own, and is equal to the one that lent them.
fn is_own_site(own: CodeInfo<'_>, lent: &CodeInfo<'_>) -> bool {
    let owned = matches!(own.file, CowStr::Owned(_));
    is_equal(Some(own), lent) && owned
}

/// Whether the site with texts of its own is equal to the one that lent them.
fn site_is_owned(alloc: Global, lent: &CodeInfo<'_>) -> bool {
    match SITE.into_owned(alloc) {
        Ok(own) => is_own_site(own, lent),
        Err(_) => false,
    }
}

/// The first part of the symbol that isn't cloned or owned; nothing where all are.
fn first_unkept(alloc: Global, symbol: &Sym<'_>) -> &'static str {
    let (Some(call), Some(site)) = (symbol.inlined.first(), &symbol.code_info) else {
        return "a symbol's parts";
    };
    if !is_cloned(alloc, symbol, true) || !owned_is_kept(alloc, symbol) {
        return "a symbol";
    }
    if !parts_are_cloned(alloc, call, site) {
        return "a call, a site and a reason";
    }
    if !call_is_owned(alloc, call) {
        return "a call's own texts";
    }
    if !site_is_owned(alloc, site) {
        return "a site's own texts";
    }
    ""
}

/// The same of the symbol above.
fn first_unkept_of_symbol(alloc: Global) -> &'static str {
    match symbol(alloc) {
        Ok(symbol) => first_unkept(alloc, &symbol),
        Err(_) => "memory",
    }
}

#[test]
fn answers_are_given_and_with_their_parts_cloned_and_owned(rt: HostRuntime) {
    let unkept = first_unkept_of_symbol(rt.alloc());
    assert!(rt; unkept.is_empty(), "{unkept}");
}

/// Whether an answer becomes an entry without a symbol, for this reason.
fn is_entry(answer: Result<Symbolized<'static>>, reason: Reason) -> bool {
    is_equal(in_batch(answer).ok(), &Symbolized::Unknown(reason))
}

/// Whether an error refuses the batch.
fn refuses(error: Error) -> bool {
    in_batch(Err(error)).err() == Some(error)
}

/// Whether a batch keeps an answer and ignores a refused address. A failed read and want of memory
/// refuse it.
fn becomes_an_entry() -> bool {
    is_entry(Ok(Symbolized::Unknown(Reason::Unmapped)), Reason::Unmapped)
        && is_entry(Err(Error::InvalidData), Reason::IgnoredError)
        && refuses(Error::ReadFault)
        && refuses(Error::OutOfMemory)
}

#[test]
fn answers_become_entries_of_batches_or_refuse_them(rt: HostRuntime) {
    assert!(rt; becomes_an_entry());
}
