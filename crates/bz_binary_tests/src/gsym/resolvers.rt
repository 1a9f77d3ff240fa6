//! Resolvers, and files in a cache.

use crate::gsym::answers::{AT_MAIN, tells};
use bz_base::{Error, ErrorKind};
use bz_cache::FileCache;
use bz_files::MemFiles;
use bz_gsym::{GsymResolver, GsymTable};
use bz_samples::{GSYM_LINES, put};
use std::alloc::Global;

/// Puts the example file, its front and a path that is denied. The fifth look at files fails.
fn fill(alloc: Global, files: &mut MemFiles) -> Result<(), Error> {
    put(alloc, files, "/g", &GSYM_LINES)?;
    put(alloc, files, "/cut", &GSYM_LINES[..47])?;
    files.deny(alloc, "/denied")?;
    files.fail_call(alloc, 5)
}

/// Paths, and how they are refused one after another, if they are, with a fault at the last one.
static OPENED: [(&str, Option<ErrorKind>); 5] = [
    ("/g", None),
    ("/absent", Some(ErrorKind::NotFound)),
    ("/denied", Some(ErrorKind::PermissionDenied)),
    ("/cut", Some(ErrorKind::InvalidData)),
    ("/g", Some(ErrorKind::ReadFault)),
];

/// Whether the resolver finds `main`, and is printed so.
fn answers(alloc: Global, resolver: &GsymResolver, text: &str) -> bool {
    match format!(in alloc; "{resolver:?}") {
        Ok(printed) => printed.as_str() == text && tells(alloc, resolver, &AT_MAIN),
        Err(_) => false,
    }
}

/// Whether the path is opened and answers, or is refused so.
fn opens(alloc: Global, files: &mut MemFiles, path: &str, refusal: Option<ErrorKind>) -> bool {
    match GsymResolver::open(alloc, files, path) {
        Ok(resolver) => refusal == None && answers(alloc, &resolver, "GSYM /g"),
        Err(error) => refusal == Some(error.kind()),
    }
}

/// Whether all paths are opened or refused so.
fn opens_each(alloc: Global, files: &mut MemFiles) -> bool {
    for row in &OPENED {
        if !opens(alloc, files, row.0, row.1) {
            return false;
        }
    }
    true
}

/// Whether a cache finds the second symbol by the file, and refuses it once it is cut.
fn keeps_tables(alloc: Global, files: &mut MemFiles) -> bool {
    let mut cache = FileCache::<GsymTable>::builder().build(alloc);
    let found = match cache.entry(alloc, files, "/g") {
        Ok(table) => table.context().find_addr(0x1045) == Some(1),
        Err(_) => false,
    };
    found
        && put(alloc, files, "/g", &GSYM_LINES[..47]).is_ok()
        && cache.entry(alloc, files, "/g").is_err()
}

/// The first thing that resolvers and a cache don't do over the same files; nothing where they do all.
fn first_to_fail(alloc: Global) -> &'static str {
    let mut files = MemFiles::new(alloc, 0);
    if fill(alloc, &mut files).is_err() {
        return "files are put";
    }
    if !opens_each(alloc, &mut files) {
        return "paths are opened or refused";
    }
    if !keeps_tables(alloc, &mut files) {
        return "a cache keeps tables";
    }
    ""
}

/// Whether a resolver that has the bytes of the file alone answers.
fn reads_bytes(alloc: Global) -> bool {
    match GsymResolver::with_data(alloc, &GSYM_LINES) {
        Ok(resolver) => answers(alloc, &resolver, "GSYM <unknown-file>"),
        Err(_) => false,
    }
}

#[test]
fn resolvers_and_caches_read_or_refuse_files(rt: HostRuntime) {
    let failed = first_to_fail(rt.alloc());
    assert!(rt; failed.is_empty(), "{failed}");
    assert!(rt; reads_bytes(rt.alloc()), "bytes");
}
