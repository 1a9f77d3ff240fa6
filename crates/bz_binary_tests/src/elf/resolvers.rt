//! Resolvers, and files in a cache.

use crate::elf::files::{F, UNKNOWN, tells};
use bz_base::{Error, ErrorKind, TranslateFileOffset};
use bz_cache::FileCache;
use bz_elf::{ElfFile, ElfResolver};
use bz_files::MemFiles;
use bz_samples::{ELF_FUNCTION, put};
use std::alloc::Global;

/// The example file, its front, and the front of one of 32 bits.
static FILES: [(&str, &[u8]); 3] = [
    ("/e", &ELF_FUNCTION),
    ("/cut", b"\x7fELF"),
    ("/other", b"\x7fELF\x01\x01"),
];

/// Puts these files, beside a path that is denied. The sixth look at files fails.
fn fill(alloc: Global, files: &mut MemFiles) -> Result<(), Error> {
    for row in &FILES {
        put(alloc, files, row.0, row.1)?;
    }
    files.deny(alloc, "/denied")?;
    files.fail_call(alloc, 6)
}

/// Paths, and how they are refused one after another, if they are, with a fault at the last one.
static OPENED: [(&str, Option<ErrorKind>); 6] = [
    ("/e", None),
    ("/absent", Some(ErrorKind::NotFound)),
    ("/denied", Some(ErrorKind::PermissionDenied)),
    ("/cut", Some(ErrorKind::InvalidData)),
    ("/other", Some(ErrorKind::Unsupported)),
    ("/e", Some(ErrorKind::ReadFault)),
];

/// Whether the resolver answers as the file at `/e` does, with the path as its module. Its file doesn't
/// know the path when asked by itself. Offsets are translated as far as the segment reaches.
fn answers(alloc: Global, resolver: &ElfResolver) -> bool {
    tells(alloc, resolver, 0x400088, "/e", &F)
        && tells(alloc, resolver, 0x400090, "/e", &UNKNOWN)
        && tells(alloc, resolver.file().as_ref(), 0x400088, "", &F)
        && resolver.file_offset_to_virt_offset(0x88) == Ok(Some(0x400088))
        && resolver.file_offset_to_virt_offset(0x200) == Ok(None)
}

/// Whether the path is opened and answers, or is refused so.
fn opens(alloc: Global, files: &mut MemFiles, path: &str, refusal: Option<ErrorKind>) -> bool {
    match ElfResolver::open(alloc, files, path) {
        Ok(resolver) => refusal == None && answers(alloc, &resolver),
        Err(error) => refusal == Some(error.kind()),
    }
}

/// Whether all paths are opened or refused so.
fn opens_each(alloc: Global, files: &mut MemFiles) -> bool {
    for row in &OPENED {
        if !opens(alloc, files, row.0, row.1) {
            return false;
        }
    }
    true
}

/// Whether a cache shares the file, which translates an offset, and refuses it once it is cut.
fn keeps_files(alloc: Global, files: &mut MemFiles) -> bool {
    let mut cache = FileCache::<ElfFile>::builder().build(alloc);
    let shared = match cache.shared(alloc, files, "/e") {
        Ok(file) => file.file_offset_to_virt_offset(0x88) == Ok(Some(0x400088)),
        Err(_) => false,
    };
    shared
        && put(alloc, files, "/e", &ELF_FUNCTION[..4]).is_ok()
        && cache.entry(alloc, files, "/e").is_err()
}

/// The first thing that resolvers and a cache don't do over the same files; nothing where they do all.
fn first_to_fail(alloc: Global) -> &'static str {
    let mut files = MemFiles::new(alloc, 0);
    if fill(alloc, &mut files).is_err() {
        return "files are put";
    }
    if !opens_each(alloc, &mut files) {
        return "paths are opened or refused";
    }
    if !keeps_files(alloc, &mut files) {
        return "a cache keeps files";
    }
    ""
}

/// Whether a resolver of the bytes answers.
fn reads_bytes(alloc: Global) -> Result<bool, Error> {
    let bytes = Vec::from_slice(alloc, &ELF_FUNCTION)?;
    let resolver = ElfResolver::from_bytes(alloc, "/e", bytes)?;
    Ok(answers(alloc, &resolver))
}

#[test]
fn resolvers_and_caches_read_or_refuse_files(rt: HostRuntime) {
    let failed = first_to_fail(rt.alloc());
    assert!(rt; failed.is_empty(), "{failed}");
    assert!(rt; reads_bytes(rt.alloc()) == Ok(true), "bytes");
}
