//! Versions of files in memory.

ghost use Rattle.std.specs.Prelude.{◌≡◌, ◌==◌, Some, None, cond, true, false, slice_get};
ghost use Rattle.std.specs.Option.{option_map_or};
ghost use Rattle.bz_base.specs.declared.error.Error.TheVariants.{InvalidInput};
ghost use Rattle.bz_cache.specs.Format.{refused_by};

use bz_base::{Error, Result};
use bz_cache::{CacheBuilder, FileCache, Version};
use bz_files::{Files, MemFiles, Stamp};
use std::alloc::Global;
use std::rc::Rc;

/// A text that begins with a `V`.
#[derive(Drop)]
pub(crate) struct Note {
    bytes: Vec<u8>,
    ghost formed: { option_map_or (λ first. first == 86) (slice_get bytes.items 0) false ≡ true },
}

impl Version for Note {
    ghost bytes_of = { λ note. note.bytes.items };

    ghost test = { λ bytes. cond (option_map_or (λ first. first == 86) (slice_get bytes 0) false) None (Some InvalidInput) };

    fn parse(_alloc: Global, bytes: Vec<u8>) -> Result<Note> {
        match bytes.first() {
            Some(b'V') => Ok(Note { bytes }),
            _ => Err(Error::InvalidInput),
        }
    }

    fn formed(&self) {
        let _bytes = &self.bytes;
    }

    ghost refusals = { λ bytes e. refused_by (option_map_or (λ first. first == 86) (slice_get bytes 0) false) InvalidInput e tt };
}

/// Puts a text at `/s`. Gives its stamp, if there is memory and a stamp left.
pub(crate) fn put(alloc: Global, files: &mut MemFiles, text: &[u8]) -> Option<Stamp> {
    let bytes = text.to_vec(alloc).ok()?;
    files.put(alloc, "/s", bytes).ok()?
}

/// Whether the cache answers the text at the path.
pub(crate) fn answers<F: Files>(
    cache: &mut FileCache<Note>,
    alloc: Global,
    files: &mut F,
    path: &str,
    text: &[u8],
) -> bool {
    match cache.entry(alloc, files, path) {
        Ok(note) => note.bytes.as_slice() == text,
        Err(_) => false,
    }
}

/// Puts a text at `/s` under the stamp of the file at `/b`. Says whether there is one, and memory was
/// left.
fn put_under_its_stamp(alloc: Global, files: &mut MemFiles, text: &[u8]) -> bool {
    let Ok(stamp) = files.stat("/b") else {
        return false;
    };
    match text.to_vec(alloc) {
        Ok(bytes) => files.put_as(alloc, "/s", stamp, bytes).is_ok(),
        Err(_) => false,
    }
}

/// Whether a version with the stamp of the file at `/s` is kept.
fn is_kept(cache: &FileCache<Note>, files: &mut MemFiles) -> bool {
    match files.stat("/s") {
        Ok(stamp) => cache.is_kept(&stamp),
        Err(_) => false,
    }
}

/// Takes in a note as that of the file at `/s`.
fn take_in(cache: &mut FileCache<Note>, alloc: Global, files: &mut MemFiles) -> Result<()> {
    let note = Note::parse(alloc, b"V1".to_vec(alloc)?)?;
    let note = Rc::new(alloc, note)?;
    cache.insert_value(alloc, files, "/s", note)
}

/// What is done with the files or the cache, and what has to be so of them.
enum Act {
    /// The text is put at `/s`.
    Puts,
    /// The file at `/s` is put at `/b` too.
    Links,
    /// The text is put at `/s` under the stamp of the file at `/b`.
    PutsUnderItsStamp,
    /// The look of this number is to fail.
    WillFail,
    /// So many looks have failed.
    Failed,
    /// So many files were read.
    WereRead,
    /// Whether the cache answers the text at the path.
    Answers(bool),
    /// It keeps a version with the stamp of the file at `/s`.
    Keeps,
    /// It takes in a note as that of the file at `/s`, or refuses it so.
    TakesIn(Result<()>),
    /// Whether it pins the path, which is pinned only then.
    Pins(bool),
    /// It takes the pin off the path.
    Unpins,
    /// Whether it drops a version with the path.
    Evicts(bool),
    /// So many versions are kept.
    Versions,
    /// So many paths are held.
    Paths,
}

/// An act with its path, its text and its number, where it has them.
type Step = (Act, &'static str, &'static [u8], usize);

/// A changed file is answered by its first version.
const CHANGES_UNSEEN: [Step; 4] = [
    (Act::Puts, "", b"V1", 0),
    (Act::Answers(true), "/s", b"V1", 0),
    (Act::Puts, "", b"V2", 0),
    (Act::Answers(true), "/s", b"V1", 0),
];

/// A file is read where it has changed, refused where a look fails, and read once. A version is looked
/// at twice, for its stamp and its bytes, and once where it is kept.
const CHANGES: [Step; 10] = [
    (Act::WillFail, "", b"", 6),
    (Act::Puts, "", b"V1", 0),
    (Act::Answers(true), "/s", b"V1", 0),
    (Act::Puts, "", b"V2", 0),
    (Act::Answers(true), "/s", b"V2", 0),
    (Act::Answers(true), "/s", b"V2", 0),
    (Act::Answers(false), "/s", b"V2", 0),
    (Act::Failed, "", b"", 1),
    (Act::Answers(true), "/s", b"V2", 0),
    (Act::WereRead, "", b"", 2),
];

/// A path answers by its first version from when it is pinned. It is looked at anew from when it is
/// unpinned, and then let go with both versions.
const IS_PINNED: [Step; 12] = [
    (Act::Puts, "", b"V1", 0),
    (Act::Answers(true), "/s", b"V1", 0),
    (Act::Keeps, "", b"", 0),
    (Act::Pins(true), "/s", b"", 0),
    (Act::Puts, "", b"V2", 0),
    (Act::Answers(true), "/s", b"V1", 0),
    (Act::Unpins, "/s", b"", 0),
    (Act::Answers(true), "/s", b"V2", 0),
    (Act::Versions, "", b"", 2),
    (Act::Paths, "", b"", 1),
    (Act::Evicts(true), "/s", b"", 0),
    (Act::Versions, "", b"", 0),
];

/// A note is taken in once where a file is, which isn't read.
const IS_TAKEN_IN: [Step; 6] = [
    (Act::TakesIn(Err(Error::NotFound)), "", b"", 0),
    (Act::Puts, "", b"not a note", 0),
    (Act::TakesIn(Ok(())), "", b"", 0),
    (Act::Answers(true), "/s", b"V1", 0),
    (Act::WereRead, "", b"", 0),
    (Act::TakesIn(Err(Error::AlreadyExists)), "", b"", 0),
];

/// A path whose file changes and changes back, and that so names a stamp twice, lets both versions go.
const CHANGES_BACK: [Step; 10] = [
    (Act::Puts, "", b"V1", 0),
    (Act::Links, "", b"", 0),
    (Act::Answers(true), "/s", b"V1", 0),
    (Act::Puts, "", b"V2", 0),
    (Act::Answers(true), "/s", b"V2", 0),
    (Act::PutsUnderItsStamp, "", b"V1", 0),
    (Act::Answers(true), "/s", b"V1", 0),
    (Act::Versions, "", b"", 2),
    (Act::Evicts(true), "/s", b"", 0),
    (Act::Versions, "", b"", 0),
];

/// Other bytes under the stamp of the version that is kept aren't seen.
const KEEPS_ITS_STAMP: [Step; 6] = [
    (Act::Puts, "", b"V1", 0),
    (Act::Links, "", b"", 0),
    (Act::Answers(true), "/s", b"V1", 0),
    (Act::PutsUnderItsStamp, "", b"V2", 0),
    (Act::Answers(true), "/s", b"V1", 0),
    (Act::Versions, "", b"", 1),
];

/// The one version of a file with two paths stays until both are forgotten.
const HAS_TWO_PATHS: [Step; 12] = [
    (Act::Puts, "", b"V1", 0),
    (Act::Links, "", b"", 0),
    (Act::Answers(true), "/s", b"V1", 0),
    (Act::Answers(true), "/b", b"V1", 0),
    (Act::Versions, "", b"", 1),
    (Act::Paths, "", b"", 2),
    (Act::Evicts(false), "/s", b"", 0),
    (Act::Versions, "", b"", 1),
    (Act::Evicts(true), "/b", b"", 0),
    (Act::Versions, "", b"", 0),
    (Act::Evicts(false), "/b", b"", 0),
    (Act::Pins(false), "/b", b"", 0),
];

/// Whether a step is done, or is so.
fn goes(cache: &mut FileCache<Note>, alloc: Global, files: &mut MemFiles, step: &Step) -> bool {
    let (act, path, text, number) = step;
    match act {
        Act::Puts => put(alloc, files, text).is_some(),
        Act::Links => files.link(alloc, "/b", "/s") == Ok(true),
        Act::PutsUnderItsStamp => put_under_its_stamp(alloc, files, text),
        Act::WillFail => files.fail_call(alloc, *number as u64).is_ok(),
        Act::Failed => files.faults() == *number as u64,
        Act::WereRead => files.opens() == *number as u64,
        Act::Answers(so) => answers(cache, alloc, files, path, text) == *so,
        Act::Keeps => is_kept(cache, files),
        Act::TakesIn(answer) => take_in(cache, alloc, files) == *answer,
        Act::Pins(so) => cache.pin(path).is_some() == *so && cache.is_pinned(path) == *so,
        Act::Unpins => cache.unpin(path).is_some(),
        Act::Evicts(so) => cache.evict(path) == *so,
        Act::Versions => cache.entry_count() == *number,
        Act::Paths => cache.path_count() == *number,
    }
}

/// How many steps go so before one that doesn't, with new files and a new cache.
fn count_until_failure(alloc: Global, builder: CacheBuilder<Note>, steps: &[Step]) -> usize {
    let mut files = MemFiles::new(alloc, 0);
    let mut cache = builder.build(alloc);
    for index in 0..steps.len() {
        if !goes(&mut cache, alloc, &mut files, &steps[index]) {
            return index;
        }
    }
    steps.len()
}

/// What happens to files, by a name, and whether a cache looks at them anew.
static COURSES: [(&str, &[Step], bool); 7] = [
    ("a file changes unseen", &CHANGES_UNSEEN, false),
    ("a file changes", &CHANGES, true),
    ("a path is pinned", &IS_PINNED, true),
    ("a note is taken in", &IS_TAKEN_IN, true),
    ("a file changes back", &CHANGES_BACK, true),
    ("a file keeps its stamp", &KEEPS_ITS_STAMP, true),
    ("a file has two paths", &HAS_TWO_PATHS, true),
];

#[test]
fn caches_read_keep_and_drop_versions(rt: HostRuntime) {
    for (name, steps, anew) in &COURSES {
        let builder = if *anew {
            FileCache::builder()
        } else {
            FileCache::builder().enable_auto_reload(false)
        };
        let gone = count_until_failure(rt.alloc(), builder, steps);
        assert!(rt; gone == steps.len(), "{name}: step {gone}");
    }
}
