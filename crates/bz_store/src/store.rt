//! A store of symbol files.

ghost use Rattle.std.specs.Prelude.{◌≡◌, ◌≤◌, ◌<◌, drop, length, map, is_some, false, true, Some, IfOk, OnOk, OnErr, IsOkUnless, string_bytes, slice_get};
ghost use Rattle.std.specs.Map.{lookup};
ghost use Rattle.bz_base.specs.declared.error.Error.{Error};
ghost use Rattle.bz_breakpad.specs.Reader.{table_in};
ghost use Rattle.bz_store.specs.Calls.{AnswersFrames, Seeks, Visits, with_files};
ghost use Rattle.bz_store.specs.Frames.{frame_of, key_eq, key_of, reading_of};
ghost use Rattle.bz_store.specs.Shelf.{brought, keep, new_shelf};
ghost use Rattle.bz_store.specs.Visits.{stays};

use crate::found::{FoundFile, find_file};
use crate::frame::{CrashFrame, FileKey, FrameAnswer, run_len};
use crate::known::push_known;
use crate::path::is_good;
use bz_base::{Error, FindSymOpts, Result};
use bz_breakpad::SymbolFile;
use bz_files::Files;
use lru::LruCache;
use std::alloc::Global;
use std::marker::Model;
use std::num::NonZeroUsize;

/// Breakpad symbol files below a root, of which the most recently used ones are kept.
#[derive(Drop)]
pub struct Store {
    root: String,
    files: LruCache<FileKey, SymbolFile>,
}

impl Model for Store {
    ghost use Rattle.std.specs.Prelude.{string_bytes};
    ghost use Rattle.bz_store.specs.Shelf.{Shelf, coded_shelf, kept_of};

    ghost Value = { Shelf };

    ghost coded = { coded_shelf };

    ghost view = { λ s. record { root = string_bytes s.root; cap = s.files.cap; files = kept_of s.files } };
}

impl Store {
    /// A store that lies at the root and keeps no more files than its capacity, which is at least 1. It
    /// keeps none yet. The symbol file of a module lies at ROOT/MODULE/ID/MODULE.sym. OutOfMemory:
    /// memory ran out.
    pub fn new(alloc: Global, root: String, capacity: usize) -> Result<Store>
        requires { 1 ≤ capacity }
        ensures ok { IfOk result (λ store. store ≡ new_shelf (string_bytes root) capacity) }
        ensures memory { IsOkUnless result Error.OutOfMemory }
    {
        let capacity = NonZeroUsize::new(capacity).unwrap();
        let files = LruCache::sparse(alloc, capacity)?;
        Ok(Store { root, files })
    }

    /// How many files are kept.
    pub fn kept(&self) -> usize
        ensures { result ≡ length self.now.files }
    {
        self.files.len()
    }

    /// The answers to frames, in their order. A file is read where it isn't kept, and is kept then if
    /// it is a Breakpad file. It answers by the bytes that were read then, whatever becomes of it,
    /// until others push it out. A bad name, and a file that is absent, denied or no Breakpad file, are
    /// answers and no refusals; such a file isn't kept. ReadFault: a file couldn't be read, and the
    /// count of faults rose. OutOfMemory: memory ran out. What is kept after a refusal is what is kept
    /// after some of the frames. No more files are read than there are frames, whatever is answered.
    pub fn answer<F: Files>(
        &mut self,
        alloc: Global,
        files: &mut F,
        frames: &[CrashFrame],
        opts: &FindSymOpts,
    ) -> Result<Vec<FrameAnswer>>
        ensures { AnswersFrames F.Files (λ answers. map reading_of answers.items) opts.now (map frame_of frames.now) result self.old self.new files.old files.new }
    {
        let mut answers = Vec::with_capacity(alloc, frames.len())?;
        while answers.len() < frames.len() {
            self.visit(alloc, files, &frames[answers.len()..], opts, &mut answers)?;
        }
        Ok(answers)
    }

    // Puts the answers to the first frames behind the answers: to a whole run where its file is or can
    // be kept, else to one. So the cache is asked once for a run, and the file's answers are one batch.
    fn visit<F: Files>(
        &mut self,
        alloc: Global,
        files: &mut F,
        frames: &[CrashFrame],
        opts: &FindSymOpts,
        answers: &mut Vec<FrameAnswer>,
    ) -> Result<()>
        requires { 0 < length frames.now }
        ensures visits { Visits F.Files opts.now (map frame_of frames.now) result (map reading_of answers.old.items) (map reading_of answers.new.items) self.old self.new files.old files.new }
        ensures more { OnOk result (length answers.old.items < length answers.new.items) }
    {
        let key = &frames[0].key;
        match self.seek(alloc, files, key)? {
            Some(answer) => answers.push(answer)?,
            None => {
                let run = &frames[..run_len(key, frames)];
                push_known(alloc, self.front(), run, opts, answers)?;
            }
        }
        Ok(())
    }

    // Puts the file of a key in front, or answers why there is none to put there.
    fn seek<F: Files>(
        &mut self,
        alloc: Global,
        files: &mut F,
        key: &FileKey,
    ) -> Result<Option<FrameAnswer>>
        ensures { Seeks F.Files (key_of key.now) result self.old self.new files.old files.new }
    {
        if !is_good(key) {
            return Ok(Some(FrameAnswer::BadName));
        }
        if self.bring(key) {
            return Ok(None);
        }
        match find_file(alloc, files, self.root.as_str(), key)? {
            FoundFile::Absent => Ok(Some(FrameAnswer::NoFile)),
            FoundFile::Denied => Ok(Some(FrameAnswer::Denied)),
            FoundFile::Holds(bytes) => {
                if self.take_in(alloc, key, bytes)? {
                    Ok(None)
                } else {
                    Ok(Some(FrameAnswer::BadFile))
                }
            }
        }
    }

    // Puts a file that is kept in front, and tells whether it is kept.
    fn bring(&mut self, key: &FileKey) -> bool
        ensures kept { result ≡ is_some (lookup (key_eq (key_of key.now)) self.old.files) }
        ensures room { 0 < self.old.cap }
        ensures state { self.new ≡ with_files self.old (brought self.old.cap (key_of key.now) (lookup (key_eq (key_of key.now)) self.old.files) self.old.files) }
    {
        // The cache's own facts are known once it was asked for its length.
        let _count = self.files.len();
        self.files.promote(key)
    }

    // Keeps a file that was read, in front, if it is a Breakpad file, and tells whether it is one.
    fn take_in(&mut self, alloc: Global, key: &FileKey, bytes: Vec<u8>) -> Result<bool>
        requires { is_some (lookup (key_eq (key_of key.now)) self.old.files) ≡ false }
        ensures kept { IfOk result (λ is. is ≡ is_some (table_in bytes.items)) }
        ensures state { OnOk result (self.new ≡ with_files self.old (stays (table_in bytes.items) (keep self.old.cap (key_of key.now) bytes.items self.old.files) self.old.files)) }
        ensures err { OnErr result (self.new ≡ self.old) }
        ensures memory { IsOkUnless result Error.OutOfMemory }
    {
        match SymbolFile::from_bytes(alloc, bytes) {
            Ok(file) => {
                let _count = self.files.len();
                let key = key.clone()?;
                self.files.put(key, file)?;
                Ok(true)
            }
            Err(Error::OutOfMemory) => Err(Error::OutOfMemory),
            Err(_) => Ok(false),
        }
    }

    // The file in front.
    fn front(&self) -> &SymbolFile
        requires { 0 < length self.now.files }
        ensures first { slice_get (map (λ entry. entry.1) self.now.files) 0 ≡ Some result.now }
        ensures formed { is_some (table_in result.now) ≡ true }
    {
        let (_key, file) = self.files.peek_mru().unwrap();
        // Only a file with a table has a count.
        let _count = file.function_count();
        file
    }
}
