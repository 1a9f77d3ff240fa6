//! The frames of a crash, and what is answered for them.

ghost use Rattle.std.specs.Prelude.{◌≡◌, ◌≤◌, length, map, IfOk, IsOkUnless, string_bytes};
ghost use Rattle.std.specs.List.{prefix_len};
ghost use Rattle.bz_base.specs.declared.error.Error.{Error};
ghost use Rattle.bz_store.specs.Frames.{frame_of, is_of, key_of};
ghost use Rattle.bz_store.specs.declared.frame.CrashFrame.{CrashFrame};

use bz_base::{Result, Symbolized};
use std::alloc::Global;

/// A symbol file, by its module and the module's id.
#[derive(Clone, PartialEq, Eq, Hash, Drop)]
pub(crate) struct FileKey {
    /// The module's name.
    pub(crate) name: String,
    /// The id of the module's build.
    pub(crate) id: String,
}

/// A frame of a crash: a module, its id, and an offset in it.
#[derive(Drop)]
pub struct CrashFrame {
    pub(crate) key: FileKey,
    pub(crate) offset: u64,
}

impl CrashFrame {
    /// A frame at an offset in a module, which is relative to the module's base.
    pub fn new(module: String, id: String, offset: u64) -> CrashFrame
        ensures { frame_of result ≡ record { file = (string_bytes «module», string_bytes id); offset = offset } }
    {
        CrashFrame {
            key: FileKey { name: module, id },
            offset,
        }
    }

    /// The module's name.
    pub fn module_name(&self) -> &str
        ensures { result.now ≡ (frame_of self.now).file.0 }
    {
        self.key.name.as_str()
    }

    /// The id of the module's build.
    pub fn id(&self) -> &str
        ensures { result.now ≡ (frame_of self.now).file.1 }
    {
        self.key.id.as_str()
    }

    /// The offset, which is relative to the module's base.
    pub fn offset(&self) -> u64
        ensures { result ≡ (frame_of self.now).offset }
    {
        self.offset
    }
}

/// What is answered for a frame.
#[derive(Drop)]
pub enum FrameAnswer {
    /// The answer of the module's symbol file at the offset, also an unknown one.
    Known(Symbolized<'static>),
    /// The module's name, or its id, isn't one that a folder can have.
    BadName,
    /// There is no symbol file of the module.
    NoFile,
    /// The symbol file may not be read.
    Denied,
    /// The symbol file isn't a Breakpad file.
    BadFile,
}

/// How many frames in front are of the file.
pub(crate) fn run_len(key: &FileKey, frames: &[CrashFrame]) -> usize
    ensures value { result ≡ prefix_len (is_of (key_of key.now)) frames.now }
    ensures within { result ≤ length frames.now }
{
    frames.iter().take_while(|frame| frame.key == *key).count()
}

/// The offsets of frames.
pub(crate) fn offsets(alloc: Global, frames: &[CrashFrame]) -> Result<Vec<u64>>
    ensures offsets { IfOk result (λ offsets. offsets.items ≡ map (λ (frame : CrashFrame). frame.offset) frames.now) }
    ensures memory { IsOkUnless result Error.OutOfMemory }
{
    let mut offsets = Vec::with_capacity(alloc, frames.len())?;
    for frame in frames {
        offsets.push(frame.offset)?;
    }
    Ok(offsets)
}
