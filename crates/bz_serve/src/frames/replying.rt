//! What an input of frames is answered.

ghost use Rattle.std.specs.Prelude.{◌≡◌, Ok, map, IfOk, IsOkUnless};
ghost use Rattle.bz_base.specs.declared.error.Error.{Error};
ghost use Rattle.bz_store.specs.Frames.{frame_of, reading_of};
ghost use Rattle.bz_store.specs.Shelf.{new_shelf};
ghost use Rattle.bz_symq.specs.Reply.{outcome_of};
ghost use Rattle.bz_serve.specs.FrameLines.{frames_in};
ghost use Rattle.bz_serve.specs.FrameReply.{IsFramesReply, RepliesFrames, capacity, done};

use crate::frames::reading::read_frames;
use crate::frames::writing::frame_texts;
use bz_base::{Error, FindSymOpts, Result};
use bz_files::Files;
use bz_requests::BadInput;
use bz_store::{CrashFrame, FrameAnswer, Store};
use bz_symq::{Reply, Status, bad_line, text_reply};
use std::alloc::Global;

/// How many symbol files are kept at most.
const CAPACITY: usize = 64;

/// Answers the frames of an input from the symbol files below a root, in a store of its own. ReadFault:
/// a file couldn't be read, and the count of faults rose. OutOfMemory: memory ran out.
pub(crate) fn reply_to_frames<F: Files>(
    alloc: Global,
    root: &str,
    opts: &FindSymOpts,
    text: &[u8],
    files: &mut F,
) -> Result<Reply>
    ensures reply { RepliesFrames F.Files root.now opts.now (frames_in text.now) result files.old files.new }
    // Whatever the files tell.
    ensures answered { IfOk result (IsFramesReply root.now opts.now (frames_in text.now) (F.Files.opens files.old) (F.Files.opens files.new)) }
{
    match read_frames(alloc, text) {
        Ok(frames) => answered(alloc, root, opts, frames.as_slice(), files),
        Err(BadInput::Line(number)) => bad_line(alloc, number),
        Err(BadInput::OutOfMemory) => Err(Error::OutOfMemory),
    }
}

fn answered<F: Files>(
    alloc: Global,
    root: &str,
    opts: &FindSymOpts,
    frames: &[CrashFrame],
    files: &mut F,
) -> Result<Reply>
    ensures reply { RepliesFrames F.Files root.now opts.now (Ok (map frame_of frames.now)) result files.old files.new }
    ensures answered { IfOk result (IsFramesReply root.now opts.now (Ok (map frame_of frames.now)) (F.Files.opens files.old) (F.Files.opens files.new)) }
{
    let store = new_store(alloc, root)?;
    answered_by(alloc, store, opts, frames, files)
}

fn answered_by<F: Files>(
    alloc: Global,
    mut store: Store,
    opts: &FindSymOpts,
    frames: &[CrashFrame],
    files: &mut F,
) -> Result<Reply>
    requires { store ≡ new_shelf store.root capacity }
    ensures reply { RepliesFrames F.Files store.root opts.now (Ok (map frame_of frames.now)) result files.old files.new }
    ensures answered { IfOk result (IsFramesReply store.root opts.now (Ok (map frame_of frames.now)) (F.Files.opens files.old) (F.Files.opens files.new)) }
{
    match store.answer(alloc, files, frames, opts) {
        Ok(answers) => texts_reply(alloc, frames, answers.as_slice()),
        Err(error) => Err(error),
    }
}

// A store at the root that keeps no file yet.
fn new_store(alloc: Global, root: &str) -> Result<Store>
    ensures ok { IfOk result (λ store. store ≡ new_shelf root.now capacity) }
    ensures memory { IsOkUnless result Error.OutOfMemory }
{
    let root = String::from_str(alloc, root)?;
    Store::new(alloc, root, CAPACITY)
}

fn texts_reply(alloc: Global, frames: &[CrashFrame], answers: &[FrameAnswer]) -> Result<Reply>
    ensures ok { IfOk result (λ reply. outcome_of reply ≡ done (map frame_of frames.now) (map reading_of answers.now)) }
    ensures memory { IsOkUnless result Error.OutOfMemory }
{
    let text = frame_texts(alloc, frames, answers)?;
    Ok(text_reply(Status::Done, text))
}
