//! The texts of frames' answers.

ghost use Rattle.std.specs.Prelude.{◌≡◌, ◌++◌, map, string_bytes, OnOk, IfOk, IsOkUnless};
ghost use Rattle.bz_base.specs.declared.error.Error.{Error};
ghost use Rattle.bz_store.specs.Frames.{frame_of, reading_of};
ghost use Rattle.bz_serve.specs.FrameText.{file_text, frame_text, frame_texts, reply_text, unknown_text};

use bz_base::{Error, Result};
use bz_canon::push_answer;
use bz_store::{CrashFrame, FrameAnswer};
use std::alloc::Global;

/// The texts of answers to frames, one after the other, each with its frame's module and id in front.
pub fn frame_texts(alloc: Global, frames: &[CrashFrame], answers: &[FrameAnswer]) -> Result<String>
    ensures ok { IfOk result (λ text. string_bytes text ≡ frame_texts (map frame_of frames.now) (map reading_of answers.now)) }
    ensures memory { IsOkUnless result Error.OutOfMemory }
{
    let mut text = String::new(alloc);
    for (frame, answer) in frames.iter().zip(answers) {
        push_frame(&mut text, frame, answer)?;
    }
    Ok(text)
}

/// The text of the answer to a frame, with the frame's module and id in front.
pub fn frame_text(alloc: Global, frame: &CrashFrame, answer: &FrameAnswer) -> Result<String>
    ensures ok { IfOk result (λ text. string_bytes text ≡ frame_text (frame_of frame.now) (reading_of answer.now)) }
    ensures memory { IsOkUnless result Error.OutOfMemory }
{
    let mut text = String::new(alloc);
    push_frame(&mut text, frame, answer)?;
    Ok(text)
}

// Adds the text of the answer to a frame to the end of a text.
fn push_frame(text: &mut String, frame: &CrashFrame, answer: &FrameAnswer) -> Result<()>
    ensures ok { OnOk result (string_bytes text.new ≡ string_bytes text.old ++ frame_text (frame_of frame.now) (reading_of answer.now)) }
    ensures memory { IsOkUnless result Error.OutOfMemory }
{
    push_file(text, frame)?;
    push_reply(text, frame.offset(), answer)
}

// The answer at an offset, or why there is none.
fn push_reply(text: &mut String, offset: u64, answer: &FrameAnswer) -> Result<()>
    ensures ok { OnOk result (string_bytes text.new ≡ string_bytes text.old ++ reply_text offset (reading_of answer.now)) }
    ensures memory { IsOkUnless result Error.OutOfMemory }
{
    match answer {
        FrameAnswer::Known(answer) => push_answer(text, offset, answer),
        FrameAnswer::BadName => push_unknown(text, offset, "bad name"),
        FrameAnswer::NoFile => push_unknown(text, offset, "no symbol file"),
        FrameAnswer::Denied => push_unknown(text, offset, "access denied"),
        FrameAnswer::BadFile => push_unknown(text, offset, "bad symbol file"),
    }
}

// MODULE ID, and a space
fn push_file(text: &mut String, frame: &CrashFrame) -> Result<()>
    ensures ok { OnOk result (string_bytes text.new ≡ string_bytes text.old ++ file_text (frame_of frame.now).file) }
    ensures memory { IsOkUnless result Error.OutOfMemory }
{
    write!(text, "{} {} ", frame.module_name(), frame.id())?;
    Ok(())
}

// 0xOFFSET: ? REASON
fn push_unknown(text: &mut String, offset: u64, reason: &str) -> Result<()>
    ensures ok { OnOk result (string_bytes text.new ≡ string_bytes text.old ++ unknown_text offset reason.now) }
    ensures memory { IsOkUnless result Error.OutOfMemory }
{
    write!(text, "0x{offset:x}: ? {reason}\n")?;
    Ok(())
}
