//! The frames that lines spell.

ghost use Rattle.std.specs.Prelude.{◌≡◌, ℕ, Ok, Err, map, option_map, string_bytes, IfOk, IsErrOf, IsOkUnless};
ghost use Rattle.bz_store.specs.Frames.{Frame, frame_of};
ghost use Rattle.bz_serve.specs.FrameLines.{frame_by, frame_in, frame_of_line, frames_in, text_in};

use bz_requests::{BadInput, FromLine, address, fields, read_lines};
use bz_store::CrashFrame;
use std::alloc::{AllocError, Global};

/// The frames that the lines of the input say: one on each line, or none where it is empty. A line is
/// a module's name, the module's id and an offset in the module, with one space between each two. Name
/// and id may be empty.
pub fn read_frames(alloc: Global, text: &[u8]) -> Result<Vec<CrashFrame>, BadInput>
    ensures ok { IfOk result (λ frames. frames_in text.now ≡ Ok (map frame_of frames.items)) }
    ensures line { (n : ℕ) → IsErrOf result (BadInput.Line n) → frames_in text.now ≡ Err n }
{
    let lines: Vec<FrameLine> = read_lines(alloc, text)?;
    frames_of(alloc, lines)
}

// What a line says: a frame.
#[derive(Drop)]
struct FrameLine {
    frame: CrashFrame,
}

impl FromLine for FrameLine {
    ghost Data = { Frame };

    ghost data_of = { frame_of_line };

    ghost reads = { frame_in };

    fn from_line(alloc: Global, content: &[u8]) -> Result<Option<FrameLine>, AllocError> {
        match spelled_frame(alloc, content)? {
            Some(frame) => Ok(Some(FrameLine { frame })),
            None => Ok(None),
        }
    }
}

// The frames of lines.
fn frames_of(alloc: Global, lines: Vec<FrameLine>) -> Result<Vec<CrashFrame>, BadInput>
    ensures ok { IfOk result (λ frames. map frame_of frames.items ≡ map frame_of_line lines.items) }
    ensures memory { IsOkUnless result BadInput.OutOfMemory }
{
    let mut frames = Vec::new(alloc);
    for line in lines {
        frames.push(line.frame)?;
    }
    Ok(frames)
}

// The frame that the text spells.
#[tactic(auto, unfolding(crate::specs::FrameLines::frame_in))]
fn spelled_frame(alloc: Global, text: &[u8]) -> Result<Option<CrashFrame>, AllocError>
    ensures { IfOk result (λ frame. option_map frame_of frame ≡ frame_in text.now) }
{
    let fields = fields(alloc, text)?;
    frame_of_fields(alloc, fields.as_slice())
}

fn frame_of_fields(alloc: Global, fields: &[&[u8]]) -> Result<Option<CrashFrame>, AllocError>
    ensures { IfOk result (λ frame. option_map frame_of frame ≡ frame_by (map (λ field. field.now) fields.now)) }
{
    let [name, id, offset] = fields else {
        return Ok(None);
    };
    let Some(name) = text(alloc, name)? else {
        return Ok(None);
    };
    let Some(id) = text(alloc, id)? else {
        return Ok(None);
    };
    match address(offset) {
        Some(offset) => Ok(Some(CrashFrame::new(name, id, offset))),
        None => Ok(None),
    }
}

// The field, where it is UTF-8 text.
fn text(alloc: Global, field: &[u8]) -> Result<Option<String>, AllocError>
    ensures { IfOk result (λ text. option_map string_bytes text ≡ text_in field.now) }
{
    match str::from_utf8(field) {
        Ok(text) => {
            let text = String::from_str(alloc, text)?;
            Ok(Some(text))
        }
        Err(_) => Ok(None),
    }
}
