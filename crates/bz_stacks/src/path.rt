//! The path of a stack: the frames that its addresses are answered.

ghost use Rattle.std.specs.Prelude.{◌≡◌, ◌++◌, ◌∷◌, IfOk, OnOk, IsOkUnless, map};
ghost use Rattle.bz_base.specs.Answer.{call_of, reading};
ghost use Rattle.bz_base.specs.declared.error.Error.{Error};
ghost use Rattle.bz_stacks.specs.Led.{led_answer, led_by, led_frames};
ghost use Rattle.bz_stacks.specs.Path.{frame, frame_byte, path_of, semicolon};

use bz_base::{Error, InlinedFn, Result, Symbolized};
use std::alloc::Global;

/// The path of a stack with these answers: all its frames with a `;` between each two.
pub(crate) fn path_of(alloc: Global, answers: &[Symbolized<'_>]) -> Result<Vec<u8>>
    ensures ok { IfOk result (λ path. path.items ≡ path_of (map reading answers.now)) }
    ensures memory { IsOkUnless result Error.OutOfMemory }
{
    let mut path = led_path(alloc, answers)?;
    if path.is_empty() {
        return Ok(path);
    }
    path.remove(0);
    Ok(path)
}

// The frames of the answers, each after a `;`.
fn led_path(alloc: Global, answers: &[Symbolized<'_>]) -> Result<Vec<u8>>
    ensures ok { IfOk result (λ path. path.items ≡ led_by (map reading answers.now)) }
    ensures memory { IsOkUnless result Error.OutOfMemory }
{
    let mut path = Vec::new(alloc);
    for answer in answers {
        push_answer(&mut path, answer)?;
    }
    Ok(path)
}

// Puts the frames of an answer behind the path.
fn push_answer(path: &mut Vec<u8>, answer: &Symbolized<'_>) -> Result<()>
    ensures ok { OnOk result (path.new.items ≡ path.old.items ++ led_answer (reading answer.now)) }
    ensures memory { IsOkUnless result Error.OutOfMemory }
{
    match answer {
        Symbolized::Sym(symbol) => {
            push_frame(path, symbol.name.as_str())?;
            push_calls(path, symbol.inlined.as_slice())
        }
        Symbolized::Unknown(_) => {
            path.extend_from_slice(b";[unknown]")?;
            Ok(())
        }
    }
}

// Puts the frames of inlined calls behind the path.
fn push_calls(path: &mut Vec<u8>, calls: &[InlinedFn<'_>]) -> Result<()>
    ensures ok { OnOk result (path.new.items ≡ path.old.items ++ led_frames (map (λ call. frame call.name) (map call_of calls.now))) }
    ensures memory { IsOkUnless result Error.OutOfMemory }
{
    for call in calls {
        push_frame(path, call.name.as_str())?;
    }
    Ok(())
}

// Puts a `;` and the frame of a name behind the path.
fn push_frame(path: &mut Vec<u8>, name: &str) -> Result<()>
    ensures ok { OnOk result (path.new.items ≡ path.old.items ++ semicolon ∷ frame name.now) }
    ensures memory { IsOkUnless result Error.OutOfMemory }
{
    path.push(b';')?;
    for byte in name.as_bytes() {
        path.push(frame_byte(*byte))?;
    }
    Ok(())
}

// A byte of a name as it stands in a frame: what would end a frame or a line is a `:`.
fn frame_byte(byte: u8) -> u8
    ensures { result ≡ frame_byte byte }
{
    if byte == b';' || byte == b'\r' || byte == b'\n' {
        b':'
    } else {
        byte
    }
}
