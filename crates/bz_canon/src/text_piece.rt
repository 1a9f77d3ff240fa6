//! Pieces of an answer's text, from their ends to their beginnings.

ghost use Rattle.std.specs.Prelude.{◌≡◌, ◌+◌, ◌++◌, ◌≤◌, false, length, string_bytes, OnOk};
ghost use Rattle.std.specs.Fmt.{digits};
ghost use Rattle.std.specs.Str.{IsUtf8};

use crate::piece::Piece;
use std::alloc::AllocError;

/// Adds a piece to the end of a text.
pub(crate) fn push_piece(text: &mut String, piece: &Piece) -> Result<(), AllocError>
    requires { IsUtf8 piece.now }
    ensures { OnOk result (string_bytes text.new ≡ string_bytes text.old ++ piece.now) }
{
    text.push_str(unsafe { std::str::from_utf8_unchecked(piece.as_slice()) })?;
    Ok(())
}

/// Puts a text in front of a piece.
#[inline(always)]
pub(crate) fn put_str(piece: &mut Piece, text: &str)
    requires { length piece.old + length text.now ≤ 96 }
    ensures text { piece.new ≡ text.now ++ piece.old }
    ensures short { length piece.new ≤ length piece.old + length text.now }
    ensures utf8 { IsUtf8 piece.old → IsUtf8 piece.new }
{
    piece.put_bytes(text.as_bytes());
}

/// Puts a text, followed by a number's hexadecimal digits, in front of a piece.
#[inline(always)]
pub(crate) fn put_hex_after(piece: &mut Piece, text: &str, number: u64)
    requires { length piece.old + (length text.now + 16) ≤ 96 }
    ensures text { piece.new ≡ text.now ++ (digits 16 false number ++ piece.old) }
    ensures short { length piece.new ≤ length piece.old + (length text.now + 16) }
    ensures utf8 { IsUtf8 piece.old → IsUtf8 piece.new }
{
    piece.put_hex(number);
    put_str(piece, text);
}
