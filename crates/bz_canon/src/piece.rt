//! Pieces of text that are made in a room on the stack, from their ends to their beginnings.

ghost use Rattle.std.specs.Prelude.{◌≡◌, ◌+◌, ◌<◌, ◌≤◌, ◌∷◌, ◌++◌, [], false, decimal, length};
ghost use Rattle.std.specs.Fmt.{digits};

use crate::hex::put_hex;
use itoa::write_digits;
use std::marker::Model;

/// How many bytes a piece has room for.
pub(crate) const ROOM: usize = 96;

/// A piece of text that grows at its front. Contracts see the text.
#[derive(Drop)]
pub(crate) struct Piece {
    room: [u8; ROOM],
    /// Where the text begins in the room. It ends where the room does.
    from: usize,
}

impl Model for Piece {
    ghost use Rattle.std.specs.Prelude.{◌≤◌, ℕ, List, drop};

    ghost Value = { List ℕ };

    ghost view = { λ piece. drop piece.from piece.room };

    ghost invariant = { λ piece. piece.from ≤ 96 };
}

impl Piece {
    /// An empty text.
    #[inline(always)]
    pub fn new() -> Piece
        ensures { result ≡ [] }
    {
        Piece {
            room: [0; ROOM],
            from: ROOM,
        }
    }

    /// The text.
    #[inline(always)]
    pub fn as_slice(&self) -> &[u8]
        ensures { result.now ≡ self.now }
    {
        &self.room[self.from..]
    }

    /// Puts a byte in front of the text.
    #[inline(always)]
    pub fn put(&mut self, byte: u8)
        requires { length self.old < 96 }
        ensures text { self.new ≡ byte ∷ self.old }
        ensures short { length self.new ≤ length self.old + 1 }
    {
        self.from -= 1;
        self.room[self.from] = byte;
    }

    /// Puts bytes in front of the text.
    #[inline(always)]
    pub fn put_bytes(&mut self, bytes: &[u8])
        requires { length self.old + length bytes.now ≤ 96 }
        ensures text { self.new ≡ bytes.now ++ self.old }
        ensures short { length self.new ≤ length self.old + length bytes.now }
    {
        let from = self.from - bytes.len();
        self.room[from..self.from].copy_from_slice(bytes);
        self.from = from;
    }

    /// Puts a number's hexadecimal digits in front of the text, in lower case and without leading
    /// zeros.
    #[inline(always)]
    pub fn put_hex(&mut self, number: u64)
        requires { length self.old + 16 ≤ 96 }
        ensures text { self.new ≡ digits 16 false number ++ self.old }
        ensures short { length self.new ≤ length self.old + 16 }
    {
        self.from = put_hex(number, &mut self.room, self.from);
    }

    /// Puts a number's decimal digits in front of the text, without leading zeros.
    #[inline(always)]
    pub fn put_decimal(&mut self, number: u32)
        requires { length self.old + 10 ≤ 96 }
        ensures text { self.new ≡ decimal number ++ self.old }
        ensures short { length self.new ≤ length self.old + 10 }
    {
        self.from = write_digits(number as u64, &mut self.room, self.from);
    }
}
