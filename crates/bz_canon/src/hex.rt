//! Hexadecimal digits in a room.

ghost use Rattle.std.specs.Prelude.{◌≡◌, ◌-◌, ◌+◌, ◌++◌, ◌<◌, ◌≤◌, ◌^◌, false, drop, length};
ghost use Rattle.std.specs.Fmt.{digits, digit_glyph};
ghost use Rattle.bz_canon.specs.LowDigits.{low_digits};

use crate::piece::ROOM;

/// Writes a number's hexadecimal digits, in lower case and without leading zeros, before a place, and
/// tells where they begin.
///
/// The digits are written in a fixed number of turns, leading zeros too. A processor can't foresee the
/// end of a loop over those that count.
#[inline(always)]
pub(crate) fn put_hex(number: u64, room: &mut [u8; ROOM], end: usize) -> usize
    requires fits { 16 ≤ end }
    requires within { end ≤ 96 }
    ensures from { result ≤ end }
    ensures short { length (digits 16 false number) ≤ 16 }
    ensures text { drop result room.new ≡ digits 16 false number ++ drop end room.old }
{
    if number < 1 << 16 {
        put_low_digits::<4>(number, room, end);
    } else if number < 1 << 32 {
        put_low_digits::<8>(number, room, end);
    } else {
        put_low_digits::<16>(number, room, end);
    }
    end - digit_count(number)
}

/// How many hexadecimal digits a number has.
#[inline(always)]
fn digit_count(number: u64) -> usize
    ensures positive { 0 < result }
    ensures most { result ≤ 16 }
    ensures short { number < 4294967296 → result ≤ 8 }
    ensures shorter { number < 65536 → result ≤ 4 }
    ensures enough { number < 16 ^ result }
    ensures needed { 1 < result → 16 ^ (result - 1) ≤ number }
{
    (number.max(1).ilog2() / 4 + 1) as usize
}

/// Writes so many of a number's last hexadecimal digits before a place.
#[inline(always)]
fn put_low_digits<const TURNS: usize>(number: u64, room: &mut [u8; ROOM], end: usize)
    requires fits { TURNS ≤ end }
    requires within { end ≤ 96 }
    ensures { drop (end - TURNS) room.new ≡ low_digits TURNS number (drop end room.old) }
{
    let mut rest = number;
    for turn in 0..TURNS {
        room[end - 1 - turn] = glyph((rest % 16) as u8);
        rest /= 16;
    }
}

/// A digit as it is written.
#[inline(always)]
fn glyph(digit: u8) -> u8
    requires { digit < 16 }
    ensures { result ≡ digit_glyph false digit }
{
    b"0123456789abcdef"[digit as usize]
}
