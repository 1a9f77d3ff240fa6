//! LEB128 numbers, of which those of one or two bytes are read without a branch between the two.
//! This is for speed alone: `Cursor` reads the same numbers, and here all others. Its own quick
//! path is for one byte; by this one answers are faster.

ghost use Rattle.std.specs.Prelude.{◌≡◌, ◌+◌, ◌<◌, ◌≤◌, drop, length, Some, IfNone, IfSome};
ghost use Rattle.bz_base.specs.Cursor.{with_rest};
ghost use Rattle.bz_base.specs.Leb128.{sleb_at, uleb_at};
ghost use Rattle.bz_gsym.specs.Short.{IsShort};

use bz_base::Cursor;

/// The next unsigned LEB128 number. None: there is none of at most ten bytes and 64 bits, and the
/// cursor is unchanged.
#[inline(always)]
pub(crate) fn read_uleb(cursor: &mut Cursor<'_>) -> Option<u64>
    ensures reads { with_rest result cursor.new.left ≡ uleb_at cursor.old.left }
    ensures all { cursor.new.all ≡ cursor.old.all }
    ensures shorter { IfSome result (λ _. length cursor.new.left < length cursor.old.left) }
    ensures none { IfNone result (cursor.new ≡ cursor.old) }
{
    match short_unsigned(cursor.rest()) {
        Some((number, len)) => {
            pass(cursor, len);
            Some(number)
        }
        None => cursor.read_uleb(),
    }
}

/// The next signed LEB128 number. None: there is none of at most ten bytes and 64 bits, and the
/// cursor is unchanged.
#[inline(always)]
pub(crate) fn read_sleb(cursor: &mut Cursor<'_>) -> Option<i64>
    ensures reads { with_rest result cursor.new.left ≡ sleb_at cursor.old.left }
    ensures all { cursor.new.all ≡ cursor.old.all }
    ensures shorter { IfSome result (λ _. length cursor.new.left < length cursor.old.left) }
    ensures none { IfNone result (cursor.new ≡ cursor.old) }
{
    match short_signed(cursor.rest()) {
        Some((number, len)) => {
            pass(cursor, len);
            Some(number)
        }
        None => cursor.read_sleb(),
    }
}

/// Leaves so many bytes behind.
#[inline(always)]
pub(crate) fn pass(cursor: &mut Cursor<'_>, len: usize)
    requires { len ≤ length cursor.old.left }
    ensures left { cursor.new.left ≡ drop len cursor.old.left }
    ensures all { cursor.new.all ≡ cursor.old.all }
{
    let _passed = cursor.read_slice(len).unwrap();
}

/// The bits of a number of one or two bytes.
#[derive(Drop)]
struct Short {
    /// The number that the low 7 bits of the bytes make.
    bits: u16,
    /// How many bytes there are before the last: 0 or 1.
    marked: u8,
}

/// The unsigned number in front of at least two bytes and its length, if that is one or two bytes.
#[inline(always)]
fn short_unsigned(bytes: &[u8]) -> Option<(u64, usize)>
    ensures reads { IfSome result (λ read. uleb_at bytes.now ≡ Some (read.0, drop read.1 bytes.now)) }
    ensures within { IfSome result (λ read. (0 < read.1) × (read.1 ≤ length bytes.now)) }
{
    let short = front_bits(bytes)?;
    Some((u64::from(short.bits), 1 + usize::from(short.marked)))
}

/// The signed number in front of at least two bytes and its length, if that is one or two bytes.
#[inline(always)]
fn short_signed(bytes: &[u8]) -> Option<(i64, usize)>
    ensures reads { IfSome result (λ read. sleb_at bytes.now ≡ Some (read.0, drop read.1 bytes.now)) }
    ensures within { IfSome result (λ read. (0 < read.1) × (read.1 ≤ length bytes.now)) }
{
    let short = front_bits(bytes)?;
    let len = 1 + usize::from(short.marked);
    // The number is negative from this one on.
    let half = 64 + 8128 * u16::from(short.marked);
    if short.bits < half {
        Some((i64::from(short.bits), len))
    } else {
        Some((i64::from(short.bits) - 2 * i64::from(half), len))
    }
}

/// The bits of the number in front of at least two bytes, if it has one or two.
#[inline(always)]
fn front_bits(bytes: &[u8]) -> Option<Short>
    ensures { IfSome result (λ short. IsShort bytes.now short.bits short.marked) }
{
    if bytes.len() < 2 {
        return None;
    }
    let first = bytes[0];
    let second = bytes[1];
    if first.min(second) >= 128 {
        return None;
    }
    let marked = first / 128;
    Some(Short {
        bits: u16::from(first % 128) + u16::from(marked) * 128 * u16::from(second),
        marked,
    })
}
