//! A place in bytes, from which little-endian numbers, slices and texts are read.

ghost use Rattle.std.specs.Prelude.{◌≡◌, ◌+◌, ◌<◌, ◌≤◌, drop, length, option_map, IfNone, IfSome};
ghost use Rattle.bz_bytes.specs.Cursor.{byte_at, cstr_at, padding, place_of, skip_at, slice_at, with_rest, word_at};
ghost use Rattle.bz_bytes.specs.Leb128.{sleb_at, uleb_at};

use crate::leb128;
use memchr::memchr;
use std::marker::Model;

/// Bytes, of which a part was read.
#[derive(Drop)]
pub struct Cursor<'a> {
    bytes: &'a [u8],
    rest: &'a [u8],
}

impl<'a> Model for Cursor<'a> {
    ghost use Rattle.bz_bytes.specs.Cursor.{Reading, IsPlaced};

    ghost Value = { Reading };

    ghost view = { λ c. record { all = c.bytes.now; left = c.rest.now } };

    ghost invariant = { λ c. IsPlaced (record { all = c.bytes.now; left = c.rest.now }) };
}

/// How many bytes lie from a place to the first one divisible by 4 that isn't before it.
#[inline(always)]
pub fn padding(place: usize) -> usize
    ensures { result ≡ padding place }
{
    (4 - place % 4) % 4
}

impl<'a> Cursor<'a> {
    /// The place in front of all bytes.
    pub fn new(bytes: &'a [u8]) -> Cursor<'a>
        ensures all { result.all ≡ bytes.now }
        ensures left { result.left ≡ bytes.now }
    {
        Cursor { bytes, rest: bytes }
    }

    /// How many bytes were read.
    #[inline(always)]
    pub fn place(&self) -> usize
        ensures place { result ≡ place_of self.now }
        ensures left { self.now.left ≡ drop result self.now.all }
        ensures within { result ≤ length self.now.all }
    {
        self.bytes.len() - self.rest.len()
    }

    /// The bytes that are left.
    #[inline(always)]
    pub fn rest(&self) -> &'a [u8]
        ensures { result.now ≡ self.now.left }
    {
        self.rest
    }

    /// The next byte. None: there is none, and the cursor is unchanged.
    #[inline(always)]
    pub fn read_u8(&mut self) -> Option<u8>
        ensures reads { with_rest result self.new.left ≡ byte_at self.old.left }
        ensures all { self.new.all ≡ self.old.all }
        ensures shorter { IfSome result (λ _. length self.new.left < length self.old.left) }
        ensures none { IfNone result (self.new ≡ self.old) }
    {
        let bytes = self.read_slice(1)?;
        Some(bytes[0])
    }

    /// The next two bytes as a number, the first being the least. None: there are fewer, and the
    /// cursor is unchanged.
    #[inline(always)]
    pub fn read_u16(&mut self) -> Option<u16>
        ensures reads { with_rest result self.new.left ≡ word_at 2 self.old.left }
        ensures all { self.new.all ≡ self.old.all }
        ensures shorter { IfSome result (λ _. length self.new.left < length self.old.left) }
        ensures none { IfNone result (self.new ≡ self.old) }
    {
        let bytes = self.read_slice(2)?;
        Some(u16::from_le_bytes([bytes[0], bytes[1]]))
    }

    /// The next four bytes as a number, the first being the least. None: there are fewer, and the
    /// cursor is unchanged.
    #[inline(always)]
    pub fn read_u32(&mut self) -> Option<u32>
        ensures reads { with_rest result self.new.left ≡ word_at 4 self.old.left }
        ensures all { self.new.all ≡ self.old.all }
        ensures shorter { IfSome result (λ _. length self.new.left < length self.old.left) }
        ensures none { IfNone result (self.new ≡ self.old) }
    {
        let bytes = self.read_slice(4)?;
        Some(u32::from_le_bytes([bytes[0], bytes[1], bytes[2], bytes[3]]))
    }

    /// The next eight bytes as a number, the first being the least. None: there are fewer, and the
    /// cursor is unchanged.
    #[inline(always)]
    pub fn read_u64(&mut self) -> Option<u64>
        ensures reads { with_rest result self.new.left ≡ word_at 8 self.old.left }
        ensures all { self.new.all ≡ self.old.all }
        ensures shorter { IfSome result (λ _. length self.new.left < length self.old.left) }
        ensures none { IfNone result (self.new ≡ self.old) }
    {
        let bytes = self.read_slice(8)?;
        Some(u64::from_le_bytes([
            bytes[0], bytes[1], bytes[2], bytes[3], bytes[4], bytes[5], bytes[6], bytes[7],
        ]))
    }

    /// The next unsigned LEB128 number. None: there is none of at most ten bytes and 64 bits, and the
    /// cursor is unchanged.
    #[inline(always)]
    pub fn read_uleb(&mut self) -> Option<u64>
        ensures reads { with_rest result self.new.left ≡ uleb_at self.old.left }
        ensures all { self.new.all ≡ self.old.all }
        ensures shorter { IfSome result (λ _. length self.new.left < length self.old.left) }
        ensures none { IfNone result (self.new ≡ self.old) }
    {
        let (value, len) = leb128::unsigned(self.rest)?;
        self.skip(len);
        Some(value)
    }

    /// The next signed LEB128 number. None: there is none of at most ten bytes and 64 bits, and the
    /// cursor is unchanged.
    #[inline(always)]
    pub fn read_sleb(&mut self) -> Option<i64>
        ensures reads { with_rest result self.new.left ≡ sleb_at self.old.left }
        ensures all { self.new.all ≡ self.old.all }
        ensures shorter { IfSome result (λ _. length self.new.left < length self.old.left) }
        ensures none { IfNone result (self.new ≡ self.old) }
    {
        let (value, len) = leb128::signed(self.rest)?;
        self.skip(len);
        Some(value)
    }

    /// The next `count` bytes. None: there are fewer, and the cursor is unchanged.
    #[inline(always)]
    pub fn read_slice(&mut self, count: usize) -> Option<&'a [u8]>
        ensures reads { with_rest (option_map (λ bytes. bytes.now) result) self.new.left ≡ slice_at count self.old.left }
        ensures all { self.new.all ≡ self.old.all }
        ensures count { IfSome result (λ bytes. length bytes.now ≡ count) }
        ensures left { IfSome result (λ _. length self.new.left + count ≡ length self.old.left) }
        ensures none { IfNone result (self.new ≡ self.old) }
    {
        let left = self.rest;
        if count > left.len() {
            return None;
        }
        self.rest = &left[count..];
        Some(&left[..count])
    }

    /// The bytes before the next zero byte, which is taken too. None: there is no zero byte, and the
    /// cursor is unchanged.
    #[inline(always)]
    pub fn read_cstr(&mut self) -> Option<&'a [u8]>
        ensures reads { with_rest (option_map (λ bytes. bytes.now) result) self.new.left ≡ cstr_at self.old.left }
        ensures all { self.new.all ≡ self.old.all }
        ensures shorter { IfSome result (λ _. length self.new.left < length self.old.left) }
        ensures none { IfNone result (self.new ≡ self.old) }
    {
        let left = self.rest;
        let end = memchr(0, left)?;
        self.rest = &left[end + 1..];
        Some(&left[..end])
    }

    /// Goes on to the first place divisible by 4 that isn't before this one. None: it lies past the
    /// end, and the cursor is unchanged.
    #[inline(always)]
    pub fn align4(&mut self) -> Option<()>
        ensures reads { with_rest result self.new.left ≡ skip_at (padding (place_of self.old)) self.old.left }
        ensures all { self.new.all ≡ self.old.all }
        ensures none { IfNone result (self.new ≡ self.old) }
    {
        self.read_slice(padding(self.place()))?;
        Some(())
    }

    /// Goes on past the next `count` bytes, which are there.
    #[inline(always)]
    fn skip(&mut self, count: usize)
        requires { count ≤ length self.old.left }
        ensures left { self.new.left ≡ drop count self.old.left }
        ensures all { self.new.all ≡ self.old.all }
    {
        self.rest = &self.rest[count..];
    }
}
