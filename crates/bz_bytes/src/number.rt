//! Little-endian numbers at places of bytes.

ghost use Rattle.std.specs.Prelude.{◌≡◌, ◌+◌, ◌≤◌, length};
ghost use Rattle.bz_bytes.specs.Little.{number_at};

use crate::cursor::Cursor;

/// The number of one byte at a place, which lies in the bytes.
#[inline(always)]
pub fn u8_at(bytes: &[u8], place: usize) -> u8
    requires { place + 1 ≤ length bytes.now }
    ensures { result ≡ number_at 1 bytes.now place }
{
    let mut cursor = Cursor::new(&bytes[place..]);
    cursor.read_u8().unwrap()
}

/// The number of two bytes at a place, which lie in the bytes; the first is the least.
#[inline(always)]
pub fn u16_at(bytes: &[u8], place: usize) -> u16
    requires { place + 2 ≤ length bytes.now }
    ensures { result ≡ number_at 2 bytes.now place }
{
    let mut cursor = Cursor::new(&bytes[place..]);
    cursor.read_u16().unwrap()
}

/// The number of four bytes at a place, which lie in the bytes; the first is the least.
#[inline(always)]
pub fn u32_at(bytes: &[u8], place: usize) -> u32
    requires { place + 4 ≤ length bytes.now }
    ensures { result ≡ number_at 4 bytes.now place }
{
    let mut cursor = Cursor::new(&bytes[place..]);
    cursor.read_u32().unwrap()
}

/// The number of eight bytes at a place, which lie in the bytes; the first is the least.
#[inline(always)]
pub fn u64_at(bytes: &[u8], place: usize) -> u64
    requires { place + 8 ≤ length bytes.now }
    ensures { result ≡ number_at 8 bytes.now place }
{
    let mut cursor = Cursor::new(&bytes[place..]);
    cursor.read_u64().unwrap()
}
