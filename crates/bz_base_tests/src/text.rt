//! Lines, numbers and slashes, of small texts.

ghost use Rattle.std.specs.Prelude.{◌==◌, not};

use bz_base::{
    ByteTest, begins_with_slash, first_line, next_line, padding, read_decimal, read_hex, run_len,
    slash_after, text_before_zero, u8_at, u16_at, u32_at, u64_at, whole_decimal, whole_hex,
};
use std::simd::prelude::*;

/// Whether lines are cut off where they end, and none where nothing ends one.
fn cuts_lines() -> bool {
    next_line(b"ab\n\nc") == Some((b"ab".as_slice(), b"\nc".as_slice()))
        && first_line(b"c") == Some((b"c".as_slice(), b"".as_slice()))
        && next_line(b"c").is_none()
        && first_line(b"").is_none()
}

/// Whether numbers are read from the front of a text.
fn reads_numbers() -> bool {
    read_hex(b"fF 10", 8) == Some((255, b" 10".as_slice()))
        && read_decimal(b"7:", 10, 4294967295) == Some((7, b":".as_slice()))
}

/// Whether a text that is one number gives it, up to the greatest.
fn reads_whole_numbers() -> bool {
    whole_hex(b"ffffffffffffffff", 16) == Some(u64::MAX)
        && whole_hex(b"", 16).is_none()
        && whole_hex(b"00000000000000000", 16).is_none()
        && whole_decimal(b"4294967295", 10, 4294967295) == Some(4294967295)
        && whole_decimal(b"4294967296", 10, 4294967295).is_none()
}

/// Whether numbers stand at places, the least byte first.
fn has_numbers() -> bool {
    u8_at(b"\x01\x02\x03", 2) == 3
        && u16_at(b"\x01\x02\x03", 1) == 0x0302
        && u32_at(b"\x01\x02\x03\x04\x05", 1) == 0x05040302
        && u64_at(b"\x01\x02\x03\x04\x05\x06\x07\x08\x09", 1) == 0x0908070605040302
}

/// Whether a place lies so far before the next one that is divisible by 4.
fn fills_up_to_the_next_place() -> bool {
    padding(0) == 0 && padding(5) == 3 && padding(7) == 1 && padding(8) == 0
}

/// Whether the text before the first zero byte is cut off, and none where there is no zero byte.
fn cuts_at_the_first_zero() -> bool {
    text_before_zero(b"ab\0c\0") == Some(b"ab".as_slice())
        && text_before_zero(b"\0") == Some(b"".as_slice())
        && text_before_zero(b"ab").is_none()
}

/// The test of the bytes of a line.
struct LineBytes;

impl ByteTest for LineBytes {
    ghost passes = { λ b. not (b == 10) };

    fn stops(text: &[u8]) -> u64 {
        u8x32::from_slice(text)
            .simd_eq(u8x32::splat(b'\n'))
            .to_bitmask()
    }
}

/// Whether bytes of a line are counted, 32 at a time, up to where it ends.
fn counts_bytes_of_lines() -> bool {
    run_len::<LineBytes>(b"012345678901234567890123456789012\n456789012345678901234567890123") == 33
        && run_len::<LineBytes>(b"012345678901234567890123456789012\n45678901234567890123456789012")
            == 32
        && run_len::<LineBytes>(b"01\n3456789012345678901234567890123") == 2
        && run_len::<LineBytes>(b"01\n") == 0
}

/// Whether a path tells of the slash in front of it, and of the one that is missing behind it.
fn tells_of_slashes() -> bool {
    begins_with_slash("/a")
        && !begins_with_slash("a/")
        && !begins_with_slash("")
        && slash_after("a") == "/"
        && slash_after("a/") == ""
        && slash_after("") == ""
}

#[test]
fn cuts_lines_and_reads_numbers(rt: HostRuntime) {
    assert!(rt; cuts_lines(), "lines");
    assert!(rt; reads_numbers(), "numbers");
    assert!(rt; reads_whole_numbers(), "whole numbers");
    assert!(rt; has_numbers(), "numbers at places");
}

#[test]
fn tells_of_fillings_ends_and_slashes(rt: HostRuntime) {
    assert!(rt; fills_up_to_the_next_place(), "a filling");
    assert!(rt; cuts_at_the_first_zero(), "a zero byte");
    assert!(rt; counts_bytes_of_lines(), "bytes of lines");
    assert!(rt; tells_of_slashes(), "slashes");
}
