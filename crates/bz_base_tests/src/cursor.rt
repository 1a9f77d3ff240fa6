//! Pieces of bytes.

use bz_base::Cursor;

/// Bytes, with the unsigned number in front of them, if there is one. The first five are the DWARF
/// standard's own.
static UNSIGNED: [(&[u8], Option<u64>); 14] = [
    (b"\x02", Some(2)),
    (b"\x7f", Some(127)),
    (b"\x80\x01", Some(128)),
    (b"\x81\x01", Some(129)),
    (b"\xb9\x64", Some(12857)),
    (b"\x80\x80\x00", Some(0)),
    (
        b"\xff\xff\xff\xff\xff\xff\xff\xff\x7f",
        Some(9223372036854775807),
    ),
    (
        b"\xff\xff\xff\xff\xff\xff\xff\xff\xff\x01",
        Some(18446744073709551615),
    ),
    (b"\x80\x80\x80\x80\x80\x80\x80\x80\x80\x00", Some(0)),
    (b"\x80\x80\x80\x80\x80\x80\x80\x80\x80\x02", None),
    (b"\xff\xff\xff\xff\xff\xff\xff\xff\xff\x7f", None),
    (b"\x80\x80\x80\x80\x80\x80\x80\x80\x80\x80\x00", None),
    (b"\x80", None),
    (b"", None),
];

/// Bytes, with the signed number in front of them, if there is one. The first eight are the DWARF
/// standard's own.
static SIGNED: [(&[u8], Option<i64>); 18] = [
    (b"\x02", Some(2)),
    (b"\x7e", Some(-2)),
    (b"\xff\x00", Some(127)),
    (b"\x81\x7f", Some(-127)),
    (b"\x80\x01", Some(128)),
    (b"\x80\x7f", Some(-128)),
    (b"\x81\x01", Some(129)),
    (b"\xff\x7e", Some(-129)),
    (b"\x80\x80\x00", Some(0)),
    (
        b"\xff\xff\xff\xff\xff\xff\xff\xff\x3f",
        Some(4611686018427387903),
    ),
    (
        b"\x80\x80\x80\x80\x80\x80\x80\x80\x40",
        Some(-4611686018427387904),
    ),
    (
        b"\xff\xff\xff\xff\xff\xff\xff\xff\xff\x00",
        Some(9223372036854775807),
    ),
    (
        b"\x80\x80\x80\x80\x80\x80\x80\x80\x80\x7f",
        Some(-9223372036854775808),
    ),
    (b"\xff\xff\xff\xff\xff\xff\xff\xff\xff\x7f", Some(-1)),
    (b"\x80\x80\x80\x80\x80\x80\x80\x80\x80\x01", None),
    (b"\xff\xff\xff\xff\xff\xff\xff\xff\xff\x7e", None),
    (b"\xff\xff\xff\xff\xff\xff\xff\xff\xff\xff\x00", None),
    (b"\xff", None),
];

/// Whether an unsigned number is in front of the bytes and takes all of them, or there is none.
fn unsigned_is_read(bytes: &[u8], want: Option<u64>) -> bool {
    let mut cursor = Cursor::new(bytes);
    cursor.read_uleb() == want && (want.is_none() || cursor.rest().is_empty())
}

/// Whether a signed number is in front of the bytes and takes all of them, or there is none.
fn signed_is_read(bytes: &[u8], want: Option<i64>) -> bool {
    let mut cursor = Cursor::new(bytes);
    cursor.read_sleb() == want && (want.is_none() || cursor.rest().is_empty())
}

/// Whether the numbers at the start are read in turn.
fn reads_numbers(cursor: &mut Cursor<'_>) -> bool {
    cursor.read_u8() == Some(1)
        && cursor.read_u16() == Some(0x0302)
        && cursor.read_u32() == Some(0x07060504)
        && cursor.place() == 7
}

/// Whether the next place divisible by 4 is gone to, and then stayed at.
fn aligns(cursor: &mut Cursor<'_>) -> bool {
    cursor.align4().is_some()
        && cursor.place() == 8
        && cursor.align4().is_some()
        && cursor.place() == 8
}

/// Whether a text is read behind a long number, and nothing that isn't there.
fn reads_text(cursor: &mut Cursor<'_>) -> bool {
    cursor.read_u64().is_some()
        && cursor.place() == 16
        && cursor.read_cstr() == Some(b"b".as_slice())
        && cursor.place() == 18
        && cursor.read_cstr().is_none()
        && cursor.read_u32().is_none()
}

/// Whether the last two bytes are read, and nothing after them.
fn reads_rest(cursor: &mut Cursor<'_>) -> bool {
    cursor.read_slice(3).is_none()
        && cursor.rest() == b"cd".as_slice()
        && cursor.read_slice(2) == Some(b"cd".as_slice())
        && cursor.read_u8().is_none()
}

#[test]
fn reads_leb128_of_up_to_ten_bytes_or_none(rt: HostRuntime) {
    let unsigned = &UNSIGNED;
    for index in 0..unsigned.len() {
        let (bytes, want) = unsigned[index];
        assert!(rt; unsigned_is_read(bytes, want), "unsigned {index}");
    }
    let signed = &SIGNED;
    for index in 0..signed.len() {
        let (bytes, want) = signed[index];
        assert!(rt; signed_is_read(bytes, want), "signed {index}");
    }
}

#[test]
fn reads_numbers_and_pieces_in_turn(rt: HostRuntime) {
    let mut cursor = Cursor::new(
        b"\x01\x02\x03\x04\x05\x06\x07\x08\x09\x0a\x0b\x0c\x0d\x0e\x0f\x10b\0cd",
    );
    assert!(rt; reads_numbers(&mut cursor), "numbers");
    assert!(rt; aligns(&mut cursor), "a step to the next multiple of 4");
    assert!(rt; reads_text(&mut cursor), "a text");
    assert!(rt; reads_rest(&mut cursor), "the rest");
}
