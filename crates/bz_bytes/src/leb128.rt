//! LEB128 numbers at the front of bytes.

ghost use Rattle.std.specs.Prelude.{◌≡◌, ◌<◌, ◌≤◌, length, drop, option_map, IfNone, IfSome};
ghost use Rattle.bz_bytes.specs.Leb128.{HasNoNumber, IsInParts, sleb_at, uleb_at};

/// A LEB128 number in parts.
#[derive(Drop)]
struct Parts {
    /// The bits of the bytes before the last one.
    low: u64,
    /// What the last byte weighs.
    weight: u64,
    /// The last byte.
    last: u8,
    /// How many bytes the number has.
    len: usize,
}

/// The unsigned number at the front of the bytes, and how many bytes it has.
#[inline(always)]
pub(crate) fn unsigned(bytes: &[u8]) -> Option<(u64, usize)>
    ensures reads { option_map (λ read. (read.0, drop read.1 bytes.now)) result ≡ uleb_at bytes.now }
    ensures within { IfSome result (λ read. read.1 ≤ length bytes.now) }
    ensures some { IfSome result (λ read. 0 < read.1) }
{
    // Most numbers have one byte.
    if bytes.len() > 0 && bytes[0] < 128 {
        return Some((u64::from(bytes[0]), 1));
    }
    long_unsigned(bytes)
}

/// The signed number at the front of the bytes, and how many bytes it has.
#[inline(always)]
pub(crate) fn signed(bytes: &[u8]) -> Option<(i64, usize)>
    ensures reads { option_map (λ read. (read.0, drop read.1 bytes.now)) result ≡ sleb_at bytes.now }
    ensures within { IfSome result (λ read. read.1 ≤ length bytes.now) }
    ensures some { IfSome result (λ read. 0 < read.1) }
{
    // Most numbers have one byte.
    if bytes.len() > 0 && bytes[0] < 128 {
        let bits = i64::from(bytes[0]);
        if bits < 64 {
            return Some((bits, 1));
        }
        return Some((bits - 128, 1));
    }
    long_signed(bytes)
}

/// The unsigned number at the front of the bytes, and how many bytes it has.
fn long_unsigned(bytes: &[u8]) -> Option<(u64, usize)>
    ensures reads { option_map (λ read. (read.0, drop read.1 bytes.now)) result ≡ uleb_at bytes.now }
    ensures within { IfSome result (λ read. read.1 ≤ length bytes.now) }
    ensures some { IfSome result (λ read. 0 < read.1) }
{
    let parts = take_apart(bytes)?;
    if parts.len == 10 && parts.last > 1 {
        return None;
    }
    Some((parts.low + parts.weight * u64::from(parts.last), parts.len))
}

/// The signed number at the front of the bytes, and how many bytes it has.
fn long_signed(bytes: &[u8]) -> Option<(i64, usize)>
    ensures reads { option_map (λ read. (read.0, drop read.1 bytes.now)) result ≡ sleb_at bytes.now }
    ensures within { IfSome result (λ read. read.1 ≤ length bytes.now) }
    ensures some { IfSome result (λ read. 0 < read.1) }
{
    let parts = take_apart(bytes)?;
    let last = u64::from(parts.last);
    if last < 64 {
        if parts.len == 10 && last != 0 {
            return None;
        }
        return Some(((parts.low + parts.weight * last) as i64, parts.len));
    }
    if parts.len == 10 && last != 127 {
        return None;
    }
    // The number is negative: it lies this far below 0.
    let below = parts.weight * (128 - last) - parts.low;
    Some((-1 - (below - 1) as i64, parts.len))
}

/// The parts of the number at the front of the bytes. None: no byte ends it, or it has more than ten.
fn take_apart(bytes: &[u8]) -> Option<Parts>
    ensures parts { IfSome result (λ p. IsInParts bytes.now p.low p.weight p.last p.len) }
    ensures none { IfNone result (HasNoNumber bytes.now) }
{
    let mut low: u64 = 0;
    let mut weight: u64 = 1;
    let mut len = 0;
    for byte in bytes {
        let byte = *byte;
        if byte < 128 {
            return Some(Parts {
                low,
                weight,
                last: byte,
                len: len + 1,
            });
        }
        if len == 9 {
            return None;
        }
        low += weight * u64::from(byte % 128);
        weight *= 128;
        len += 1;
    }
    None
}
