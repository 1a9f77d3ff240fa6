//! Whether a record covers an address.

ghost use Rattle.std.specs.Prelude.{◌≡◌};
ghost use Rattle.bz_search.specs.Span.{covers, inside};

/// An address, or an offset in a file. What it is relative to is said where it is given.
pub type Addr = u64;

/// Whether a record with this start and size (in bytes) covers the address. A record of size 0
/// covers its start alone, and one whose end doesn't fit 64 bits covers nothing.
pub fn covers(start: u64, size: u64, addr: u64) -> bool
    ensures { result ≡ covers start size addr }
{
    (size == 0 && addr == start) || inside(start, size, addr)
}

/// Whether a record with this start and size (in bytes) has the address inside. One whose end
/// doesn't fit 64 bits has nothing inside.
pub fn inside(start: u64, size: u64, addr: u64) -> bool
    ensures { result ≡ inside start size addr }
{
    match start.checked_add(size) {
        Some(end) => start <= addr && addr < end,
        None => false,
    }
}
