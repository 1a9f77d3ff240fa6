//! The address table in a file's bytes, and the search among its starts.

ghost use Rattle.std.specs.Prelude.{◌≡◌, ◌+◌, ◌*◌, ◌<◌, ◌≤◌, true, false, ℕ, List, Some, None, length};
ghost use Rattle.bz_base.specs.Little.{number_at};
ghost use Rattle.bz_base.specs.Starts.{IsFound, NeverDescends};
ghost use Rattle.bz_gsym.specs.Header.{header_of};
ghost use Rattle.bz_gsym.specs.Tables.{AreStarts, header_len, is_address_size, addresses_end, starts};

use crate::format::HEADER_LEN;
use crate::types::Header;
use bz_base::{Probe, Steps, nearest, u8_at, u16_at, u32_at, u64_at};
use std::marker::{Brand, Model};
use std::sync::ledger::{Blank, Ledger};

/// Whether an entry of the address table may have this size, in bytes.
pub(crate) fn is_address_size(size: u8) -> bool
    ensures { result ≡ is_address_size size }
{
    size == 1 || size == 2 || size == 4 || size == 8
}

/// The start of an index, relative to the base address.
#[inline(always)]
pub(crate) fn start_at(bytes: &[u8], size: u8, index: usize) -> u64
    requires size { is_address_size size ≡ true }
    requires within { header_len + (index + 1) * size ≤ length bytes.now }
    ensures { result ≡ number_at size bytes.now (header_len + index * size) }
{
    match size {
        1 => u64::from(u8_at(bytes, HEADER_LEN + index)),
        2 => u64::from(u16_at(bytes, HEADER_LEN + index * 2)),
        4 => u64::from(u32_at(bytes, HEADER_LEN + index * 4)),
        _ => u64_at(bytes, HEADER_LEN + index * 8),
    }
}

/// Whether no start is below the one before it.
pub(crate) fn starts_ascend(bytes: &[u8], header: &Header) -> bool
    requires head { header.now ≡ header_of bytes.now }
    requires within { addresses_end header.now ≤ length bytes.now }
    ensures ascend { result ≡ true → NeverDescends (starts bytes.now) }
    ensures descend { result ≡ false → ¬ (NeverDescends (starts bytes.now)) }
{
    if !is_address_size(header.addr_off_size) {
        return true;
    }
    let mut last = 0;
    for index in 0..header.num_addrs as usize {
        let start = start_at(bytes, header.addr_off_size, index);
        if start < last {
            return false;
        }
        last = start;
    }
    true
}

/// The starts of an address table.
#[derive(Drop)]
struct AddressStarts<'a> {
    bytes: &'a [u8],
    size: u8,
    count: usize,
}

impl<'a> Model for AddressStarts<'a> {
    ghost use Rattle.std.specs.Prelude.{ℕ, List};
    ghost use Rattle.bz_base.specs.Little.{numbers_at};
    ghost use Rattle.bz_gsym.specs.Tables.{AreStarts, header_len};

    ghost Value = { List ℕ };

    ghost view = { λ s. numbers_at s.size s.count s.bytes.now header_len };

    ghost invariant = { λ s. AreStarts s.bytes.now s.size s.count };
}

impl<'a> Probe for AddressStarts<'a> {
    ghost starts = { λ s. s };

    fn len(&self) -> usize {
        self.count
    }

    fn probe<L: Ledger>(&self, i: usize, steps: &mut Steps<L>) -> u64 {
        steps.tick();
        start_at(self.bytes, self.size, i)
    }
}

/// Index and start of the symbol that is to be tried at a distance from the base address.
pub(crate) fn find_start(bytes: &[u8], header: &Header, distance: u64) -> Option<(usize, u64)>
    requires head { header.now ≡ header_of bytes.now }
    requires starts { AreStarts bytes.now header.now.addr_off_size header.now.num_addrs }
    ensures { IsFound (starts bytes.now) distance result }
{
    find_blank::<Brand>(bytes, header, distance, Blank::new(1))
}

// The same, with a count that nobody reads.
fn find_blank<L: Ledger>(
    bytes: &[u8],
    header: &Header,
    distance: u64,
    blank: Blank,
) -> Option<(usize, u64)>
    requires name { blank.name ≡ L.name }
    requires parts { blank.parts ≡ L.parts }
    requires positive { 0 < L.parts }
    requires head { header.now ≡ header_of bytes.now }
    requires starts { AreStarts bytes.now header.now.addr_off_size header.now.num_addrs }
    ensures { IsFound (starts bytes.now) distance result }
{
    let mut steps = Steps::<L>::new(blank);
    let starts = AddressStarts {
        bytes,
        size: header.addr_off_size,
        count: header.num_addrs as usize,
    };
    nearest(&starts, distance, &mut steps)
}
