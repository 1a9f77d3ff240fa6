//! Which mapping answers for an address.

use bz_base::{Error, Pid};
use bz_proc::{Mappings, owner, parse_maps};
use bz_samples::THREE_MAPPINGS;
use std::alloc::Global;

/// Mappings in no order, that overlap, hold one another, repeat, or are empty.
const MIXED: &[u8] =
    b"30-40 r--p 0 0:0 0\n10-20 r--p 0 0:0 0\n35-60 r--p 0 0:0 0\n50-58 r--p 0 0:0 0\n70-70 r--p 0 0:0 0\n70-90 r--p 0 0:0 0\n70-90 r--p 0 0:0 0\nfffffffffffffff0-ffffffffffffffff r--p 0 0:0 0\n";

/// Texts, addresses, and the place of the mapping that answers for each, or none.
static OWNERS: [(&[u8], u64, Option<usize>); 29] = [
    (b"", 0, None),
    (b"", u64::MAX, None),
    (THREE_MAPPINGS, 0, None),
    (THREE_MAPPINGS, 0xfff, None),
    (THREE_MAPPINGS, 0x1000, Some(0)),
    (THREE_MAPPINGS, 0x1fff, Some(0)),
    (THREE_MAPPINGS, 0x2000, None),
    (THREE_MAPPINGS, 0x2fff, None),
    (THREE_MAPPINGS, 0x3000, Some(1)),
    (THREE_MAPPINGS, 0x4000, None),
    (THREE_MAPPINGS, 0x5000, Some(2)),
    (THREE_MAPPINGS, 0x5fff, Some(2)),
    (THREE_MAPPINGS, 0x6000, None),
    (THREE_MAPPINGS, u64::MAX, None),
    // The first mapping ends above these, and begins above them too.
    (MIXED, 0x15, None),
    (MIXED, 0x2f, None),
    (MIXED, 0x30, Some(0)),
    (MIXED, 0x3f, Some(0)),
    (MIXED, 0x40, Some(2)),
    // The mapping within the third one never answers.
    (MIXED, 0x50, Some(2)),
    (MIXED, 0x5f, Some(2)),
    (MIXED, 0x60, None),
    // Nor does the empty one, nor the one that repeats another.
    (MIXED, 0x6f, None),
    (MIXED, 0x70, Some(5)),
    (MIXED, 0x8f, Some(5)),
    (MIXED, 0x90, None),
    (MIXED, 0xfffffffffffffff0, Some(7)),
    (MIXED, 0xfffffffffffffffe, Some(7)),
    (MIXED, u64::MAX, None),
];

/// Whether the mapping that is found begins and ends where the one at the place does.
fn finds_it(mappings: &Mappings, addr: u64, place: Option<usize>) -> bool {
    match (mappings.owner_entry(addr), place) {
        (Some(entry), Some(place)) => match mappings.entries().get(place) {
            Some(want) => {
                entry.range.start == want.range.start && entry.range.end == want.range.end
            }
            None => false,
        },
        (None, None) => true,
        _ => false,
    }
}

/// Whether the mapping at this place of a text answers for an address, by both ways.
fn is_owner(alloc: Global, text: &[u8], addr: u64, place: Option<usize>) -> Result<bool, Error> {
    let entries = parse_maps(alloc, Pid::Slf, text)?;
    let by_scan = owner(entries.as_slice(), addr);
    let mappings = Mappings::new(alloc, entries)?;
    Ok(
        by_scan == place
            && mappings.owner(addr) == place
            && mappings.is_empty() == text.is_empty()
            && finds_it(&mappings, addr, place),
    )
}

#[test]
fn the_first_mapping_that_ends_above_answers_or_none_does(rt: HostRuntime) {
    let owners = &OWNERS;
    for index in 0..owners.len() {
        let (text, addr, place) = owners[index];
        assert!(rt;
            is_owner(rt.alloc(), text, addr, place) == Ok(true),
            "row {index}"
        );
    }
}
