//! The search among line records at places in a file's bytes.

ghost use Rattle.std.specs.Prelude.{◌≡◌, ◌<◌, ℕ, Some, List, option_map};
ghost use Rattle.bz_base.specs.Nearest.{IsTable, if_covers, nearest_covering};
ghost use Rattle.bz_breakpad_lines.specs.LineStarts.{ReadsLine, line_read, line_starts};
ghost use Rattle.bz_breakpad_lines.specs.Table as tables;
ghost use Rattle.bz_breakpad_lines.specs.Told.{line_seen};
ghost use Rattle.bz_breakpad_table.specs.Kept.{AreSearchable, kept_lines};

use bz_base::{Addr, Probe, Steps, covers, nearest};
use bz_breakpad_lines::{SourceLine, line_record_at, start_at};
use std::marker::Model;
use std::sync::ledger::{Blank, Ledger};

/// The starts of the line records at places in the bytes.
#[derive(Drop)]
struct LineStarts<'a> {
    bytes: &'a [u8],
    places: &'a [usize],
}

impl<'a> Model for LineStarts<'a> {
    ghost use Rattle.std.specs.Prelude.{ℕ, List};
    ghost use Rattle.bz_breakpad_lines.specs.LineStarts.{line_starts};
    ghost use Rattle.bz_breakpad_table.specs.Kept.{AreSearchable};

    ghost Value = { List ℕ };

    ghost view = { λ s. line_starts s.bytes.now s.places.now };

    ghost invariant = { λ s. AreSearchable s.bytes.now s.places.now };
}

impl<'a> Probe for LineStarts<'a> {
    ghost starts = { λ s. s };

    fn len(&self) -> usize {
        self.places.len()
    }

    fn probe<L: Ledger>(&self, i: usize, steps: &mut Steps<L>) -> u64 {
        steps.tick();
        start_at(self.bytes, self.places[i])
    }
}

/// The line record that answers for the address, of those at places in order. Its probes are counted in
/// the blank, which nobody reads.
pub(crate) fn line_covering<L: Ledger>(
    bytes: &[u8],
    places: &[usize],
    addr: Addr,
    blank: Blank,
) -> Option<SourceLine>
    requires name { blank.name ≡ L.name }
    requires parts { blank.parts ≡ L.parts }
    requires positive { 0 < L.parts }
    requires searchable { AreSearchable bytes.now places.now }
    ensures { (lines : List tables.SourceLine) → IsTable (λ l. l.start) (λ l. l.size) lines (kept_lines bytes.now places.now) →
        option_map line_seen result ≡ nearest_covering (λ l. l.start) (λ l. l.size) addr lines }
{
    let mut steps = Steps::<L>::new(blank);
    let starts = LineStarts { bytes, places };
    let (index, _) = nearest(&starts, addr, &mut steps)?;
    line_if_covers(bytes, places[index], addr)
}

/// The line record at a place, if it covers the address.
pub(crate) fn line_if_covers(bytes: &[u8], place: usize, addr: Addr) -> Option<SourceLine>
    requires { ReadsLine bytes.now place }
    ensures { option_map line_seen result ≡ if_covers (λ l. l.start) (λ l. l.size) addr (line_read bytes.now place) }
{
    let line = line_record_at(bytes, place)?;
    if covers(line.addr, u64::from(line.size), addr) {
        Some(line)
    } else {
        None
    }
}
