//! Walks of functions in their order.

use bz_base::{Error, SymType};
use bz_breakpad::{FindAddrOpts, Inspect, SymInfo};

/// Whether a walk that ends at a name meets these symbols of a kind, in this order, and ends so.
pub(crate) fn is_walk<T: Inspect>(
    table: &T,
    sym_type: SymType,
    last: &str,
    expected: &[SymInfo<'_>],
    end: Result<(), Error>,
) -> bool {
    let mut met = 0usize;
    let mut in_order = true;
    let walked = table.for_each(&FindAddrOpts { sym_type }, |info| {
        in_order = in_order && expected.get(met) == Some(info);
        met = met.saturating_add(1);
        info.name != last
    });
    walked == end && in_order && met == expected.len()
}
