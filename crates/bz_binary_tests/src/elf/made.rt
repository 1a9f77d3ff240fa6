//! Files with symbols and strings of their own, made of the example.

use bz_samples::{ELF_FUNCTION, write};
use std::alloc::{AllocError, Global};

/// The example with these symbols and strings at its end, in place of its own.
pub(crate) fn with_symbols(
    alloc: Global,
    symbols: &[u8],
    strings: &[u8],
) -> Result<Vec<u8>, AllocError> {
    let mut bytes = Vec::from_slice(alloc, &ELF_FUNCTION)?;
    // Place and size of the symbols, and of the strings behind them.
    let size = symbols.len() as u64;
    write(&mut bytes, 264, &368u64.to_le_bytes());
    write(&mut bytes, 272, &size.to_le_bytes());
    write(&mut bytes, 328, &(368 + size).to_le_bytes());
    write(&mut bytes, 336, &(strings.len() as u64).to_le_bytes());
    bytes.extend_from_slice(symbols)?;
    bytes.extend_from_slice(strings)?;
    Ok(bytes)
}
