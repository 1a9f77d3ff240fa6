//! Addresses, one on each line.

ghost use Rattle.std.specs.Prelude.{◌≡◌, ℕ, map, option_map, IfOk};
ghost use Rattle.bz_requests.specs.Addresses.{address_in, each_address_in};

use crate::lines::FromLine;
use bz_base::whole_hex;
use std::alloc::{AllocError, Global};

/// The address that the whole text spells: `0x` or nothing, then 1 to 16 hexadecimal digits in
/// either case.
pub fn address(text: &[u8]) -> Option<u64>
    ensures reads { result ≡ address_in text.now }
{
    let digits = if text.starts_with(b"0x") {
        &text[2..]
    } else {
        text
    };
    whole_hex(digits, 16)
}

/// The addresses that texts spell, if each of them spells one.
pub fn each_address(alloc: Global, texts: &[&[u8]]) -> Result<Option<Vec<u64>>, AllocError>
    ensures { IfOk result (λ addrs. option_map (λ all. all.items) addrs ≡ each_address_in (map (λ text. text.now) texts.now)) }
{
    let mut all = Vec::with_capacity(alloc, texts.len())?;
    for text in texts {
        let Some(addr) = address(text) else {
            return Ok(None);
        };
        all.push(addr)?;
    }
    Ok(Some(all))
}

impl FromLine for u64 {
    ghost Data = { ℕ };

    ghost data_of = { λ addr. addr };

    ghost reads = { address_in };

    fn from_line(_alloc: Global, content: &[u8]) -> Result<Option<u64>, AllocError> {
        Ok(address(content))
    }
}
