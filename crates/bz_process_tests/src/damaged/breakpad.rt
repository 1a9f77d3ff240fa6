//! Breakpad texts that are cut.

use bz_base::Error;
use bz_breakpad::SymbolFile;
use bz_samples::BREAKPAD_KINDS;
use std::alloc::Global;

/// Whether the text is taken as is expected, or else refused as no Breakpad file.
fn is_taken_as(alloc: Global, text: &[u8], expected: bool) -> bool {
    let Ok(bytes) = Vec::from_slice(alloc, text) else {
        return false;
    };
    match SymbolFile::from_bytes(alloc, bytes) {
        Ok(_) => expected,
        Err(error) => !expected && error == Error::InvalidInput,
    }
}

#[test]
fn cut_texts_are_taken_where_their_last_line_ends(rt: HostRuntime) {
    for len in 0..BREAKPAD_KINDS.len() {
        let front = &BREAKPAD_KINDS[..len];
        assert!(rt;
            is_taken_as(rt.alloc(), front, front.ends_with(b"\n")),
            "{len} bytes"
        );
    }
}
