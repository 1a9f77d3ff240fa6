//! Whether parts lie in a file's bytes.

ghost use Rattle.std.specs.Prelude.{◌≡◌};
ghost use Rattle.bz_elf.specs.Parts.{lies};

/// Whether so many bytes from a place on lie in the bytes.
pub(crate) fn lies(bytes: &[u8], place: u64, size: u64) -> bool
    ensures { result ≡ lies bytes.now place size }
{
    match place.checked_add(size) {
        Some(end) => end <= bytes.len() as u64,
        None => false,
    }
}
