//! Runs of bytes at the front of a text, sought 32 bytes at a time.

ghost use Rattle.std.specs.Prelude.{◌≡◌, ℕ, ◌≤◌, Bool, not, length, map, take};
ghost use Rattle.std.specs.List.{prefix_len};
ghost use lib.Lanes.{mask_l};

/// A test of bytes, of which 32 are tested at a time.
pub trait ByteTest {
    /// Whether a byte passes.
    ghost passes: { ℕ → Bool };

    /// The bits of the first 32 bytes that don't pass; bit 0 is that of the first byte.
    fn stops(text: &[u8]) -> u64
        requires { 32 ≤ length text.now }
        ensures { result ≡ mask_l (map (λ b. not (passes b)) (take 32 text.now)) };
}

/// So many bytes in front pass the test. There may be more.
#[inline(always)]
pub fn run_len<T: ByteTest>(text: &[u8]) -> usize
    ensures passes { result ≤ prefix_len T.passes text.now }
    ensures within { result ≤ length text.now }
{
    let mut len = 0;
    while text.len() - len >= 32 {
        let stops = T::stops(&text[len..]);
        if stops != 0 {
            return len + stops.trailing_zeros() as usize;
        }
        len += 32;
    }
    len
}
