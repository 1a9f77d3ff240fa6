//! Texts that a zero byte ends.

ghost use Rattle.std.specs.Prelude.{◌≡◌, option_map};
ghost use Rattle.bz_bytes.specs.ZeroEnded.{zero_ended};

use crate::cursor::Cursor;

/// The bytes before the first zero byte. None: there is no zero byte.
pub fn text_before_zero(bytes: &[u8]) -> Option<&[u8]>
    ensures { option_map (λ text. text.now) result ≡ zero_ended bytes.now }
{
    let mut cursor = Cursor::new(bytes);
    cursor.read_cstr()
}
