//! The texts of starts, by which line records are told to stand in order.

ghost use Rattle.std.specs.Prelude.{◌≡◌, ◌<◌, ◌≤◌, true, ℕ, length, take, IfSome};
ghost use Rattle.std.specs.Str.Parse.{digits_value};
ghost use Rattle.bz_base.specs.Number.{digits_len};
ghost use Rattle.bz_breakpad_lines.specs.LineStarts.{IsStartText};

/// The text of a start: one to eight hexadecimal digits.
#[derive(Clone, Copy)]
pub struct StartText {
    /// How many digits there are.
    pub digits: u32,
    /// Their bytes as a number, the first one its greatest, with letters in lower case.
    pub key: u64,
}

impl StartText {
    /// The text of so many digits at the front, if there aren't too many.
    #[inline(always)]
    pub(crate) fn at_front(text: &[u8], digits: u32) -> Option<StartText>
        requires room { 8 ≤ length text.now }
        requires positive { 0 < digits }
        requires digits { digits_len 16 text.now ≡ digits }
        ensures { IfSome result (IsStartText (digits_value 16 (take digits text.now))) }
    {
        if digits > 8 {
            None
        } else {
            Some(StartText::of_front(text, digits))
        }
    }

    /// The text of so many digits at the front.
    #[inline(always)]
    pub(crate) fn of_front(text: &[u8], digits: u32) -> StartText
        requires room { 8 ≤ length text.now }
        requires positive { 0 < digits }
        requires few { digits ≤ 8 }
        requires digits { digits_len 16 text.now ≡ digits }
        ensures text { IsStartText (digits_value 16 (take digits text.now)) result }
        ensures digits { result.digits ≡ digits }
    {
        let bytes = u64::from_be_bytes([
            text[0], text[1], text[2], text[3], text[4], text[5], text[6], text[7],
        ]);
        let folded = bytes | 0x2020_2020_2020_2020;
        StartText {
            digits,
            key: folded >> (64 - 8 * digits),
        }
    }

    /// Whether the start is seen to be below another one: of texts of as many digits, the greater
    /// start has the greater bytes.
    #[inline(always)]
    pub fn is_below(self, other: StartText) -> bool
        ensures { result ≡ true → (start other_start : ℕ) → IsStartText start self → IsStartText other_start other → start < other_start }
    {
        self.digits == other.digits && self.key < other.key
    }
}
