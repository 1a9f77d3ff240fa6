//! The quick way to read a record, by loads of many bytes. It must have single spaces, and a text
//! in ASCII if it has one. Its numbers have at most eight digits, but a line record may start at
//! one of sixteen. Nearly all records are so. Where a quick function gives None, that tells nothing
//! of the text: it is read the general way.

ghost use Rattle.std.specs.Prelude.{◌≡◌, ◌<◌, ◌≤◌, ◌+◌, true, length, drop, IfSome, slice_index};
ghost use Rattle.bz_base.specs.Byte.{space};
ghost use Rattle.bz_base.specs.Number.{digits_len};
ghost use Rattle.bz_breakpad_lines.specs.Stops.{AreDigits, AreStops, number_between};

use crate::lanes::Stops;
use crate::values::{dec_front, hex_front};

/// A text, and what one load shows of its front.
#[derive(Clone, Copy)]
pub struct Shown<'a> {
    /// The text.
    pub text: &'a [u8],
    /// What is shown.
    pub stops: Stops,
}

impl<'a> Shown<'a> {
    /// The text with what a load shows of its first 64 bytes. None if it hasn't the eight bytes
    /// more that a number at the last of them may take.
    #[inline(always)]
    pub(crate) fn at_front(text: &'a [u8]) -> Option<Shown<'a>>
        ensures text { IfSome result (λ shown. shown.text.now ≡ text.now) }
        ensures room { IfSome result (λ shown. 72 ≤ length text.now) }
        ensures stops { IfSome result (λ shown. AreStops text.now shown.stops) }
    {
        if text.len() < 72 {
            return None;
        }
        Some(Shown {
            text,
            stops: Stops::at_front(text),
        })
    }

    /// The same of its first 32 bytes, for a line record. None if there aren't eight bytes more.
    #[inline(always)]
    pub(crate) fn of_line(text: &'a [u8]) -> Option<Shown<'a>>
        ensures text { IfSome result (λ shown. shown.text.now ≡ text.now) }
        ensures room { IfSome result (λ shown. 40 ≤ length text.now) }
        ensures stops { IfSome result (λ shown. AreStops text.now shown.stops) }
    {
        if text.len() < 40 {
            return None;
        }
        Some(Shown {
            text,
            stops: Stops::of_line(text),
        })
    }

    /// The text after so many bytes, and what is left of what was shown.
    #[inline(always)]
    pub(crate) fn after(self, len: u32) -> Shown<'a>
        requires stops { AreStops self.text.now self.stops }
        requires few { len < 64 }
        requires within { len ≤ length self.text.now }
        ensures text { result.text.now ≡ drop len self.entry.text.now }
        ensures stops { AreStops result.text.now result.stops }
    {
        Shown {
            text: &self.text[len as usize..],
            stops: self.stops.after(len as usize),
        }
    }

    /// True only where so many hexadecimal digits stand at the front, and a shown byte ends them.
    #[inline(always)]
    pub(crate) fn has_hex(self, digits: u32) -> bool
        requires stops { AreStops self.text.now self.stops }
        requires few { digits < 64 }
        ensures { result ≡ true → (digits < length self.entry.text.now) × (digits_len 16 self.entry.text.now ≡ digits) }
    {
        self.stops.hex.trailing_zeros() == digits
    }

    /// Where the one to `most` hexadecimal digits from a place on end, if a shown byte ends them.
    #[inline(always)]
    pub(crate) fn hex_end(self, from: u32, most: u32) -> Option<u32>
        requires stops { AreStops self.text.now self.stops }
        requires within { from < 64 }
        requires few { most < 64 }
        ensures { IfSome result (AreDigits 16 most self.entry.text.now from) }
    {
        let count = (self.stops.hex >> from).trailing_zeros();
        if count == 0 || count > most {
            None
        } else {
            Some(from + count)
        }
    }

    /// Where the one to eight decimal digits from a place on end, if a shown byte ends them.
    #[inline(always)]
    pub(crate) fn dec_end(self, from: u32) -> Option<u32>
        requires stops { AreStops self.text.now self.stops }
        requires within { from < 64 }
        ensures { IfSome result (AreDigits 10 8 self.entry.text.now from) }
    {
        let count = (self.stops.dec >> from).trailing_zeros();
        if count == 0 || count > 8 {
            None
        } else {
            Some(from + count)
        }
    }

    /// Where the hexadecimal digits end that stand after a single space at a place.
    #[inline(always)]
    pub(crate) fn hex_after(self, at: u32) -> Option<u32>
        requires stops { AreStops self.text.now self.stops }
        requires few { at < 63 }
        requires within { at < length self.text.now }
        ensures space { IfSome result (λ end. slice_index self.entry.text.now at ≡ space) }
        ensures digits { IfSome result (AreDigits 16 8 self.entry.text.now (at + 1)) }
    {
        if self.text[at as usize] != b' ' {
            return None;
        }
        self.hex_end(at + 1, 8)
    }

    /// Where the decimal digits end that stand after a single space at a place.
    #[inline(always)]
    pub(crate) fn dec_after(self, at: u32) -> Option<u32>
        requires stops { AreStops self.text.now self.stops }
        requires few { at < 63 }
        requires within { at < length self.text.now }
        ensures space { IfSome result (λ end. slice_index self.entry.text.now at ≡ space) }
        ensures digits { IfSome result (AreDigits 10 8 self.entry.text.now (at + 1)) }
    {
        if self.text[at as usize] != b' ' {
            return None;
        }
        self.dec_end(at + 1)
    }

    /// The number that the hexadecimal digits from a place to another spell.
    #[inline(always)]
    pub(crate) fn hex(self, from: u32, end: u32) -> u32
        requires room { from + 8 ≤ length self.text.now }
        requires digits { AreDigits 16 8 self.text.now from end }
        ensures { result ≡ number_between 16 self.entry.text.now from end }
    {
        hex_front(&self.text[from as usize..], end - from)
    }

    /// The number that the decimal digits from a place to another spell.
    #[inline(always)]
    pub(crate) fn dec(self, from: u32, end: u32) -> u32
        requires room { from + 8 ≤ length self.text.now }
        requires digits { AreDigits 10 8 self.text.now from end }
        ensures { result ≡ number_between 10 self.entry.text.now from end }
    {
        dec_front(&self.text[from as usize..], end - from)
    }
}
