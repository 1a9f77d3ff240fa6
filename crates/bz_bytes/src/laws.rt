//! What holds of this crate's definitions.

ghost use Rattle.std.specs.Prelude.{◌≡◌, ◌↔◌, ◌+◌, ◌≤◌, ℕ, ℤ, [], List, Option, None, Some, drop};
ghost use Rattle.std.specs.Str.{IsUtf8};
ghost use Rattle.bz_bytes.specs.Cursor.{IsCstr, IsInFront, IsNextAligned, IsSlice, IsWord, cstr_at, padding, slice_at, word_at};
ghost use Rattle.bz_bytes.specs.Leb128.{IsSleb, IsUleb, sleb_at, uleb_at};
ghost use Rattle.bz_bytes.specs.Line.{AreEnded, AreLines, all_lines, ended_lines};
ghost use Rattle.bz_bytes.specs.Number.{IsAtFront, IsDecimal, IsHex, decimal_at, digits_at, hex_at, whole};
ghost use Rattle.bz_bytes.specs.Path.{split, IsSplit};
ghost use Rattle.bz_bytes.specs.ZeroEnded.{IsString, zero_ended};

/// The lines that are read of a text are those that make it up side by side. Each has its end, or the
/// last one may lack it.
pub fn lines_are_exact()
    ensures ended { (text : List ℕ) (lines : List (List ℕ)) → (ended_lines text ≡ Some lines) ↔ AreEnded text lines }
    ensures all { (text : List ℕ) (lines : List (List ℕ)) → (all_lines text ≡ lines) ↔ AreLines text lines }
{}

/// The numbers that are read of a text, from its front or from the whole of it, are those that its
/// digits spell.
pub fn numbers_are_exact()
    ensures front { (base most : ℕ) (text : List ℕ) (value : ℕ) (rest : List ℕ) → (digits_at base most text ≡ Some (value, rest)) ↔ IsAtFront base most text value rest }
    ensures decimal_front { (most greatest : ℕ) (text : List ℕ) (value : ℕ) (rest : List ℕ) → (decimal_at most greatest text ≡ Some (value, rest)) ↔ (IsAtFront 10 most text value rest × (value ≤ greatest)) }
    ensures whole_hex { (most : ℕ) (text : List ℕ) (value : ℕ) → (whole (hex_at most text) ≡ Some value) ↔ IsHex most text value }
    ensures whole_decimal { (most greatest : ℕ) (text : List ℕ) (value : ℕ) → (whole (decimal_at most greatest text) ≡ Some value) ↔ IsDecimal most greatest text value }
{}

/// A path is split into the directory and the file that its pieces say, and only the empty text into
/// none.
pub fn paths_are_exact()
    ensures parts { (text : List ℕ) (directory : Option (List ℕ)) (file : List ℕ) → (split text ≡ Some (directory, file)) ↔ IsSplit text directory file }
    ensures none { (text : List ℕ) → (split text ≡ None) ↔ (text ≡ []) }
{}

/// The pieces that are read from the front of bytes are those that lie there. They are slices, words
/// with the least byte first, and texts that a zero byte ends. The padding of a place leads to the
/// first one divisible by 4 that isn't before it.
pub fn pieces_are_exact()
    ensures slice { (count : ℕ) (bytes slice rest : List ℕ) → (slice_at count bytes ≡ Some (slice, rest)) ↔ IsInFront (IsSlice count slice) bytes rest }
    ensures word { (size : ℕ) (bytes : List ℕ) (value : ℕ) (rest : List ℕ) → (word_at size bytes ≡ Some (value, rest)) ↔ IsInFront (IsWord size value) bytes rest }
    ensures cstr { (bytes text rest : List ℕ) → (cstr_at bytes ≡ Some (text, rest)) ↔ IsInFront (IsCstr text) bytes rest }
    ensures aligned { (place aligned : ℕ) → (aligned ≡ place + padding place) ↔ IsNextAligned place aligned }
{}

/// The LEB128 numbers that are read from the front of bytes are those that are spelled there.
pub fn lebs_are_exact()
    ensures unsigned { (bytes : List ℕ) (value : ℕ) (rest : List ℕ) → (uleb_at bytes ≡ Some (value, rest)) ↔ IsInFront (IsUleb value) bytes rest }
    ensures signed { (bytes : List ℕ) (value : ℤ) (rest : List ℕ) → (sleb_at bytes ≡ Some (value, rest)) ↔ IsInFront (IsSleb value) bytes rest }
{}

/// A text in UTF-8 stands at a place of bytes exactly where a zero byte ends it there.
pub fn zero_ended_texts_are_exact()
    ensures { (bytes : List ℕ) (place : ℕ) (text : List ℕ) → ((zero_ended (drop place bytes) ≡ Some text) × IsUtf8 text) ↔ IsString bytes place text }
{}
