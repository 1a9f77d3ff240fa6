//! The head of an ELF file, and whether its tables lie in the bytes.

ghost use Rattle.std.specs.Prelude.{◌≡◌, ◌≤◌, length, true, Some, IfNone, IfSome};
ghost use Rattle.bz_elf.specs.Checks.{PassesHead, has_head, has_program_headers, has_sections, is_elf, is_supported};
ghost use Rattle.bz_elf.specs.Format.{format_test};
ghost use Rattle.bz_elf.specs.Kept.{TablesLie};
ghost use Rattle.bz_elf.specs.Head.{head_len, identity_len, program_count, program_place, section_count, section_place};

use super::layout::{
    E_PHENTSIZE, E_PHNUM, E_PHOFF, E_SHENTSIZE, E_SHNUM, E_SHOFF, EI_CLASS, EI_DATA, EI_MAG0,
    ELFCLASS64, ELFDATA2LSB, ELFMAG, HEAD_LEN, IDENTITY_LEN, PN_XNUM, PROGRAM_HEADER_LEN,
    SECTION_HEADER_LEN,
};
use super::parts::lies;
use bz_base::{Error, u8_at, u16_at, u32_at, u64_at};

/// How the bytes are refused for their head and the places of its tables.
#[tactic(auto, using(crate::proofs::HeadLemmas::tables_lie))]
pub(crate) fn head_refusal(bytes: &[u8]) -> Option<Error>
    ensures refused { IfSome result (λ e. format_test bytes.now ≡ Some e) }
    ensures passed { IfNone result (PassesHead bytes.now) }
    ensures within { IfNone result (TablesLie bytes.now) }
{
    if !is_elf(bytes) {
        return Some(Error::InvalidData);
    }
    if !is_supported(bytes) {
        return Some(Error::Unsupported);
    }
    if !has_head(bytes) || !has_program_headers(bytes) || !has_sections(bytes) {
        return Some(Error::InvalidData);
    }
    None
}

/// Whether the bytes begin as those of an ELF file.
#[tactic(auto, unfolding(crate::specs::Checks::is_elf))]
fn is_elf(bytes: &[u8]) -> bool
    ensures same { result ≡ is_elf bytes.now }
    ensures within { result ≡ true → identity_len ≤ length bytes.now }
{
    bytes.len() >= IDENTITY_LEN && u32_at(bytes, EI_MAG0) == ELFMAG
}

/// Whether the file is of 64 bits and little-endian.
#[tactic(auto, unfolding(crate::specs::Checks::is_supported))]
fn is_supported(bytes: &[u8]) -> bool
    requires { identity_len ≤ length bytes.now }
    ensures { result ≡ is_supported bytes.now }
{
    u8_at(bytes, EI_CLASS) == ELFCLASS64 && u8_at(bytes, EI_DATA) == ELFDATA2LSB
}

/// Whether the head lies in the bytes.
#[tactic(auto, unfolding(crate::specs::Checks::has_head))]
fn has_head(bytes: &[u8]) -> bool
    ensures same { result ≡ has_head bytes.now }
    ensures within { result ≡ true → head_len ≤ length bytes.now }
{
    bytes.len() >= HEAD_LEN
}

/// Whether the program headers, if there are any, lie in the bytes.
#[tactic(auto, unfolding(crate::specs::Checks::has_program_headers))]
fn has_program_headers(bytes: &[u8]) -> bool
    requires { head_len ≤ length bytes.now }
    ensures { result ≡ has_program_headers bytes.now }
{
    let count = program_count(bytes);
    let size = u64::from(count) * PROGRAM_HEADER_LEN as u64;
    count == 0
        || (count != PN_XNUM
            && u16_at(bytes, E_PHENTSIZE) as usize == PROGRAM_HEADER_LEN
            && lies(bytes, program_place(bytes), size))
}

/// Whether the section headers, if there are any, lie in the bytes.
#[tactic(auto, unfolding(crate::specs::Checks::has_sections))]
fn has_sections(bytes: &[u8]) -> bool
    requires { head_len ≤ length bytes.now }
    ensures { result ≡ has_sections bytes.now }
{
    let count = section_count(bytes);
    let place = section_place(bytes);
    if count == 0 {
        return place == 0;
    }
    let size = u64::from(count) * SECTION_HEADER_LEN as u64;
    u16_at(bytes, E_SHENTSIZE) as usize == SECTION_HEADER_LEN && lies(bytes, place, size)
}

/// Where the program headers begin.
pub(crate) fn program_place(bytes: &[u8]) -> u64
    requires { head_len ≤ length bytes.now }
    ensures { result ≡ program_place bytes.now }
{
    u64_at(bytes, E_PHOFF)
}

/// How many program headers there are.
pub(crate) fn program_count(bytes: &[u8]) -> u16
    requires { head_len ≤ length bytes.now }
    ensures { result ≡ program_count bytes.now }
{
    u16_at(bytes, E_PHNUM)
}

/// Where the section headers begin.
pub(crate) fn section_place(bytes: &[u8]) -> u64
    requires { head_len ≤ length bytes.now }
    ensures { result ≡ section_place bytes.now }
{
    u64_at(bytes, E_SHOFF)
}

/// How many section headers there are.
pub(crate) fn section_count(bytes: &[u8]) -> u16
    requires { head_len ≤ length bytes.now }
    ensures { result ≡ section_count bytes.now }
{
    u16_at(bytes, E_SHNUM)
}
