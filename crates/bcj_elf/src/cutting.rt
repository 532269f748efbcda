//! Cutting a file into its sections.

ghost use Rattle.std.specs.Prelude.{◌≡◌, ◌≤◌, ◌<◌, length};
ghost use Rattle.std.specs.Option.{option_map};
ghost use Rattle.bcj_elf.specs.Layout.{section_count, section_headers_size};
ghost use Rattle.bcj_elf.specs.function.Reading.{cut, sh_size, header_field, sizes_at, cuts_at, contents_at, contents};

use crate::elf::{FILE_HEADER_SIZE, SECTION_HEADER_SIZE, SH_SIZE};
use crate::parts::{Parts, behind, word_of};
use crate::sizes::{
    ALL_HEADERS_SIZE, REC_INDEX, RELA_TAB_INDEX, RELA_TEXT_INDEX, SECTION_HEADERS_SIZE,
    STRTAB_INDEX, SYMTAB_INDEX, Sizes, TAB_INDEX, TEXT_INDEX, padding_of,
};

#[tactic(auto, unfolding(crate::specs::function::Reading::cut))]
fn cut_off(bytes: &[u8], n: u32) -> Option<(&[u8], &[u8])>
    ensures { option_map (λ p. (p.0.now, p.1.now)) result ≡ cut n bytes.now }
{
    let n = n as usize;
    if bytes.len() < n {
        return None;
    }
    Some(bytes.split_at(n))
}

/// The size in the section header with this index.
fn header_size(headers: &[u8], index: usize) -> u32
    requires known { index < section_count }
    requires whole { section_headers_size ≤ length headers.now }
    ensures { result ≡ header_field index sh_size headers.now }
{
    word_of(headers, index * SECTION_HEADER_SIZE as usize + SH_SIZE)
}

/// The sizes that the section headers give.
#[tactic(auto, unfolding(crate::specs::function::Reading::sizes_at))]
fn header_sizes(headers: &[u8]) -> Sizes
    requires { section_headers_size ≤ length headers.now }
    ensures { result ≡ sizes_at headers.now }
{
    Sizes {
        text: header_size(headers, TEXT_INDEX),
        rela_text: header_size(headers, RELA_TEXT_INDEX),
        tab: header_size(headers, TAB_INDEX),
        rela_tab: header_size(headers, RELA_TAB_INDEX),
        rec: header_size(headers, REC_INDEX),
        symtab: header_size(headers, SYMTAB_INDEX),
        strtab: header_size(headers, STRTAB_INDEX),
    }
}

#[tactic(auto, unfolding(crate::specs::function::Reading::cuts_at))]
fn cuts<'a>(s: &Sizes, bytes: &'a [u8]) -> Option<Parts<'a>>
    ensures { option_map contents result ≡ cuts_at s.now bytes.now }
{
    let (text, rest) = cut_off(bytes, s.text)?;
    let (rela_text, rest) = cut_off(rest, s.rela_text)?;
    let (tab, rest) = cut_off(rest, s.tab)?;
    let (rela_tab, rest) = cut_off(rest, s.rela_tab)?;
    let (rec, rest) = cut_off(rest, s.rec)?;
    let (_, rest) = cut_off(rest, padding_of(s.rec))?;
    let (symtab, rest) = cut_off(rest, s.symtab)?;
    let (strtab, _) = cut_off(rest, s.strtab)?;
    Some(Parts {
        text,
        rela_text,
        tab,
        rela_tab,
        rec,
        symtab,
        strtab,
    })
}

/// The sections where the headers at the end put them; `None` where they pass the end.
#[tactic(auto, unfolding(crate::specs::function::Reading::contents_at))]
pub fn parts_of(bytes: &[u8]) -> Option<Parts<'_>>
    ensures { option_map contents result ≡ contents_at bytes.now }
{
    if bytes.len() < ALL_HEADERS_SIZE {
        return None;
    }
    let s = header_sizes(behind(bytes, bytes.len() - SECTION_HEADERS_SIZE));
    cuts(&s, behind(bytes, FILE_HEADER_SIZE as usize))
}
