//! The sections of a file, where its headers put them.

ghost use Rattle.std.specs.Prelude.{◌≡◌, ◌+◌, ◌≤◌, length, drop};
ghost use Rattle.bcj_elf.specs.Rules.{word_at};

/// The contents of the sections.
#[derive(Clone, Copy)]
pub struct Parts<'a> {
    pub text: &'a [u8],
    pub rela_text: &'a [u8],
    pub tab: &'a [u8],
    pub rela_tab: &'a [u8],
    pub rec: &'a [u8],
    pub symtab: &'a [u8],
    pub strtab: &'a [u8],
}

/// The little-endian word at an offset.
pub fn word_of(bytes: &[u8], at: usize) -> u32
    requires { at + 4 ≤ length bytes.now }
    ensures { result ≡ word_at at bytes.now }
{
    u32::from_le_bytes([bytes[at], bytes[at + 1], bytes[at + 2], bytes[at + 3]])
}

/// The bytes from `n` on, or none where there are fewer.
pub fn behind(bytes: &[u8], n: usize) -> &[u8]
    ensures { result.now ≡ drop n bytes.now }
{
    if n <= bytes.len() { &bytes[n..] } else { &[] }
}
