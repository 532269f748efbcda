//! The fields that every instruction word is cut into.

ghost use Rattle.std.specs.Prelude.{◌≡◌};
ghost use Rattle.rv_isa.specs.Words.{word_of, InBits};

/// The fields of an instruction word in the R format: `opcode` is bits 0 to 6, `rd` 7 to 11, `funct3` 12 to 14, `rs1` 15 to
/// 19, `rs2` 20 to 24 and `funct7` 25 to 31. The other formats put parts of their immediate into fields that they don't
/// use.
#[derive(Clone, Copy)]
pub struct Fields {
    pub opcode: u8,
    pub rd: u8,
    pub funct3: u8,
    pub rs1: u8,
    pub rs2: u8,
    pub funct7: u8,
}

/// The word with these fields.
pub fn join(f: Fields) -> u32
    requires { InBits f }
    ensures { result ≡ word_of f }
{
    f.opcode as u32
        | (f.rd as u32) << 7
        | (f.funct3 as u32) << 12
        | (f.rs1 as u32) << 15
        | (f.rs2 as u32) << 20
        | (f.funct7 as u32) << 25
}

/// The fields of a word.
pub fn split(w: u32) -> Fields
    ensures bits { InBits result }
    ensures word { w ≡ word_of result }
{
    Fields {
        opcode: (w & 0x7f) as u8,
        rd: (w >> 7 & 0x1f) as u8,
        funct3: (w >> 12 & 7) as u8,
        rs1: (w >> 15 & 0x1f) as u8,
        rs2: (w >> 20 & 0x1f) as u8,
        funct7: (w >> 25) as u8,
    }
}
