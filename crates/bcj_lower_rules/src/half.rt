/// The half of an address that a relocation sets (RISC-V psABI, "Relocations").
#[derive(Clone, Copy)]
pub enum Half {
    /// The upper 20 bits, in a LUI (R_RISCV_HI20).
    Upper,
    /// The low 12 bits, in the I format (R_RISCV_LO12_I).
    Lower,
}
