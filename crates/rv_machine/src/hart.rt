//! The machine: a hart of RV32IM with its memory.

ghost use Rattle.std.specs.Prelude.{◌≡◌, ◌≢◌, ◌≤◌, ℕ, length, replicate};
ghost use Rattle.std.specs.Borrow.{sem};
ghost use Rattle.rv_isa.specs.Registers.{IsRegister, register_count, zero};
ghost use Rattle.rv_machine.specs.Lent.{LendsMemory};
ghost use Rattle.rv_machine.specs.Machine.{IsMachine, max_memory_length, register, with_register};

use bcj_edge::Bytes;
use rv_isa::registers::ZERO;
use std::marker::Model;

mod execution;

const REGISTER_COUNT: usize = 32;

/// A machine of RV32IM: 32 registers, the pc and a memory of bytes from address 0 on. Code is fetched below the read-only
/// end alone, and no store begins there.
#[derive(Drop)]
pub struct Machine {
    registers: [u32; REGISTER_COUNT],
    memory: Bytes,
    read_only: u32,
    pc: u32,
    retired: u128,
}

impl Model for Machine {
    ghost use Rattle.std.specs.Prelude.{◌≡◌, ◌≤◌, length, slice_index};
    ghost use Rattle.rv_isa.specs.Registers.{register_count, zero};
    ghost use Rattle.rv_machine.specs.Machine.{max_memory_length, State};

    ghost Value = { State };

    ghost view = { λ m. record {
      registers = m.registers;
      memory = m.memory;
      read_only = m.read_only;
      pc = m.pc;
      retired = m.retired;
    } };

    ghost invariant = { λ m. (slice_index m.registers zero ≡ 0) × (length m.registers ≡ register_count)
        × (length m.memory ≤ max_memory_length) × (m.read_only ≤ length m.memory) };
}

impl Machine {
    /// A machine at `pc` whose registers are 0. `read_only` is the read-only end.
    pub fn new(memory: Bytes, read_only: u32, pc: u32) -> Machine
        requires size { length memory ≤ max_memory_length }
        requires read_only { read_only ≤ length memory }
        ensures value { result
            ≡ record { registers = replicate register_count 0; memory = memory; read_only = read_only; pc = pc; retired = 0 } }
        ensures machine { IsMachine result }
    {
        Machine {
            registers: [0; REGISTER_COUNT],
            memory,
            read_only,
            pc,
            retired: 0,
        }
    }

    pub fn pc(&self) -> u32
        ensures value { result ≡ self.now.pc }
        ensures machine { IsMachine self.now }
    {
        self.pc
    }

    pub fn set_pc(&mut self, pc: u32)
        ensures value { self.new ≡ record self.old { pc = pc } }
        ensures machine { IsMachine self.new }
    {
        self.pc = pc;
    }

    /// The register `r`. x0 is 0.
    pub fn reg(&self, r: u8) -> u32
        requires { IsRegister r }
        ensures value { result ≡ register self.now r }
        ensures zero { r ≡ zero → result ≡ 0 }
        ensures machine { IsMachine self.now }
    {
        self.registers[r as usize]
    }

    /// Writes the register `r`; a write of x0 is dropped.
    pub fn set_reg(&mut self, r: u8, v: u32)
        requires { IsRegister r }
        ensures value { self.new ≡ with_register self.old r v }
        ensures written { r ≢ zero → register self.new r ≡ v }
        ensures others { (q : ℕ) → q ≢ r → register self.new q ≡ register self.old q }
        ensures machine { IsMachine self.new }
    {
        if r != ZERO {
            self.registers[r as usize] = v;
        }
    }

    /// The memory, of fewer than 2^32 bytes.
    pub fn memory(&self) -> &[u8]
        ensures value { result.now ≡ self.now.memory }
        ensures size { length result.now ≤ max_memory_length }
        ensures read_only { self.now.read_only ≤ length result.now }
        ensures machine { IsMachine self.now }
    {
        self.memory.as_slice()
    }

    /// The memory, to be written in place, below the read-only end too. It keeps its length.
    pub fn memory_mut(&mut self) -> &mut [u8]
        ensures* writes_back { sem 𝓛 (LendsMemory self.entry result) }
        ensures value { result.now ≡ self.old.memory }
        ensures machine { IsMachine self.old }
    {
        self.memory.as_mut_slice()
    }

    /// How many steps have answered `Went` or `Call`. It stands still at the last value of its type.
    pub fn retired(&self) -> u128
        ensures value { result ≡ self.now.retired }
        ensures machine { IsMachine self.now }
    {
        self.retired
    }
}
