//! One step: RISC-V Instruction Set Manual, volume I, chapters "RV32I" and "M".

ghost use Rattle.std.specs.Prelude.{◌≡◌, ◌≢◌, ◌+◌, ◌%◌, ◌<◌, ◌≤◌, IfNone, length};
ghost use Rattle.byteorder.specs.Endian.{little_bytes};
ghost use Rattle.rv_isa.specs.Registers.{IsRegister};
ghost use Rattle.rv_isa.specs.Words.{InRange, instruction_size, Spells};
ghost use Rattle.rv_isa.specs.declared.instruction.Instr.{Instr};
ghost use Rattle.rv_machine.specs.Arithmetic.{signed_byte, signed_half};
ghost use Rattle.rv_machine.specs.Machine.{
  address,
  branch,
  byte_size,
  call,
  data_fault,
  exec,
  fault,
  half_size,
  IsFetched,
  IsMachine,
  jump,
  KeepsOnFault,
  load,
  pass,
  put,
  retire,
  store,
  store_fault,
  word_at_pc,
  word_size,
};

use crate::answers::{FaultKind, Step};
use crate::arithmetic::{
    difference, less, less_unsigned, product, quotient, quotient_unsigned, remainder,
    remainder_unsigned, shift_left, shift_right, shift_right_signed, signed_byte, signed_half, sum,
    upper_product, upper_product_mixed, upper_product_unsigned, upper_value,
};
use crate::hart::Machine;
use crate::memory::{write_byte, write_half, write_word};
use byteorder::{ByteOrder, LittleEndian};
use rv_isa::registers::ZERO;
use rv_isa::{Instr, decode};

const INSTRUCTION_SIZE: u32 = 4;

const BYTE_SIZE: usize = 1;

const HALF_SIZE: usize = 2;

const WORD_SIZE: usize = 4;

impl Machine {
    /// Fetches the word at the pc and does its instruction. A fault changes nothing, and no step changes the memory's length
    /// or the read-only end.
    pub fn step(&mut self) -> Step
        ensures unaligned { self.old.pc % instruction_size ≢ 0 → fault FaultKind.Unaligned self.old ≡ (result, self.new) }
        ensures outside { self.old.pc % instruction_size ≡ 0 → self.old.read_only < self.old.pc + instruction_size
            → fault FaultKind.Outside self.old ≡ (result, self.new) }
        ensures illegal { IsFetched self.old → ((i : Instr) → Spells i (word_at_pc self.old) → ⊥)
            → fault FaultKind.Illegal self.old ≡ (result, self.new) }
        ensures does { (i : Instr) → IsFetched self.old → Spells i (word_at_pc self.old) → exec i self.old ≡ (result, self.new) }
        ensures kept { KeepsOnFault self.old result self.new }
        ensures never { result ≢ Step.Fault FaultKind.BadCall }
        ensures memory { length self.new.memory ≡ length self.old.memory }
        ensures read_only { self.new.read_only ≡ self.old.read_only }
        ensures machine { IsMachine self.new }
    {
        if self.pc % INSTRUCTION_SIZE != 0 {
            return Step::Fault(FaultKind::Unaligned);
        }
        let place = self.pc as usize;
        if place + INSTRUCTION_SIZE as usize > self.read_only as usize {
            return Step::Fault(FaultKind::Outside);
        }
        match decode(LittleEndian::read_u32(&self.memory.as_slice()[place..])) {
            Some(i) => self.execute(i),
            None => Step::Fault(FaultKind::Illegal),
        }
    }

    fn execute(&mut self, i: Instr) -> Step
        requires { InRange i }
        ensures { exec i self.old ≡ (result, self.new) }
    {
        match i {
            Instr::Lui { rd, imm } => self.put(rd, upper_value(imm)),
            Instr::Auipc { rd, imm } => self.put(rd, sum(self.pc, upper_value(imm))),
            Instr::Jal { rd, imm } => self.jump(rd, sum(self.pc, imm.cast_unsigned())),
            Instr::Jalr { rd, rs1, imm } => self.jump(rd, self.address(rs1, imm) / 2 * 2),
            Instr::Beq { rs1, rs2, imm } => self.branch(self.reg(rs1) == self.reg(rs2), imm),
            Instr::Bne { rs1, rs2, imm } => self.branch(self.reg(rs1) != self.reg(rs2), imm),
            Instr::Blt { rs1, rs2, imm } => self.branch(
                self.reg(rs1).cast_signed() < self.reg(rs2).cast_signed(),
                imm,
            ),
            Instr::Bge { rs1, rs2, imm } => self.branch(
                self.reg(rs1).cast_signed() >= self.reg(rs2).cast_signed(),
                imm,
            ),
            Instr::Bltu { rs1, rs2, imm } => self.branch(self.reg(rs1) < self.reg(rs2), imm),
            Instr::Bgeu { rs1, rs2, imm } => self.branch(self.reg(rs1) >= self.reg(rs2), imm),
            Instr::Lb { rd, rs1, imm } => self.load_signed_byte(rd, self.address(rs1, imm)),
            Instr::Lh { rd, rs1, imm } => self.load_signed_half(rd, self.address(rs1, imm)),
            Instr::Lw { rd, rs1, imm } => self.load_word(rd, self.address(rs1, imm)),
            Instr::Lbu { rd, rs1, imm } => self.load_byte(rd, self.address(rs1, imm)),
            Instr::Lhu { rd, rs1, imm } => self.load_half(rd, self.address(rs1, imm)),
            Instr::Sb { rs1, rs2, imm } => self.store_byte(self.address(rs1, imm), self.reg(rs2)),
            Instr::Sh { rs1, rs2, imm } => self.store_half(self.address(rs1, imm), self.reg(rs2)),
            Instr::Sw { rs1, rs2, imm } => self.store_word(self.address(rs1, imm), self.reg(rs2)),
            Instr::Addi { rd, rs1, imm } => self.put(rd, sum(self.reg(rs1), imm.cast_unsigned())),
            Instr::Slti { rd, rs1, imm } => self.put(rd, less(self.reg(rs1), imm.cast_unsigned())),
            Instr::Sltiu { rd, rs1, imm } => self.put(
                rd,
                less_unsigned(self.reg(rs1), imm.cast_unsigned()),
            ),
            Instr::Xori { rd, rs1, imm } => self.put(rd, self.reg(rs1) ^ imm.cast_unsigned()),
            Instr::Ori { rd, rs1, imm } => self.put(rd, self.reg(rs1) | imm.cast_unsigned()),
            Instr::Andi { rd, rs1, imm } => self.put(rd, self.reg(rs1) & imm.cast_unsigned()),
            Instr::Slli { rd, rs1, imm } => self.put(
                rd,
                shift_left(self.reg(rs1), imm.cast_unsigned()),
            ),
            Instr::Srli { rd, rs1, imm } => self.put(
                rd,
                shift_right(self.reg(rs1), imm.cast_unsigned()),
            ),
            Instr::Srai { rd, rs1, imm } => self.put(
                rd,
                shift_right_signed(self.reg(rs1), imm.cast_unsigned()),
            ),
            Instr::Add { rd, rs1, rs2 } => self.put(rd, sum(self.reg(rs1), self.reg(rs2))),
            Instr::Sub { rd, rs1, rs2 } => self.put(rd, difference(self.reg(rs1), self.reg(rs2))),
            Instr::Sll { rd, rs1, rs2 } => self.put(rd, shift_left(self.reg(rs1), self.reg(rs2))),
            Instr::Slt { rd, rs1, rs2 } => self.put(rd, less(self.reg(rs1), self.reg(rs2))),
            Instr::Sltu { rd, rs1, rs2 } => self.put(
                rd,
                less_unsigned(self.reg(rs1), self.reg(rs2)),
            ),
            Instr::Xor { rd, rs1, rs2 } => self.put(rd, self.reg(rs1) ^ self.reg(rs2)),
            Instr::Srl { rd, rs1, rs2 } => self.put(rd, shift_right(self.reg(rs1), self.reg(rs2))),
            Instr::Sra { rd, rs1, rs2 } => self.put(
                rd,
                shift_right_signed(self.reg(rs1), self.reg(rs2)),
            ),
            Instr::Or { rd, rs1, rs2 } => self.put(rd, self.reg(rs1) | self.reg(rs2)),
            Instr::And { rd, rs1, rs2 } => self.put(rd, self.reg(rs1) & self.reg(rs2)),
            Instr::Mul { rd, rs1, rs2 } => self.put(rd, product(self.reg(rs1), self.reg(rs2))),
            Instr::Mulh { rd, rs1, rs2 } => self.put(
                rd,
                upper_product(self.reg(rs1), self.reg(rs2)),
            ),
            Instr::Mulhsu { rd, rs1, rs2 } => self.put(
                rd,
                upper_product_mixed(self.reg(rs1), self.reg(rs2)),
            ),
            Instr::Mulhu { rd, rs1, rs2 } => self.put(
                rd,
                upper_product_unsigned(self.reg(rs1), self.reg(rs2)),
            ),
            Instr::Div { rd, rs1, rs2 } => self.put(rd, quotient(self.reg(rs1), self.reg(rs2))),
            Instr::Divu { rd, rs1, rs2 } => self.put(
                rd,
                quotient_unsigned(self.reg(rs1), self.reg(rs2)),
            ),
            Instr::Rem { rd, rs1, rs2 } => self.put(rd, remainder(self.reg(rs1), self.reg(rs2))),
            Instr::Remu { rd, rs1, rs2 } => self.put(
                rd,
                remainder_unsigned(self.reg(rs1), self.reg(rs2)),
            ),
            Instr::Fence { .. } => self.pass(),
            Instr::Ecall => self.call(),
            Instr::Ebreak => Step::Fault(FaultKind::Break),
        }
    }

    /// The address of a load or a store.
    fn address(&self, rs1: u8, imm: i32) -> u32
        requires { IsRegister rs1 }
        ensures { result ≡ address self.now rs1 imm }
    {
        sum(self.reg(rs1), imm.cast_unsigned())
    }

    /// Retires the instruction and goes on at an address.
    fn retire(&mut self, target: u32)
        ensures { self.new ≡ retire self.old target }
    {
        self.pc = target;
        self.retired = self.retired.saturating_add(1);
    }

    /// Goes on behind the instruction.
    #[tactic(auto, unfolding(crate::specs::Machine::pass))]
    fn pass(&mut self) -> Step
        ensures { pass self.old ≡ (result, self.new) }
    {
        self.retire(self.pc.wrapping_add(INSTRUCTION_SIZE));
        Step::Went
    }

    /// An instruction whose result is a register's.
    #[tactic(auto, unfolding(crate::specs::Machine::put))]
    fn put(&mut self, rd: u8, v: u32) -> Step
        requires { IsRegister rd }
        ensures { put self.old rd v ≡ (result, self.new) }
    {
        self.set_reg(rd, v);
        self.retire(self.pc.wrapping_add(INSTRUCTION_SIZE));
        Step::Went
    }

    /// ECALL.
    #[tactic(auto, unfolding(crate::specs::Machine::call))]
    fn call(&mut self) -> Step
        ensures { call self.old ≡ (result, self.new) }
    {
        self.retire(self.pc.wrapping_add(INSTRUCTION_SIZE));
        Step::Call
    }

    /// A jump, which leaves the address behind it in `rd`.
    #[tactic(auto, unfolding(crate::specs::Machine::jump))]
    fn jump(&mut self, rd: u8, target: u32) -> Step
        requires { IsRegister rd }
        ensures { jump self.old rd target ≡ (result, self.new) }
    {
        if target % INSTRUCTION_SIZE != 0 {
            return Step::Fault(FaultKind::Unaligned);
        }
        self.set_reg(rd, self.pc.wrapping_add(INSTRUCTION_SIZE));
        self.retire(target);
        Step::Went
    }

    /// A conditional branch.
    #[tactic(auto, unfolding(crate::specs::Machine::branch))]
    fn branch(&mut self, taken: bool, imm: i32) -> Step
        ensures { branch self.old taken imm ≡ (result, self.new) }
    {
        if taken {
            self.jump(ZERO, sum(self.pc, imm.cast_unsigned()))
        } else {
            self.pass()
        }
    }

    /// Why data of this size can't be read there.
    #[tactic(auto, unfolding(crate::specs::Machine::data_fault))]
    fn data_fault(&self, size: usize, at: u32) -> Option<FaultKind>
        requires positive { 0 < size }
        requires small { size ≤ word_size }
        ensures exact { result ≡ data_fault self.now size at }
        ensures inside { IfNone result (at + size ≤ length self.now.memory) }
    {
        let place = at as usize;
        if place % size != 0 {
            Some(FaultKind::Unaligned)
        } else if place + size > self.memory.as_slice().len() {
            Some(FaultKind::Outside)
        } else {
            None
        }
    }

    /// Why data of this size can't be written there.
    #[tactic(auto, unfolding(crate::specs::Machine::store_fault))]
    fn store_fault(&self, size: usize, at: u32) -> Option<FaultKind>
        requires positive { 0 < size }
        requires small { size ≤ word_size }
        ensures exact { result ≡ store_fault self.now size at }
        ensures inside { IfNone result (at + size ≤ length self.now.memory) }
    {
        match self.data_fault(size, at) {
            Some(kind) => Some(kind),
            None if at < self.read_only => Some(FaultKind::ReadOnly),
            None => None,
        }
    }

    /// LBU.
    #[tactic(auto, unfolding(crate::specs::Machine::load))]
    fn load_byte(&mut self, rd: u8, at: u32) -> Step
        requires { IsRegister rd }
        ensures { load self.old byte_size (λ n. n) rd at ≡ (result, self.new) }
    {
        if let Some(kind) = self.data_fault(BYTE_SIZE, at) {
            return Step::Fault(kind);
        }
        let loaded = self.memory.as_slice()[at as usize];
        self.put(rd, loaded as u32)
    }

    /// LB.
    #[tactic(auto, unfolding(crate::specs::Machine::load))]
    fn load_signed_byte(&mut self, rd: u8, at: u32) -> Step
        requires { IsRegister rd }
        ensures { load self.old byte_size signed_byte rd at ≡ (result, self.new) }
    {
        if let Some(kind) = self.data_fault(BYTE_SIZE, at) {
            return Step::Fault(kind);
        }
        let loaded = self.memory.as_slice()[at as usize];
        self.put(rd, signed_byte(loaded))
    }

    /// LHU.
    #[tactic(auto, unfolding(crate::specs::Machine::load))]
    fn load_half(&mut self, rd: u8, at: u32) -> Step
        requires { IsRegister rd }
        ensures { load self.old half_size (λ n. n) rd at ≡ (result, self.new) }
    {
        if let Some(kind) = self.data_fault(HALF_SIZE, at) {
            return Step::Fault(kind);
        }
        let loaded = LittleEndian::read_u16(&self.memory.as_slice()[at as usize..]);
        self.put(rd, loaded as u32)
    }

    /// LH.
    #[tactic(auto, unfolding(crate::specs::Machine::load))]
    fn load_signed_half(&mut self, rd: u8, at: u32) -> Step
        requires { IsRegister rd }
        ensures { load self.old half_size signed_half rd at ≡ (result, self.new) }
    {
        if let Some(kind) = self.data_fault(HALF_SIZE, at) {
            return Step::Fault(kind);
        }
        let loaded = LittleEndian::read_u16(&self.memory.as_slice()[at as usize..]);
        self.put(rd, signed_half(loaded))
    }

    /// LW.
    #[tactic(auto, unfolding(crate::specs::Machine::load))]
    fn load_word(&mut self, rd: u8, at: u32) -> Step
        requires { IsRegister rd }
        ensures { load self.old word_size (λ n. n) rd at ≡ (result, self.new) }
    {
        if let Some(kind) = self.data_fault(WORD_SIZE, at) {
            return Step::Fault(kind);
        }
        let loaded = LittleEndian::read_u32(&self.memory.as_slice()[at as usize..]);
        self.put(rd, loaded)
    }

    /// SB.
    #[tactic(auto, unfolding(crate::specs::Machine::store, crate::specs::Machine::pass))]
    fn store_byte(&mut self, at: u32, v: u32) -> Step
        ensures { store self.old at (little_bytes byte_size v) ≡ (result, self.new) }
    {
        if let Some(kind) = self.store_fault(BYTE_SIZE, at) {
            return Step::Fault(kind);
        }
        write_byte(self.memory.as_mut_slice(), at as usize, v);
        self.pass()
    }

    /// SH.
    #[tactic(auto, unfolding(crate::specs::Machine::store, crate::specs::Machine::pass))]
    fn store_half(&mut self, at: u32, v: u32) -> Step
        ensures { store self.old at (little_bytes half_size v) ≡ (result, self.new) }
    {
        if let Some(kind) = self.store_fault(HALF_SIZE, at) {
            return Step::Fault(kind);
        }
        write_half(self.memory.as_mut_slice(), at as usize, v);
        self.pass()
    }

    /// SW.
    #[tactic(auto, unfolding(crate::specs::Machine::store, crate::specs::Machine::pass))]
    fn store_word(&mut self, at: u32, v: u32) -> Step
        ensures { store self.old at (little_bytes word_size v) ≡ (result, self.new) }
    {
        if let Some(kind) = self.store_fault(WORD_SIZE, at) {
            return Step::Fault(kind);
        }
        write_word(self.memory.as_mut_slice(), at as usize, v);
        self.pass()
    }
}
