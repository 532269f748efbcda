//! What a caller may rely on, proved from the contracts of `Machine` alone.

ghost use Rattle.std.specs.Prelude.{◌≡◌, ◌≢◌, ◌<◌, length};
ghost use Rattle.rv_isa.specs.Registers.{IsRegister, zero};

use crate::hart::Machine;

/// A register that is written is read again.
pub fn write_and_read(machine: &mut Machine, r: u8, v: u32) -> u32
    requires register { IsRegister r }
    requires written { r ≢ zero }
    ensures { result ≡ v }
{
    machine.set_reg(r, v);
    machine.reg(r)
}

/// A write through `memory_mut` keeps the memory's length.
#[tactic(auto, using(bcj_edge::specs::Replaced::length_replaced))]
pub fn write_byte(machine: &mut Machine, place: usize, byte: u8)
    requires { place < length machine.old.memory }
    ensures { length machine.new.memory ≡ length machine.old.memory }
{
    machine.memory_mut()[place] = byte;
}
