//! Data in memory, the lowest byte first: RISC-V Instruction Set Manual, volume I, "Load and Store Instructions".

ghost use Rattle.std.specs.Prelude.{◌≡◌, ◌+◌, ◌≤◌, length};
ghost use Rattle.byteorder.specs.Endian.{little_bytes};
ghost use Rattle.rv_machine.specs.Machine.{byte_size, half_size, with_bytes, word_size};

use byteorder::{ByteOrder, LittleEndian};

/// Writes the low byte of a register.
pub fn write_byte(memory: &mut [u8], place: usize, v: u32)
    requires { place + byte_size ≤ length memory.old }
    ensures { memory.new ≡ with_bytes memory.old place (little_bytes byte_size v) }
{
    memory[place] = (v % (1 << 8)) as u8;
}

/// Writes the low half of a register.
pub fn write_half(memory: &mut [u8], place: usize, v: u32)
    requires { place + half_size ≤ length memory.old }
    ensures { memory.new ≡ with_bytes memory.old place (little_bytes half_size v) }
{
    LittleEndian::write_u16(&mut memory[place..], (v % (1 << 16)) as u16);
}

/// Writes a register.
pub fn write_word(memory: &mut [u8], place: usize, v: u32)
    requires { place + word_size ≤ length memory.old }
    ensures { memory.new ≡ with_bytes memory.old place (little_bytes word_size v) }
{
    LittleEndian::write_u32(&mut memory[place..], v);
}
