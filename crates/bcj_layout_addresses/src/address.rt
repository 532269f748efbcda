ghost use Rattle.std.specs.Prelude.{◌≡◌, ◌+◌, IfOk};

use std::alloc::AllocError;

/// An address behind another, in bytes. One past 32 bits fits no memory.
pub fn address(start: u32, offset: u32) -> Result<u32, AllocError>
    ensures { IfOk result (λ a. a ≡ start + offset) }
{
    match start.checked_add(offset) {
        None => Err(AllocError),
        Some(address) => Ok(address),
    }
}
