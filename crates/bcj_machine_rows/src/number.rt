//! Numbers and registers of a row.

ghost use Rattle.std.specs.Prelude.{◌<◌, IfSome};

/// A number in decimal or, behind `0x`, in hexadecimal.
pub fn number(text: &str) -> Option<u32> {
    match text.strip_prefix("0x") {
        Some(digits) => u32::from_str_radix(digits, 16).ok(),
        None => text.parse().ok(),
    }
}

/// A register by its number, as `x5`.
pub fn register(text: &str) -> Option<u8>
    ensures { IfSome result (λ r. r < 32) }
{
    let r: u8 = text.strip_prefix('x')?.parse().ok()?;
    if r < 32 { Some(r) } else { None }
}
