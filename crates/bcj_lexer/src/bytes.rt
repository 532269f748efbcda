//! Classes of bytes, JLS 3.6, 3.8 and 3.10.

ghost use Rattle.std.specs.Prelude.{◌≡◌};
ghost use Rattle.bcj_lexer.specs.Bytes as bytes;

#[tactic(auto, unfolding(crate::specs::Bytes::is_blank))]
pub fn is_blank(byte: u8) -> bool
    ensures { result ≡ bytes.is_blank byte }
{
    byte == b' ' || byte == b'\t' || byte == b'\x0c' || byte == b'\r' || byte == b'\n'
}

#[tactic(auto, unfolding(crate::specs::Bytes::is_line_end))]
pub fn is_line_end(byte: u8) -> bool
    ensures { result ≡ bytes.is_line_end byte }
{
    byte == b'\r' || byte == b'\n'
}

#[tactic(auto, unfolding(crate::specs::Bytes::is_octal_digit))]
pub fn is_octal_digit(byte: u8) -> bool
    ensures { result ≡ bytes.is_octal_digit byte }
{
    b'0' <= byte && byte <= b'7'
}

#[tactic(auto, unfolding(crate::specs::Bytes::is_binary_digit))]
pub fn is_binary_digit(byte: u8) -> bool
    ensures { result ≡ bytes.is_binary_digit byte }
{
    byte == b'0' || byte == b'1'
}

#[tactic(auto, unfolding(crate::specs::Bytes::is_hex_digit))]
pub fn is_hex_digit(byte: u8) -> bool
    ensures { result ≡ bytes.is_hex_digit byte }
{
    byte.is_ascii_digit() || (b'a' <= byte && byte <= b'f') || (b'A' <= byte && byte <= b'F')
}

#[tactic(auto, unfolding(crate::specs::Bytes::is_sign))]
pub fn is_sign(byte: u8) -> bool
    ensures { result ≡ bytes.is_sign byte }
{
    byte == b'+' || byte == b'-'
}

#[tactic(auto, unfolding(crate::specs::Bytes::is_x))]
pub fn is_x(byte: u8) -> bool
    ensures { result ≡ bytes.is_x byte }
{
    byte == b'x' || byte == b'X'
}

#[tactic(auto, unfolding(crate::specs::Bytes::is_b))]
pub fn is_b(byte: u8) -> bool
    ensures { result ≡ bytes.is_b byte }
{
    byte == b'b' || byte == b'B'
}

#[tactic(auto, unfolding(crate::specs::Bytes::is_e))]
pub fn is_e(byte: u8) -> bool
    ensures { result ≡ bytes.is_e byte }
{
    byte == b'e' || byte == b'E'
}

#[tactic(auto, unfolding(crate::specs::Bytes::is_p))]
pub fn is_p(byte: u8) -> bool
    ensures { result ≡ bytes.is_p byte }
{
    byte == b'p' || byte == b'P'
}

#[tactic(auto, unfolding(crate::specs::Bytes::is_long_suffix))]
pub fn is_long_suffix(byte: u8) -> bool
    ensures { result ≡ bytes.is_long_suffix byte }
{
    byte == b'l' || byte == b'L'
}

#[tactic(auto, unfolding(crate::specs::Bytes::is_float_suffix))]
pub fn is_float_suffix(byte: u8) -> bool
    ensures { result ≡ bytes.is_float_suffix byte }
{
    byte == b'f' || byte == b'F' || byte == b'd' || byte == b'D'
}

#[tactic(auto, unfolding(crate::specs::Bytes::is_escaped))]
pub fn is_escaped(byte: u8) -> bool
    ensures { result ≡ bytes.is_escaped byte }
{
    byte.is_ascii() && !is_line_end(byte)
}

#[tactic(auto, unfolding(crate::specs::Bytes::in_literal))]
pub fn in_literal(byte: u8) -> bool
    ensures { result ≡ bytes.in_literal byte }
{
    is_escaped(byte) && byte != b'\\'
}
