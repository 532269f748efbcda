ghost use Rattle.std.specs.Prelude.{◌≡◌, ◌<◌, ◌^◌, length};
ghost use Rattle.bcj_parser_rules.specs.Texts as texts;

use bcj_parser_cursor::Cursor;

/// The first byte of the next token, or the end of the text.
pub fn place_of(text: &[u8], from: &Cursor<'_>) -> u32
    requires { length text.now < 2 ^ 32 }
    ensures { result ≡ texts.place_of text.now from.now }
{
    if from.len() == 0 {
        text.len() as u32
    } else {
        from.at()
    }
}
