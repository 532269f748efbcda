ghost use Rattle.std.specs.Prelude.{◌≡◌, ◌<◌, ◌≤◌, IfOk, length, slice_range};
ghost use Rattle.std.specs.Str.{IsAscii};
ghost use Rattle.bcj_lexer.specs.Pieces.{TokensOf};
ghost use Rattle.bcj_parser_rules.specs.Lexemes as spec;

use crate::terminals::terminal_of;
use bcj_lexer::{Token, Tokens, tokens_are_ascii, tokens_in_order};
use bcj_parser_cursor::Lexeme;
use std::alloc::{AllocError, Global};

/// A token with what it is to the grammar.
#[tactic(auto, using(crate::proofs::Words::ascii_rules))]
fn lexeme_of<'a>(text: &'a [u8], token: Token) -> Lexeme<'a>
    requires order { token.start < token.end }
    requires within { token.end ≤ length text.now }
    requires ascii { IsAscii (slice_range text.now token.start token.end) }
    ensures { result ≡ spec.lexeme_of text.now token }
{
    let bytes = &text[token.start as usize..token.end as usize];
    let word = str::from_utf8(bytes).unwrap_or("");
    Lexeme::new(terminal_of(token.kind, bytes), token.start, word)
}

/// The tokens of a text with what each is to the grammar.
pub fn lexemes_of<'a>(
    alloc: Global,
    text: &'a [u8],
    tokens: &Tokens,
) -> Result<Vec<Lexeme<'a>>, AllocError>
    requires { TokensOf text.now tokens.now }
    ensures { IfOk result (λ ls. ls.items ≡ spec.lexemes_of text.now tokens.now) }
{
    tokens_in_order();
    tokens_are_ascii();
    let mut found = Vec::new(alloc);
    for token in tokens.as_slice() {
        found.push(lexeme_of(text, *token))?;
    }
    Ok(found)
}
