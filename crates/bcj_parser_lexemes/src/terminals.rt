//! What tokens are to the grammar.

ghost use Rattle.std.specs.Prelude.{◌≡◌, map};
ghost use Rattle.bcj_parser_rules.specs.Lexemes as spec;

use bcj_lexer::TokenKind;
use bcj_parser_rules::{Construct, Terminal};
use bcj_parser_trees::BinOp;

/// The reserved words but `goto` and `const` (JLS 3.9).
const RESERVED: [(&[u8], Terminal); 51] = [
    (b"abstract", Terminal::Abstract),
    (b"boolean", Terminal::Boolean),
    (b"break", Terminal::Break),
    (b"catch", Terminal::Catch),
    (b"class", Terminal::Class),
    (b"continue", Terminal::Continue),
    (b"do", Terminal::Do),
    (b"else", Terminal::Else),
    (b"extends", Terminal::Extends),
    (b"false", Terminal::False),
    (b"final", Terminal::Final),
    (b"for", Terminal::For),
    (b"if", Terminal::If),
    (b"implements", Terminal::Implements),
    (b"instanceof", Terminal::InstanceOf),
    (b"int", Terminal::IntType),
    (b"interface", Terminal::Interface),
    (b"new", Terminal::New),
    (b"null", Terminal::Null),
    (b"private", Terminal::Private),
    (b"protected", Terminal::Protected),
    (b"public", Terminal::Public),
    (b"return", Terminal::Return),
    (b"static", Terminal::Static),
    (b"super", Terminal::Super),
    (b"this", Terminal::This),
    (b"throw", Terminal::Throw),
    (b"throws", Terminal::Throws),
    (b"true", Terminal::True),
    (b"try", Terminal::Try),
    (b"void", Terminal::Void),
    (b"while", Terminal::While),
    (b"char", Terminal::LeftOut(Construct::Type)),
    (b"byte", Terminal::LeftOut(Construct::Type)),
    (b"short", Terminal::LeftOut(Construct::Type)),
    (b"long", Terminal::LeftOut(Construct::Type)),
    (b"float", Terminal::LeftOut(Construct::Type)),
    (b"double", Terminal::LeftOut(Construct::Type)),
    (b"package", Terminal::LeftOut(Construct::Package)),
    (b"import", Terminal::LeftOut(Construct::Import)),
    (b"enum", Terminal::LeftOut(Construct::Enum)),
    (b"assert", Terminal::LeftOut(Construct::Assert)),
    (b"synchronized", Terminal::LeftOut(Construct::Modifier)),
    (b"native", Terminal::LeftOut(Construct::Modifier)),
    (b"strictfp", Terminal::LeftOut(Construct::Modifier)),
    (b"transient", Terminal::LeftOut(Construct::Modifier)),
    (b"volatile", Terminal::LeftOut(Construct::Modifier)),
    (b"switch", Terminal::LeftOut(Construct::Switch)),
    (b"case", Terminal::LeftOut(Construct::Switch)),
    (b"default", Terminal::LeftOut(Construct::Switch)),
    (b"finally", Terminal::LeftOut(Construct::Finally)),
];

/// The separators (JLS 3.11), `...` and `@`.
const SEPARATORS: [(&[u8], Terminal); 11] = [
    (b"(", Terminal::LeftParen),
    (b")", Terminal::RightParen),
    (b"{", Terminal::LeftBrace),
    (b"}", Terminal::RightBrace),
    (b"[", Terminal::LeftBracket),
    (b"]", Terminal::RightBracket),
    (b";", Terminal::Semicolon),
    (b",", Terminal::Comma),
    (b".", Terminal::Dot),
    (b"...", Terminal::LeftOut(Construct::Varargs)),
    (b"@", Terminal::LeftOut(Construct::Annotation)),
];

/// The operators (JLS 3.12).
const OPERATORS: [(&[u8], Terminal); 37] = [
    (b"=", Terminal::Assign),
    (b"!", Terminal::Not),
    (b"~", Terminal::Flip),
    (b"?", Terminal::Question),
    (b":", Terminal::Colon),
    (b"++", Terminal::Increment),
    (b"--", Terminal::Decrement),
    (b"||", Terminal::Operator(BinOp::OrElse)),
    (b"&&", Terminal::Operator(BinOp::AndAlso)),
    (b"|", Terminal::Operator(BinOp::Or)),
    (b"^", Terminal::Operator(BinOp::Xor)),
    (b"&", Terminal::Operator(BinOp::And)),
    (b"==", Terminal::Operator(BinOp::Eq)),
    (b"!=", Terminal::Operator(BinOp::Ne)),
    (b"<", Terminal::Operator(BinOp::Lt)),
    (b">", Terminal::Operator(BinOp::Gt)),
    (b"<=", Terminal::Operator(BinOp::Le)),
    (b">=", Terminal::Operator(BinOp::Ge)),
    (b"<<", Terminal::Operator(BinOp::Shl)),
    (b">>", Terminal::Operator(BinOp::Shr)),
    (b">>>", Terminal::Operator(BinOp::Ushr)),
    (b"+", Terminal::Operator(BinOp::Add)),
    (b"-", Terminal::Operator(BinOp::Sub)),
    (b"*", Terminal::Operator(BinOp::Mul)),
    (b"/", Terminal::Operator(BinOp::Div)),
    (b"%", Terminal::Operator(BinOp::Rem)),
    (b"|=", Terminal::Compound(BinOp::Or)),
    (b"^=", Terminal::Compound(BinOp::Xor)),
    (b"&=", Terminal::Compound(BinOp::And)),
    (b"<<=", Terminal::Compound(BinOp::Shl)),
    (b">>=", Terminal::Compound(BinOp::Shr)),
    (b">>>=", Terminal::Compound(BinOp::Ushr)),
    (b"+=", Terminal::Compound(BinOp::Add)),
    (b"-=", Terminal::Compound(BinOp::Sub)),
    (b"*=", Terminal::Compound(BinOp::Mul)),
    (b"/=", Terminal::Compound(BinOp::Div)),
    (b"%=", Terminal::Compound(BinOp::Rem)),
];

/// The terminal of a word of a table.
fn terminal_in(table: &[(&[u8], Terminal)], word: &[u8]) -> Terminal
    ensures { result ≡ spec.terminal_in (map (λ e. record { word = e.0.now; terminal = e.1 }) table.now) word.now }
{
    for (known, terminal) in table {
        if word == *known {
            return *terminal;
        }
    }
    Terminal::Unused
}

/// The terminal of a token of a kind that spells such a word.
pub fn terminal_of(kind: TokenKind, word: &[u8]) -> Terminal
    ensures { result ≡ spec.terminal_of kind word.now }
{
    match kind {
        TokenKind::Identifier => Terminal::Identifier,
        TokenKind::Reserved => terminal_in(&RESERVED, word),
        TokenKind::Int => Terminal::Int,
        TokenKind::Long => Terminal::LeftOut(Construct::Type),
        TokenKind::Float => Terminal::LeftOut(Construct::Type),
        TokenKind::Str => Terminal::LeftOut(Construct::String),
        TokenKind::Char => Terminal::LeftOut(Construct::Type),
        TokenKind::Separator => terminal_in(&SEPARATORS, word),
        TokenKind::Operator => terminal_in(&OPERATORS, word),
    }
}
