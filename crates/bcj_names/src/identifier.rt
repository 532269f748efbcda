ghost use Rattle.std.specs.Prelude.{◌≡◌};
ghost use Rattle.std.specs.List.{list_all, list_any};
ghost use Rattle.std.specs.Str.{bytes_eq};
ghost use Rattle.bcj_names.specs.Identifiers as spec;

/// The keywords, and the literals that are spelled as words.
const RESERVED: [&[u8]; 53] = [
    b"abstract",
    b"assert",
    b"boolean",
    b"break",
    b"byte",
    b"case",
    b"catch",
    b"char",
    b"class",
    b"const",
    b"continue",
    b"default",
    b"do",
    b"double",
    b"else",
    b"enum",
    b"extends",
    b"final",
    b"finally",
    b"float",
    b"for",
    b"goto",
    b"if",
    b"implements",
    b"import",
    b"instanceof",
    b"int",
    b"interface",
    b"long",
    b"native",
    b"new",
    b"package",
    b"private",
    b"protected",
    b"public",
    b"return",
    b"short",
    b"static",
    b"strictfp",
    b"super",
    b"switch",
    b"synchronized",
    b"this",
    b"throw",
    b"throws",
    b"transient",
    b"try",
    b"void",
    b"volatile",
    b"while",
    b"true",
    b"false",
    b"null",
];

/// Whether an identifier may begin with this byte.
pub fn can_begin(b: u8) -> bool
    ensures { result ≡ spec.begins_identifier b }
{
    matches!(b, b'A'..=b'Z' | b'a'..=b'z' | b'$' | b'_')
}

/// Whether an identifier may have this byte behind its first.
pub fn can_go_on(b: u8) -> bool
    ensures { result ≡ spec.in_identifier b }
{
    can_begin(b) || b.is_ascii_digit()
}

fn is_among(name: &[u8], words: &[&[u8]]) -> bool
    ensures { result ≡ list_any (λ word. bytes_eq word.now name.now) words.now }
{
    for word in words {
        if *word == name {
            return true;
        }
    }
    false
}

/// Whether it is a reserved word.
#[tactic(auto, unfolding(crate::specs::Identifiers::is_reserved, crate::specs::Identifiers::reserved_words))]
pub fn is_reserved(name: &[u8]) -> bool
    ensures { result ≡ spec.is_reserved name.now }
{
    is_among(name, &RESERVED)
}

fn all_go_on(bytes: &[u8]) -> bool
    ensures { result ≡ list_all spec.in_identifier bytes.now }
{
    bytes.iter().all(|b| can_go_on(*b))
}

/// Whether it has the shape of an identifier, as reserved words have too.
pub fn is_word(name: &[u8]) -> bool
    ensures { result ≡ spec.is_word name.now }
{
    match name {
        [] => false,
        [first, others @ ..] => can_begin(*first) && all_go_on(others),
    }
}

/// Whether it is an identifier of ASCII characters.
#[tactic(auto, unfolding(crate::specs::Identifiers::is_identifier))]
pub fn is_identifier(name: &[u8]) -> bool
    ensures { result ≡ spec.is_identifier name.now }
{
    is_word(name) && !is_reserved(name)
}
