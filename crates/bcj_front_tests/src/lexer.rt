use bcj_lexer::{
    LexStop, Token, TokenKind, Tokens, lex, one_cutting, tokens_are_ascii, tokens_in_order,
};
use std::test::Fail;

#[test]
fn texts_have_their_tokens(rt: HostRuntime) -> Result<(), Fail> {
    let tokens = lex(rt.alloc(), b"a 1")?;
    let name = Token {
        kind: TokenKind::Identifier,
        start: 0,
        end: 1,
    };
    let number = Token {
        kind: TokenKind::Int,
        start: 2,
        end: 3,
    };
    assert_eq!(rt; tokens.as_slice(), [name, number].as_slice());
    let mut names = Tokens::new(rt.alloc());
    names.push(name)?;
    assert_eq!(rt; names.len(), 1);
    assert_eq!(rt; names.get(0), tokens.get(0));
    assert!(rt; matches!(lex(rt.alloc(), b"a #"), Err(LexStop::Bad { at: 2 })));
    one_cutting();
    tokens_in_order();
    tokens_are_ascii();
    Ok(())
}
