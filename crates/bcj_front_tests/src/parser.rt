use bcj_lexer::lex;
use bcj_parser::{one_unit, parse};
use std::test::Fail;

#[test]
fn texts_are_units(rt: HostRuntime) -> Result<(), Fail> {
    let text = b"class A{}";
    let tokens = lex(rt.alloc(), text)?;
    let unit = parse(rt.alloc(), text, &tokens)?;
    assert_eq!(rt; unit.types.as_slice().len(), 1);
    one_unit();
    Ok(())
}

#[test]
fn refusals_have_texts(rt: HostRuntime) -> Result<(), Fail> {
    let text = b"enum E{}";
    let tokens = lex(rt.alloc(), text)?;
    let refusal = parse(rt.alloc(), text, &tokens).err();
    let said = format!(in rt.alloc(); "{refusal:?}")?;
    assert_eq!(rt; said.as_str(), "Some(not in profile: enum)");
    Ok(())
}
