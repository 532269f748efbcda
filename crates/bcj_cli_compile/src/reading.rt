// The units of source texts.
ghost use Rattle.std.specs.Prelude.{◌≡◌, ◌<◌, ◌≤◌, ◌+◌, ◌^◌, ℕ, All, OnOk, IfOk, length, map, take, vec_len};
ghost use Rattle.std.specs.Result.{IfErr};
ghost use Rattle.std.specs.List.{AllZip};
ghost use Rattle.bcj_lexer.specs.Pieces.{TokensOf};
ghost use Rattle.bcj_lexer.specs.Answers.{max_source_bytes};
ghost use Rattle.bcj_parser_trees.specs.Plain.{unit_of};
ghost use Rattle.bcj_cli_compile.specs.Answers.{IsStop, IsTextStop};
ghost use Rattle.bcj_cli_compile.specs.Texts.{Parses};

use crate::stop::{CompileStop, refusal};
use bcj_edge::Blobs;
use bcj_lexer::{LexStop, Tokens, lex, one_cutting};
use bcj_parser::{ParseStop, name, parse};
use bcj_parser_trees::Unit;
use std::alloc::Global;

/// The tokens of the source with this number.
fn tokens(alloc: Global, file: u32, text: &[u8]) -> Result<Tokens, CompileStop>
    requires { length text.now ≤ max_source_bytes }
    ensures ok { IfOk result (λ tokens. TokensOf text.now tokens) }
    ensures stopped { IfErr result (λ stop. IsTextStop text.now file stop) }
{
    match lex(alloc, text) {
        Ok(tokens) => Ok(tokens),
        Err(LexStop::Bad { at }) => Err(refusal(alloc, file, at, "bad character", "")),
        Err(LexStop::TooLong) | Err(LexStop::NoMemory) => Err(CompileStop::NoMemory),
    }
}

/// The unit of its tokens.
fn parsed(alloc: Global, file: u32, text: &[u8], tokens: &Tokens) -> Result<Unit, CompileStop>
    requires short { length text.now ≤ max_source_bytes }
    requires tokens { TokensOf text.now tokens.now }
    ensures ok { IfOk result (λ unit. Parses text.now (unit_of unit)) }
    ensures stopped { IfErr result (λ stop. IsTextStop text.now file stop) }
{
    one_cutting();
    match parse(alloc, text, tokens) {
        Ok(unit) => Ok(unit),
        Err(ParseStop::Syntax { at }) => Err(refusal(alloc, file, at, "syntax", "")),
        Err(ParseStop::NotInProfile { at, what }) => {
            Err(refusal(alloc, file, at, "not in profile: ", name(what)))
        }
        Err(ParseStop::TooDeep { at }) => Err(refusal(alloc, file, at, "too deep", "")),
        Err(ParseStop::TooMany { at }) => Err(refusal(alloc, file, at, "too many types", "")),
        Err(ParseStop::NoMemory) => Err(CompileStop::NoMemory),
    }
}

/// The unit of a text.
fn unit(alloc: Global, file: u32, text: &[u8]) -> Result<Unit, CompileStop>
    requires { length text.now ≤ max_source_bytes }
    ensures ok { IfOk result (λ unit. Parses text.now (unit_of unit)) }
    ensures stopped { IfErr result (λ stop. IsTextStop text.now file stop) }
{
    let tokens = tokens(alloc, file, text)?;
    parsed(alloc, file, text, &tokens)
}

/// Puts the unit of a source behind those of the sources before it.
fn push_unit(
    alloc: Global,
    sources: &Blobs,
    file: u32,
    units: &mut Vec<Unit>,
) -> Result<(), CompileStop>
    requires there { file < length sources.now }
    requires short { All (λ s. length s ≤ max_source_bytes) sources.now }
    requires before { AllZip Parses (take file sources.now) (map unit_of units.old.items) }
    ensures ok { OnOk result (AllZip Parses (take (file + 1) sources.now) (map unit_of units.new.items)) }
    ensures stopped { IfErr result (λ stop. (own : ℕ) → IsStop sources.now own stop) }
{
    one_cutting();
    let Some(text) = sources.get(file as usize) else {
        return Ok(());
    };
    let unit = unit(alloc, file, text.as_slice())?;
    match units.push(unit) {
        Ok(()) => Ok(()),
        Err(_) => Err(CompileStop::NoMemory),
    }
}

/// The unit of each source.
pub fn units_of(alloc: Global, sources: &Blobs) -> Result<Vec<Unit>, CompileStop>
    requires few { length sources.now < 2 ^ 32 }
    requires short { All (λ s. length s ≤ max_source_bytes) sources.now }
    ensures ok { IfOk result (λ units. AllZip Parses sources.now (map unit_of units.items)) }
    ensures stopped { IfErr result (λ stop. (own : ℕ) → IsStop sources.now own stop) }
{
    let mut units = Vec::new(alloc);
    for file in 0..sources.len() as u32 {
        push_unit(alloc, sources, file, &mut units)?;
    }
    Ok(units)
}
