ghost use Rattle.std.specs.Prelude.{◌≡◌, ◌<◌, ◌^◌, ℕ, length, IfOk};
ghost use Rattle.std.specs.Result.{IfErr};
ghost use Rattle.bcj_lexer.specs.Pieces.{TokensOf};
ghost use Rattle.bcj_parser_trees.specs.Trees.{PlainUnit};
ghost use Rattle.bcj_parser_trees.specs.Plain.{unit_of};
ghost use Rattle.bcj_parser_rules.specs.Grammar.{derives};
ghost use Rattle.bcj_parser_rules.specs.Lexemes as lexeme;
ghost use Rattle.bcj_parser_rules.specs.LeftOut as spec;
ghost use Rattle.bcj_parser_rules.specs.Texts as text_is;
ghost use Rattle.bcj_parser_rules.specs.Texts.{IsUnit};
ghost use Rattle.bcj_parser.specs.Answers.{StopCause};
ghost use Rattle.bcj_parser.specs.function.Answer as answer;

use crate::ParseStop;
use crate::limits::{type_limit, unit_room};
use bcj_lexer::Tokens;
use bcj_parser_cursor::{Cursor, Lexeme};
use bcj_parser_declaration::unit;
use bcj_parser_lexemes::lexemes_of;
use bcj_parser_refusal::{construct_at, place_of};
use bcj_parser_rules::{Site, Stop};
use bcj_parser_trees::Unit;
use sqlite_items::Items;
use std::alloc::Global;

/// The refusal of the next token.
fn refusal(text: &[u8], before: &[Lexeme<'_>], from: &Cursor<'_>, site: Site) -> ParseStop
    requires { length text.now < 2 ^ 32 }
    ensures { result ≡ answer.refusal (text_is.place_of text.now from.now) (spec.construct_at site before.now from.now) }
{
    let at = place_of(text, from);
    match construct_at(site, before, from) {
        Some(what) => ParseStop::NotInProfile { at, what },
        None => ParseStop::Syntax { at },
    }
}

/// Why the tokens of a text aren't read, where such tokens are left.
fn stop_at(text: &[u8], lexemes: &[Lexeme<'_>], from: &Cursor<'_>, stop: Stop) -> ParseStop
    requires { length text.now < 2 ^ 32 }
    ensures { result ≡ answer.stop_at text.now lexemes.now from.now stop }
{
    match stop {
        Stop::Refused(site) => {
            let before = &lexemes[..lexemes.len().saturating_sub(from.len())];
            refusal(text, before, from, site)
        }
        Stop::TooDeep => ParseStop::TooDeep {
            at: place_of(text, from),
        },
        Stop::TooMany => ParseStop::TooMany {
            at: place_of(text, from),
        },
        Stop::NoMemory => ParseStop::NoMemory,
    }
}

/// The answer of `parse`.
fn read(alloc: Global, text: &[u8], tokens: &Tokens) -> Result<Unit, ParseStop>
    requires tokens { TokensOf text.now tokens.now }
    requires size { length text.now < 2 ^ 32 }
    ensures { answer.Answers (answer.answer text.now (lexeme.lexemes_of text.now tokens.now)) result }
{
    let Ok(lexemes) = lexemes_of(alloc, text, tokens) else {
        return Err(ParseStop::NoMemory);
    };
    let mut cursor = Cursor::new(lexemes.as_slice());
    match unit(alloc, &mut cursor, unit_room(), type_limit()) {
        Ok((types, _)) => Ok(Unit {
            types: Items::from_vec(types),
        }),
        Err(stop) => Err(stop_at(text, lexemes.as_slice(), &cursor, stop)),
    }
}

/// The unit of a text with its tokens: one of the grammar that has at most 64 types and is at most 256 high.
///
/// # Errors
///
/// `Syntax` or `NotInProfile` at a token with which no unit goes on; `TooDeep` at one with which none goes on that is at most
/// 256 high; `TooMany` at the 65th type; `NoMemory`.
#[tactic(auto, using(crate::proofs::Outcomes::is_unit, crate::proofs::Outcomes::only_unit, crate::proofs::Outcomes::stop_cause))]
pub fn parse(alloc: Global, text: &[u8], tokens: &Tokens) -> Result<Unit, ParseStop>
    requires tokens { TokensOf text.now tokens.now }
    requires size { length text.now < 2 ^ 32 }
    ensures ok { IfOk result (λ u. IsUnit text.now tokens.now (unit_of u)) }
    ensures only { IfOk result (λ u. (v : PlainUnit) (h : ℕ) → derives text.now tokens.now v h → unit_of u ≡ v) }
    ensures complete { (v : PlainUnit) → IsUnit text.now tokens.now v → IfErr result (λ e. e ≡ ParseStop.NoMemory) }
    ensures stops { IfErr result (λ e. StopCause text.now tokens.now e) }
{
    read(alloc, text, tokens)
}
