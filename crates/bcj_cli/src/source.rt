// From source bytes to what a run prints.
ghost use Rattle.std.specs.Prelude.{◌≡◌, ◌++◌, ◌≤◌, ◌<◌, length, IfOk, IsErrOf};
ghost use Rattle.std.specs.Result.{IfErr};
ghost use Rattle.bcj_cli_language.specs.Bounds.{IsBounded, max_turns};
ghost use Rattle.bcj_cli_language.specs.Meaning.{meaning, printed};
ghost use Rattle.bcj_cli_language.specs.Plain.{acts_of};
ghost use Rattle.bcj_cli_code.specs.function.Code.{program_words};
ghost use Rattle.bcj_cli_code.specs.Correct.{ending};
ghost use Rattle.bcj_cli_code.specs.Sizes.{max_words};
ghost use Rattle.bcj_lexer.specs.Pieces.{TokensOf};
ghost use Rattle.bcj_parser_trees.specs.Plain.{unit_of};
ghost use Rattle.bcj_cli_unit.specs.Program.{IsProgramOf};
ghost use Rattle.bcj_cli.specs.function.Ends.{is_done};
ghost use Rattle.bcj_lexer.specs.Answers.{max_source_bytes};
ghost use Rattle.bcj_cli_compile.specs.Texts.{Parses};
ghost use Rattle.bcj_cli.specs.Sources.{IsRun};
ghost use Rattle.bcj_cli.specs.function.Texts.{IsSourceStop, IsRefusalText};

use bcj_cli_code::{Cause, CompileStop, Ending, Ran, compile, execute};
use bcj_cli_language::Statement;
use bcj_cli_unit::{UnitStop, convert, programs_are_the_fitting_units};
use bcj_lexer::{LexStop, Tokens, lex, one_cutting};
use bcj_parser::{ParseStop, name, one_unit, parse};
use bcj_parser_trees::Unit;
use sqlite_items::Items;
use std::alloc::{AllocError, Global};

/// What a run printed, and whether it came to its end before its turns were spent.
#[derive(Drop)]
pub struct Printed {
    pub out: Vec<u8>,
    pub finished: bool,
}

/// Why a source didn't run.
#[derive(Drop)]
pub enum SourceStop {
    /// It spells no program; the text is what is said of it behind the name of its file.
    Refused(String),
    NoMemory,
}

/// Reads a source, compiles it and runs its words.
pub fn run_source(alloc: Global, main: &str, text: &[u8], turns: u32) -> Result<Printed, SourceStop>
    requires short { length text.now ≤ max_source_bytes }
    requires turns { turns ≤ max_turns }
    ensures ok { IfOk result (λ r. IsRun main.now text.now turns r.finished r.out.items) }
    ensures stopped { IfErr result (λ stop. IsSourceStop main.now text.now stop) }
{
    one_cutting();
    one_unit();
    programs_are_the_fitting_units();
    let tokens = tokens(alloc, main, text)?;
    let unit = unit(alloc, main, text, &tokens)?;
    let body = body(alloc, main, text, &unit)?;
    let words = words(alloc, main, text, &unit, body.as_slice())?;
    match execute(alloc, words.as_slice(), turns) {
        Ok(ran) => Ok(Printed {
            finished: is_done(ran.cause),
            out: ran.out,
        }),
        Err(AllocError) => Err(SourceStop::NoMemory),
    }
}

/// What is said of a source behind its file's name.
fn refusal(alloc: Global, at: u32, kind: &str, what: &str) -> SourceStop
    ensures { IsRefusalText at (kind.now ++ what.now) result }
{
    match format!(in alloc; ":{at}: {kind}{what}") {
        Ok(told) => SourceStop::Refused(told),
        Err(AllocError) => SourceStop::NoMemory,
    }
}

fn tokens(alloc: Global, main: &str, text: &[u8]) -> Result<Tokens, SourceStop>
    requires { length text.now ≤ max_source_bytes }
    ensures ok { IfOk result (λ tokens. TokensOf text.now tokens) }
    ensures stopped { IfErr result (λ stop. IsSourceStop main.now text.now stop) }
{
    match lex(alloc, text) {
        Ok(tokens) => Ok(tokens),
        Err(LexStop::Bad { at }) => Err(refusal(alloc, at, "bad character", "")),
        Err(LexStop::TooLong) | Err(LexStop::NoMemory) => Err(SourceStop::NoMemory),
    }
}

fn unit(alloc: Global, main: &str, text: &[u8], tokens: &Tokens) -> Result<Unit, SourceStop>
    requires short { length text.now ≤ max_source_bytes }
    requires tokens { TokensOf text.now tokens.now }
    ensures ok { IfOk result (λ unit. Parses text.now (unit_of unit)) }
    ensures stopped { IfErr result (λ stop. IsSourceStop main.now text.now stop) }
{
    one_cutting();
    match parse(alloc, text, tokens) {
        Ok(unit) => Ok(unit),
        Err(ParseStop::Syntax { at }) => Err(refusal(alloc, at, "syntax", "")),
        Err(ParseStop::NotInProfile { at, what }) => {
            Err(refusal(alloc, at, "not in profile: ", name(what)))
        }
        Err(ParseStop::TooDeep { at }) => Err(refusal(alloc, at, "too deep", "")),
        Err(ParseStop::TooMany { at }) => Err(refusal(alloc, at, "too many types", "")),
        Err(ParseStop::NoMemory) => Err(SourceStop::NoMemory),
    }
}

fn body(alloc: Global, main: &str, text: &[u8], unit: &Unit) -> Result<Items<Statement>, SourceStop>
    requires { Parses text.now (unit_of unit.now) }
    ensures ok { IfOk result (λ body. IsProgramOf main.now (unit_of unit.now) (acts_of body)) }
    ensures bounded { IfOk result (λ body. IsBounded (acts_of body)) }
    ensures stopped { IfErr result (λ stop. IsSourceStop main.now text.now stop) }
{
    one_cutting();
    one_unit();
    programs_are_the_fitting_units();
    match convert(alloc, main, unit) {
        Ok(body) => Ok(body),
        Err(UnitStop::NotBuilt { at }) => Err(refusal(alloc, at, "not built yet", "")),
        Err(UnitStop::NoMemory) => Err(SourceStop::NoMemory),
    }
}

fn words(
    alloc: Global,
    main: &str,
    text: &[u8],
    unit: &Unit,
    body: &[Statement],
) -> Result<Vec<u32>, SourceStop>
    requires parsed { Parses text.now (unit_of unit.now) }
    requires meant { IsProgramOf main.now (unit_of unit.now) (acts_of body.now) }
    requires bounded { IsBounded (acts_of body.now) }
    ensures ok { IfOk result (λ words. words.items ≡ program_words (acts_of body.now)) }
    ensures short { IfOk result (λ words. length (program_words (acts_of body.now)) ≤ max_words) }
    ensures stopped { IfErr result (λ stop. IsSourceStop main.now text.now stop) }
{
    one_cutting();
    one_unit();
    programs_are_the_fitting_units();
    match compile(alloc, body) {
        Ok(words) => Ok(words),
        Err(CompileStop::TooLong) => Err(refusal(alloc, 0, "not built yet", "")),
        Err(CompileStop::NoMemory) => Err(SourceStop::NoMemory),
    }
}

/// No other cause than the end of the program and the end of its turns comes.
fn is_done(cause: Cause) -> bool
    ensures { result ≡ is_done cause }
{
    match cause {
        Cause::Ended(Ending::Done) => true,
        Cause::Ended(Ending::TurnsSpent) | Cause::Faulted(_) | Cause::OutOfInstructions => false,
    }
}
