//! The parser of source texts: from the tokens of a text to its one unit, or to the token at which no unit goes on.
#![tactic(auto)]

mod limits;
mod parsing;

ghost use Rattle.std.specs.Prelude.{◌≡◌};
ghost use Rattle.bcj_parser_rules.specs.Texts.{HasOneUnit};
ghost use Rattle.bcj_parser.specs.Answers.{name_of};

pub use bcj_parser_rules::Construct;
pub use bcj_parser_trees::{
    Access, Base, BinOp, Catch, Expr, First, Member, Mods, Param, Stmt, TypeDecl, TypeName,
    UnaryOp, Unit,
};
pub use parsing::parse;
use std::fmt;
use thiserror::Error;

/// Why a text is no unit; `at` is the first byte of a token, or the length of the text where it ends too early.
#[derive(Drop, Error)]
pub enum ParseStop {
    /// No unit goes on with the token at this place.
    #[error("syntax")]
    Syntax { at: u32 },
    /// No unit goes on with the token at this place, which stands for a construct that is left out of the language.
    #[error("not in profile: {}", name(*what))]
    NotInProfile { at: u32, what: Construct },
    /// No unit that is at most 256 high goes on with the token at this place.
    #[error("too deep")]
    TooDeep { at: u32 },
    /// A type behind 64 others begins at this place.
    #[error("too many types")]
    TooMany { at: u32 },
    #[error("out of memory")]
    NoMemory,
}

impl fmt::Debug for ParseStop {
    fn fmt<W: fmt::Write>(&self, f: &mut fmt::Formatter<W>) -> Result<(), fmt::Error> {
        fmt::Display::fmt(self, f)
    }
}

/// A construct that is left out of the language, as messages name it.
pub fn name(construct: Construct) -> &'static str
    ensures { result.now ≡ name_of construct }
{
    match construct {
        Construct::Type => "type",
        Construct::String => "string",
        Construct::Package => "package",
        Construct::Import => "import",
        Construct::Enum => "enum",
        Construct::Annotation => "annotation",
        Construct::Varargs => "varargs",
        Construct::Assert => "assert",
        Construct::NestedClass => "nested class",
        Construct::Final => "final",
        Construct::Modifier => "modifier",
        Construct::Switch => "switch",
        Construct::Finally => "finally",
        Construct::Generics => "generics",
        Construct::InitialiserBlock => "initialiser block",
        Construct::ArrayInitialiser => "array initialiser",
        Construct::AnonymousClass => "anonymous class",
        Construct::Brackets => "brackets",
        Construct::Dimensions => "dimensions",
        Construct::EnhancedFor => "enhanced for",
        Construct::Label => "label",
        Construct::MultiCatch => "multi-catch",
        Construct::Resources => "resources",
    }
}

/// A text with its tokens derives at most one unit.
#[tactic(auto, using(bcj_parser_completeness::proofs::Units::has_one_unit))]
pub fn one_unit()
    ensures { HasOneUnit }
{}
