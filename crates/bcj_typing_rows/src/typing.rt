//! The answer to a row: the first unit typed among all of them.
ghost use Rattle.std.specs.Prelude.{All};
ghost use Rattle.bcj_parser_trees.specs.Plain.{unit_of};
ghost use Rattle.bcj_typing.specs.Answers.{HaveNoConstructor};

use crate::class::asked;
use bcj_decl::{Decls, declare};
use bcj_parser::Unit;
use bcj_symbolic_trees::SymUnit;
use bcj_typing::{Kind, Limited, TypeStop, elaborate};
use std::alloc::{AllocError, Global};

fn kind(kind: Kind) -> &'static str {
    match kind {
        Kind::Name => "name",
        Kind::Method => "method",
        Kind::Ambiguous => "ambiguous",
        Kind::Operand => "operand",
        Kind::Assign => "assign",
        Kind::Final => "final",
        Kind::Static => "static",
        Kind::Abstract => "abstract",
        Kind::Cast => "cast",
        Kind::Condition => "condition",
        Kind::Return => "return",
        Kind::Local => "local",
        Kind::Jump => "jump",
        Kind::Literal => "literal",
        Kind::Throwable => "throwable",
        Kind::Access => "access",
    }
}

fn limited(what: Limited) -> &'static str {
    match what {
        Limited::Frame => "frame",
        Limited::Method => "method",
        Limited::Object => "object",
    }
}

fn refusal(alloc: Global, stop: &TypeStop) -> Result<String, AllocError> {
    match stop {
        TypeStop::Untyped { at, kind: missing } => format!(in alloc; "{} at {at}", kind(*missing)),
        TypeStop::TooLarge { what, at } => format!(in alloc;
            "too large: {} at {at}",
            limited(*what)
        ),
        TypeStop::NoMemory => String::from_str(alloc, "no memory"),
    }
}

fn typed(alloc: Global, unit: &SymUnit, query: &str) -> Result<String, AllocError> {
    if query.is_empty() {
        return String::from_str(alloc, "typed");
    }
    asked(alloc, unit, query)
}

/// The answer to a query of the first unit's symbolic unit, `typed` to none, or why there is none.
pub fn answer(alloc: Global, units: &[Unit], query: &str) -> Result<String, AllocError>
    requires written { All (λ u. HaveNoConstructor (unit_of u)) units.now }
{
    if units.is_empty() || units.len() > u32::MAX as usize {
        return String::from_str(alloc, "not units");
    }
    match declare(alloc, units, 0) {
        Err(_) => String::from_str(alloc, "not declared"),
        Ok(decls) => match elaborate(alloc, &decls, &units[0]) {
            Err(stop) => refusal(alloc, &stop),
            Ok(unit) => typed(alloc, &unit, query),
        },
    }
}
