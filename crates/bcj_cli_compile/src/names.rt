// What refusals name what is missing by, and what is too large.
ghost use Rattle.std.specs.Prelude.{◌≡◌};
ghost use Rattle.bcj_cli_compile.specs.Names as spec;

use bcj_typing::{Kind, Limited};

pub fn kind_name(kind: Kind) -> &'static str
    ensures { result.now ≡ spec.kind_name kind }
{
    match kind {
        Kind::Name => "name",
        Kind::Method => "method",
        Kind::Ambiguous => "ambiguous",
        Kind::Operand => "operand",
        Kind::Assign => "assign",
        Kind::Final => "final",
        Kind::Static => "static",
        Kind::Abstract => "abstract",
        Kind::Cast => "cast",
        Kind::Condition => "condition",
        Kind::Return => "return",
        Kind::Local => "local",
        Kind::Jump => "jump",
        Kind::Literal => "literal",
        Kind::Throwable => "throwable",
        Kind::Access => "access",
    }
}

pub fn limit_name(what: Limited) -> &'static str
    ensures { result.now ≡ spec.limit_name what }
{
    match what {
        Limited::Frame => "frame",
        Limited::Method => "method",
        Limited::Object => "object",
    }
}
