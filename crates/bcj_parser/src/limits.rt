//! The limits of a text.

ghost use Rattle.std.specs.Prelude.{◌≡◌};
ghost use Rattle.bcj_parser_rules.specs.Limits as limit;
ghost use Rattle.bcj_parser_rules.specs.function.Declarations as rule;

/// How high a unit may be.
const MAX_HEIGHT: u32 = 256;

/// A type, a member and a statement stand above the expressions of a unit.
const LEVELS_ABOVE: u32 = 3;

/// How many types a unit may have.
const MAX_TYPES: u32 = 64;

/// How high the expressions of a unit may be.
pub fn unit_room() -> u32
    ensures { result ≡ rule.unit_room }
{
    MAX_HEIGHT - LEVELS_ABOVE
}

/// How many types a unit may have.
pub fn type_limit() -> u32
    ensures { result ≡ limit.max_types }
{
    MAX_TYPES
}
