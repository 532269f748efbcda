//! The earliest kind of what a node lacks.

ghost use Rattle.std.specs.Prelude.{◌≡◌, [], ◌∷◌};
ghost use Rattle.bcj_typing_rules.specs.Premises.{need, rank, earliest_missing};
ghost use Rattle.bcj_typing_node.specs.Outcomes.{missing_with};

use bcj_typing_rules::Kind;

/// The place of a kind in the order that decides.
fn rank(kind: Kind) -> u8
    ensures { result ≡ rank kind }
{
    match kind {
        Kind::Name => 1,
        Kind::Method => 2,
        Kind::Ambiguous => 3,
        Kind::Operand => 4,
        Kind::Assign => 5,
        Kind::Final => 6,
        Kind::Static => 7,
        Kind::Abstract => 8,
        Kind::Cast => 9,
        Kind::Condition => 10,
        Kind::Return => 11,
        Kind::Local => 12,
        Kind::Jump => 13,
        Kind::Literal => 14,
        Kind::Throwable => 15,
        Kind::Access => 16,
    }
}

/// The kind of a need that isn't met.
pub fn unless(kind: Kind, is_met: bool) -> Option<Kind>
    ensures { result ≡ earliest_missing (need kind is_met ∷ []) }
{
    if is_met { None } else { Some(kind) }
}

/// The earliest kind that is missing of a need and of others before which it stands.
pub fn earlier(kind: Kind, is_met: bool, missing: Option<Kind>) -> Option<Kind>
    ensures { result ≡ missing_with kind is_met missing }
{
    if is_met {
        return missing;
    }
    match missing {
        None => Some(kind),
        Some(other) => {
            if rank(other) < rank(kind) {
                Some(other)
            } else {
                Some(kind)
            }
        }
    }
}
