ghost use Rattle.std.specs.Prelude.{◌≡◌};
ghost use Rattle.std.specs.Option.{option_map};
ghost use Rattle.bcj_decl_rules.specs.Faults as rules;
ghost use Rattle.bcj_decl_faults.specs.Refusals.{refusal_of, spot_of};
ghost use Rattle.bcj_decl_faults.specs.Spots.{comes_before, earlier};

use bcj_names::Name;

/// What is refused.
#[derive(Drop)]
pub enum Refusal {
    /// A type before it has its name.
    Duplicate(Name),
    /// No type has this name.
    Unknown(Name),
    /// A head names a type of the wrong kind, an interface twice, or its type stands above itself.
    BadHierarchy,
    /// A member must not be as it is, or a class lacks one.
    BadMember,
}

/// A fault with its file, counted from 0, and the first byte of the type or member.
#[derive(Drop)]
pub struct Fault {
    pub file: u32,
    pub at: u32,
    pub refusal: Refusal,
}

/// A fault in a file.
#[derive(Drop)]
pub struct Found {
    pub at: u32,
    pub refusal: Refusal,
}

fn rank(refusal: &Refusal) -> u32
    ensures { result ≡ rules.rank (refusal_of refusal.now) }
{
    match refusal {
        Refusal::Duplicate(_) => 1,
        Refusal::Unknown(_) => 2,
        Refusal::BadHierarchy => 3,
        Refusal::BadMember => 4,
    }
}

fn comes_before(found: &Found, other: &Found) -> bool
    ensures { result ≡ comes_before (spot_of found.now) (spot_of other.now) }
{
    found.at < other.at || (found.at == other.at && rank(&found.refusal) < rank(&other.refusal))
}

/// The one that comes first; the first of two that come together.
pub fn earlier(found: Option<Found>, other: Option<Found>) -> Option<Found>
    ensures { option_map spot_of result ≡ earlier (option_map spot_of found) (option_map spot_of other) }
{
    match found {
        None => other,
        Some(found) => match other {
            None => Some(found),
            Some(other) => {
                if comes_before(&other, &found) {
                    Some(other)
                } else {
                    Some(found)
                }
            }
        },
    }
}
