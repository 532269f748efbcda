//! What the parser as a function answers hangs on the tokens that it took and on the next one alone, and on its room and its
//! limit only through `TooDeep` and `TooMany`.
#![tactic(auto)]

ghost use Rattle.bcj_parser_prefix.specs.Laws as law;

/// A larger room and a larger limit answer as smaller ones do, in front of any tokens that begin alike, but where the
/// smaller room is too low or the smaller limit is met.
pub fn units_agree()
    ensures { law.UnitsAgree }
{}

/// Where a token is refused, no unit goes on with it.
pub fn no_unit()
    ensures { law.NoUnit }
{}

/// Where a text is too deep, no unit goes on with the token that is as high as the limit at most.
pub fn too_deep()
    ensures { law.NoLowUnit }
{}
