//! What the parser as a function reads, the grammar derives.
#![tactic(auto)]

ghost use Rattle.bcj_parser_soundness.specs.Laws as law;

/// A unit that is read is derived, and within the limits; what is refused as too many types stands behind as many types as a
/// unit may have.
#[tactic(auto, using(crate::proofs::Units::unit_sound))]
pub fn each_read_unit_is_derived()
    ensures derived { law.EachReadUnitIsDerived }
{}
