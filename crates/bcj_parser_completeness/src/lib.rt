//! What the grammar derives, the parser as a function reads.
#![tactic(auto)]

ghost use Rattle.bcj_parser_rules.specs.Texts.{HasOneUnit};
ghost use Rattle.bcj_parser_completeness.specs.Laws as law;

/// Each unit of tokens within a height and a number of types is read, up to the last token.
#[tactic(auto, using(crate::proofs::Units::each_unit_is_read))]
pub fn each_unit_is_read()
    ensures { law.EachUnitIsRead }
{}

/// Behind as many types as there may be, a further one is refused at its first token.
#[tactic(auto, using(crate::proofs::Units::each_full_text_is_refused))]
pub fn each_full_text_is_refused()
    ensures { law.EachFullTextIsRefused }
{}

/// A text with its tokens derives at most one unit.
#[tactic(auto, using(crate::proofs::Units::has_one_unit))]
pub fn has_one_unit()
    ensures { HasOneUnit }
{}
