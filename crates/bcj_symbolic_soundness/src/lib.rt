//! What the typing of symbolic units as a function accepts is what its rules type.
#![tactic(auto)]

ghost use Rattle.bcj_symbolic_soundness.specs.Laws as law;

/// An expression has a type by the rules exactly where the function finds a rule for each of its nodes and gives that type.
#[tactic(auto, using(crate::proofs::Expressions::types_decided))]
pub fn types_are_decided()
    ensures decided { law.TypesDecided }
{}

/// An expression has one type at most.
#[tactic(auto, using(crate::proofs::Expressions::types_unique))]
pub fn types_are_unique()
    ensures unique { law.TypesUnique }
{}

/// A statement has a rule where it stands, in a loop or not, exactly where the function finds one for each of its nodes.
#[tactic(auto, using(crate::proofs::Statements::statements_decided))]
pub fn statements_are_decided()
    ensures decided { law.StatementsDecided }
{}

/// The same of a list of statements.
#[tactic(auto, using(crate::proofs::Statements::bodies_decided))]
pub fn bodies_are_decided()
    ensures decided { law.BodiesDecided }
{}

/// The well-typed units are those in which the function finds no fault.
#[tactic(auto, using(crate::proofs::Units::units_decided))]
pub fn units_are_decided()
    ensures decided { law.UnitsDecided }
{}
