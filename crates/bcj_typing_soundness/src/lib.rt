//! What elaboration makes of a unit is well typed.
#![tactic(auto)]

ghost use Rattle.bcj_typing_soundness.specs.Laws as law;

/// In each frame that agrees with its context, what an expression becomes has the expression's type.
#[tactic(auto, using(crate::proofs::Expressions::each_expression, crate::proofs::Expressions::each_argument, crate::proofs::Expressions::each_place))]
pub fn expressions_are_typed()
    ensures expressions { law.ExpressionsTyped }
    ensures arguments { law.ArgumentsTyped }
    ensures places { law.PlacesTyped }
{}

/// The same of statements: what they become has a rule.
#[tactic(auto, using(crate::proofs::Statements::each_statement, crate::proofs::Statements::each_body))]
pub fn statements_are_typed()
    ensures statements { law.StatementsTyped }
    ensures bodies { law.BodiesTyped }
{}

/// A constant field's value is one of the field's type.
#[tactic(auto, using(crate::proofs::Worths::each_constant))]
pub fn constants_are_typed()
    ensures constants { law.ConstantsTyped }
{}

/// Where nothing is refused of well-formed units, their world gives what the typing of bodies rests on.
pub fn worlds_are_sound()
    ensures sound { law.WorldsSound }
{}

/// Where nothing is refused of units, each of which the grammar derives from some text within 64 types and 256 levels, what
/// elaboration makes of one of them is well typed; and the same where each is well formed.
pub fn elaborations_are_well_typed()
    ensures derived { law.ElaborationsWellTyped }
    ensures formed { law.FormedElaborationsWellTyped }
{}
