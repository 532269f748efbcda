//! What the world of declared units answers to typing, as functions: definitions and laws.
#![tactic(auto)]

ghost use Rattle.bcj_typing_answers.specs.Laws as law;

/// In a declared world the answers on subtypes, methods and constants are those of the relations, and the choice of a method
/// is the only one.
pub fn declared_worlds_are_answered()
    ensures right { law.DeclaredWorldsAreAnswered }
    ensures one { law.DeclaredWorldsHaveOneAnswer }
{}
