//! Laws of the declared world: what a reader expects of its definitions.
#![tactic(auto)]

ghost use Rattle.bcj_decl_soundness.specs.Laws as law;

/// Named steps go on behind one another, and each type is its own subtype.
pub fn subtypes_are_ordered()
    ensures reflexive { law.EachIsItsOwnSubtype }
    ensures transitive { law.SubtypesGoOn }
{}

/// Where nothing is refused, a name is that of one type, and from each type a chain of steps leads to Object.
pub fn declared_worlds_are_trees()
    ensures names { law.EachNameIsOneType }
    ensures chains { law.EachTypeReachesObject }
{}

/// The value of an expression, by the values of the fields that are known, is that of the constant, and where no further field's
/// value follows from them each constant is found.
pub fn constants_are_found()
    ensures right { law.EachValueIsConstant }
    ensures whole { law.EachConstantIsFound }
    ensures fields { law.EachConstantFieldIsFound }
{}
