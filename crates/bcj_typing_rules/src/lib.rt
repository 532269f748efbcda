//! What the typing of bodies is (JLS 6, 8, 13.1, 14, 15): definitions, the kinds of what is at fault, and laws.
#![tactic(auto)]

mod kind;

ghost use Rattle.bcj_typing_rules.specs.Laws as law;

pub use kind::Kind;

/// Where the answers are those of the world, the function of expressions finds each typing of the relation, and typings
/// and faults of the relation alone; so at most one typing fits.
pub fn expressions_are_typed()
    ensures results { law.EachTypingIsRight }
    ensures faults { law.EachExprFaultIsRight }
    ensures found { law.EachTypingIsFound }
    ensures one { law.OneTyping }
{}

/// The same of statements.
pub fn statements_are_typed()
    ensures results { law.EachEffectIsRight }
    ensures faults { law.EachStmtFaultIsRight }
    ensures found { law.EachEffectIsFound }
    ensures one { law.OneEffect }
{}

/// Where there are answers of the world, at most one class fits a type, and at most one symbolic unit a source unit.
pub fn elaborations_are_one()
    ensures classes { law.OneClass }
    ensures units { law.OneElaboration }
{}

/// Where there are answers of the world, each fault of an expression or a statement is the one that the function finds.
pub fn faults_are_found()
    ensures expressions { law.EachExprFaultIsFound }
    ensures statements { law.EachStmtFaultIsFound }
{}

/// Where a class has a superclass and an interface no constructor, the function of types finds each class and each fault
/// of the relation, and those alone.
pub fn types_are_typed()
    ensures results { law.EachClassIsRight }
    ensures faults { law.EachTypeFaultIsRight }
    ensures found { law.EachClassIsFound }
    ensures faults_found { law.EachTypeFaultIsFound }
{}

/// The same of a unit with such types; so it has one symbolic unit or one fault, and not both.
pub fn units_are_typed()
    ensures results { law.EachUnitIsRight }
    ensures faults { law.EachUnitFaultIsRight }
    ensures found { law.EachUnitIsFound }
    ensures faults_found { law.EachUnitFaultIsFound }
    ensures decided { law.EachUnitIsDecided }
    ensures excluded { law.FaultsExcludeUnits }
    ensures one { law.OneFault }
{}

/// The initialisers of objects are typed alone as they are among the members.
pub fn initialisers_are_typed_alone()
    ensures { law.InitialisersAreTypedAlone }
{}

/// Where nothing of the units is refused, each class finds a superclass by its name.
pub fn types_are_whole()
    ensures { law.DeclaredTypesAreWhole }
{}
