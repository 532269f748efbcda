//! What holds of every unit.

ghost use Rattle.bcj_cli_unit.specs.Laws.{ProgramsAreTheFittingUnits, EachIsBounded};

/// A unit is a program exactly where no node of it is lacking, and one program at most.
pub fn programs_are_the_fitting_units()
    ensures { ProgramsAreTheFittingUnits }
{}

/// Each program that a unit is keeps the bounds of the language.
pub fn each_is_bounded()
    ensures { EachIsBounded }
{}
