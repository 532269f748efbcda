// What holds of accepted sources.
ghost use Rattle.bcj_cli_compile.specs.Laws as law;

use bcj_lexer::one_cutting;
use bcj_parser::one_unit;
use bcj_symbolic_soundness::units_are_decided;
use bcj_typing_answers::declared_worlds_are_answered;
use bcj_typing_rules::elaborations_are_one;
use bcj_typing_soundness::elaborations_are_well_typed;

/// The object of what accepted sources become carries it: the symbolic unit is well typed and within the limits.
pub fn accepted_is_carried()
    ensures { law.AcceptedIsCarried }
{
    elaborations_are_well_typed();
    units_are_decided();
}

/// Sources become one symbolic unit at most.
pub fn one_is_accepted()
    ensures { law.OneIsAccepted }
{
    one_cutting();
    one_unit();
    declared_worlds_are_answered();
    elaborations_are_one();
}
