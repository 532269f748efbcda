//! What holds of the lines of a class: they are items of the assembler, and its words are no more than those that are measured.
#![tactic(auto)]

ghost use Rattle.bcj_lower_soundness.specs.Laws as law;

/// The lines of each method with code whose frame is within the limit are items of the assembler, as are those of each such class
/// initialiser: registers and immediates are in range.
pub fn lines_are_items()
    ensures methods { law.MethodLinesAreItems }
    ensures initialiser { law.InitLinesAreItems }
{}

/// Lines have at most as many words as they have with all jumps long, and there is a word of each method and of each class initialiser.
pub fn short_is_not_longer()
    ensures short { law.ShortIsNotLonger }
    ensures method { law.MethodsHaveWords }
    ensures initialiser { law.InitHasWords }
{}
