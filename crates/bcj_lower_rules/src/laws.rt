//! What holds of the code of a class.

ghost use Rattle.bcj_lower_rules.specs.Laws.{HalvesArePlaced, LongIsMeasured};

/// With all jumps long the code of each method has as many words as are measured.
pub fn long_is_measured()
    ensures { LongIsMeasured }
{}

/// What linking sets are immediates of zero, the upper half of an address in a LUI and the lower half in an ADDI or a LW.
pub fn halves_are_placed()
    ensures { HalvesArePlaced }
{}
