//! What follows from the definition of words.

ghost use Rattle.rv_isa.specs.Laws.{SpelledOnce, SpelledOrNot};

/// A word is that of one instruction at most, and some instruction has it or none has.
pub fn one_to_one()
    ensures once { SpelledOnce }
    ensures told { SpelledOrNot }
{}
