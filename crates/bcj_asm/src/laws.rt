// What follows from the definition of assembled code.
ghost use Rattle.bcj_asm.specs.Reach.{LabelsAreReached, OppositeIsTakenElse, TakenIsTested};
ghost use Rattle.bcj_asm.specs.Rounds.{FormsAreSettled, FormsOnlyShrink, ShortWhereReaching};

/// From round to round branches only become short; after as many rounds as there are items a further one changes nothing; and
/// then a branch is short exactly where it reaches its label as one word while the others stay as they are. RISC-V Instruction
/// Set Manual, volume I, "Conditional Branches".
pub fn branches_settle()
    ensures shrink { FormsOnlyShrink }
    ensures settled { FormsAreSettled }
    ensures reaching { ShortWhereReaching }
{}

/// In assembled code each instruction stands at its place, and each jump and branch reaches its label: at the place of a
/// `Jump` stands a JAL whose target address is the label's place; at that of a short `Branch` the branch itself, whose target
/// address is the label's place, and at that of a long one the opposite branch to the instruction behind a JAL that reaches
/// the label. The opposite branch is taken exactly where the branch isn't, by the tests that the machine makes. RISC-V
/// Instruction Set Manual, volume I, "Control Transfer Instructions".
pub fn labels_are_reached()
    ensures reached { LabelsAreReached }
    ensures opposite { OppositeIsTakenElse }
    ensures tested { TakenIsTested }
{}
