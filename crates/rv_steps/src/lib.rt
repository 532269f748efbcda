//! Runs of the RV32IM machine, for proofs about compiled code.
//!
//! Nothing here is called: each function carries a theorem in its contract. `specs/` has memory as words (`Memory`), a
//! machine with named registers and counted steps (`Machine`), its code as words of RV32IM in memory (`Lower`), runs of the
//! RV32IM machine under services (`MachineRun`), the services' numbers (`Services`) and how the one machine follows the
//! other (`Refines`).
#![tactic(auto)]

pub mod services;

ghost use Rattle.rv_steps.specs.Countdown.{Row, RowBelow};
ghost use Rattle.rv_steps.specs.Laws.{CodeLaws, MemoryLaws, SumLaws};
ghost use Rattle.rv_steps.specs.MachineRun.{OneOutcome};
ghost use Rattle.rv_steps.specs.Refines.{CallUp, RunUp, StepUp};

/// The laws of words in memory, and of sums of 32 bits as addresses are made of them.
pub fn memory_laws()
    ensures words { MemoryLaws }
    ensures sums { SumLaws }
{}

/// The laws of code in memory.
pub fn code_laws<W, E>()
    ensures { CodeLaws W E }
{}

/// A run of the RV32IM machine under services comes to one outcome.
pub fn machine_run_is_one<W, E>()
    ensures { OneOutcome W E }
{}

/// A step of the machine with named registers is the one step of the RV32IM machine that has its code in memory.
pub fn step_refines<W, E>()
    ensures steps { StepUp W E }
    ensures calls { CallUp W E }
{}

/// A run of the machine with named registers comes to the end that the RV32IM machine's run comes to, with as many retired
/// instructions.
pub fn run_refines<W, E>()
    ensures { RunUp W E }
{}

/// A program of eleven words, run by both machines: the premises of the theorem of runs are met.
pub fn example()
    ensures above { Row }
    ensures below { RowBelow }
{}
