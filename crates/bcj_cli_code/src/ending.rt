//! How a run ends.

use rv_machine::FaultKind;

/// How a service ends a run.
#[derive(Clone, Copy)]
pub enum Ending {
    /// The program came to its end.
    Done,
    /// No turn was left.
    TurnsSpent,
}

/// Why a run is over.
#[derive(Clone, Copy)]
pub enum Cause {
    Ended(Ending),
    /// A step was a fault, or a call had no service.
    Faulted(FaultKind),
    /// As many instructions retired as the run may take.
    OutOfInstructions,
}

/// A run that is over, with the bytes that it printed.
#[derive(Drop)]
pub struct Ran {
    pub cause: Cause,
    pub out: Vec<u8>,
}

/// What a service does.
#[derive(Clone, Copy)]
pub enum Answered {
    Resumed,
    Ended(Ending),
    Refused,
}
