//! What a step answers.

/// What a step did.
#[derive(Clone, Copy)]
pub enum Step {
    /// An instruction other than ECALL retired.
    Went,
    /// An ECALL retired. The pc stands behind it, and the environment has to answer it.
    Call,
    /// Nothing changed, and the same step would fault again.
    Fault(FaultKind),
}

/// Why a step is a fault. Where two of these hold, the earlier in this order is the one answered.
#[derive(Clone, Copy)]
pub enum FaultKind {
    /// No instruction has the word at the pc.
    Illegal,
    /// The pc, the target of a jump or of a taken branch, or the address of data is no multiple of its size.
    Unaligned,
    /// The word at the pc isn't wholly below the read-only end, or data isn't wholly inside the memory.
    Outside,
    /// A store begins below the read-only end.
    ReadOnly,
    /// EBREAK.
    Break,
    /// An ECALL that its environment can't answer. `step` never gives it.
    BadCall,
}
