//! Symbolic units, the language between typing and code: their trees, the boot unit, and their typing.
//!
//! The layers above name this crate alone; those below it hold its parts so that each is checked by itself.
#![tactic(auto)]

ghost use Rattle.std.specs.Prelude.{◌≡◌, IfOk};
ghost use Rattle.bcj_symbolic_trees.specs.Units.{plain_of};
ghost use Rattle.bcj_symbolic_boot.specs.BootUnit.{boot_unit};
ghost use Rattle.bcj_symbolic_check.specs.Classes.{IsWellTyped};
ghost use Rattle.bcj_symbolic.specs.Boot.{BootIsWellTyped};

pub use bcj_symbolic_check::{IllTyped, check, well_typed_law};
pub use bcj_symbolic_measure::{Measure, entries_law, measure};
pub use bcj_symbolic_trees::{
    Arg, BinaryOp, CONSTRUCTOR, ClassHead, FieldRef, MethodKind, MethodRef, Name, Names, OBJECT,
    PRINT_STREAM, Pair, Pairs, PrintKind, Sequence, SymCatch, SymClass, SymClasses, SymExpr,
    SymField, SymFields, SymInit, SymMethod, SymMethods, SymStmt, SymUnit, THROWABLE, Ty, Types,
    Tys, UnaryOp, UpdatePlace, copy_types, same_types,
};
use std::alloc::{AllocError, Global};

/// The boot unit. It passes `check`.
#[tactic(auto, using(crate::proofs::BootLemmas::boot_typed))]
pub fn boot(alloc: Global) -> Result<SymUnit, AllocError>
    ensures plain { IfOk result (λ u. plain_of u ≡ boot_unit) }
    ensures well_typed { IfOk result (λ u. IsWellTyped (plain_of u)) }
{
    bcj_symbolic_boot::boot(alloc)
}

/// Each node of the boot unit has a rule.
#[tactic(auto, using(crate::proofs::BootLemmas::boot_typed))]
pub fn boot_is_well_typed()
    ensures { BootIsWellTyped }
{}
