//! The object file of a unit.

ghost use Rattle.std.specs.Prelude.{◌≡◌, None, IfOk, IfErr, OnOk};
ghost use Rattle.bcj_elf.specs.Plain.{plain};
ghost use Rattle.bcj_elf.specs.Rules.{IsObject};
ghost use Rattle.bcj_elf.specs.Spelling.{spelling};
ghost use Rattle.bcj_symbolic_trees.specs.Units.{plain_of};
ghost use Rattle.bcj_symbolic_check.specs.Classes.{fault_of};
ghost use Rattle.bcj_object_rules.specs.Objects.{object};
ghost use Rattle.bcj_object_rules.specs.Sizes.{IsSmall};
ghost use Rattle.bcj_object.specs.Answers.{IsExcess};

use crate::limits::within;
use crate::parts::object_at;
use crate::placing::placed;
use crate::stop::ObjectStop;
use bcj_edge::Bytes;
use bcj_elf::{Object, write};
use bcj_object_soundness::objects_are_well_formed;
use bcj_symbolic_trees::SymUnit;
use std::alloc::{AllocError, Global};

/// The file of an object.
fn spelled(alloc: Global, o: &Object) -> Result<Bytes, AllocError>
    requires { IsObject (plain o.now) }
    ensures { IfOk result (λ bytes. bytes ≡ spelling (plain o.now)) }
{
    Ok(Bytes::of(write(alloc, o)?))
}

/// The object file of a unit within the limits (System V ABI, "Object Files"; RISC-V ELF psABI).
pub fn make(alloc: Global, u: &SymUnit) -> Result<Bytes, ObjectStop>
    requires typed { fault_of (plain_of u.now) ≡ None }
    ensures ok { IfOk result (λ bytes. bytes ≡ object (plain_of u.now)) }
    ensures small { OnOk result (IsSmall (plain_of u.now)) }
    ensures too_large { IfErr result (λ e. IsExcess (plain_of u.now) e) }
{
    objects_are_well_formed();
    within(alloc, u)?;
    let placed = placed(alloc, u.classes.as_slice())?;
    let object = object_at(alloc, placed.as_slice())?;
    Ok(spelled(alloc, &object)?)
}
