//! The boot unit: the classes that stand first in every program, with what prints and what the runtime throws.
#![tactic(auto)]

mod class;
mod stream;
mod thrown;

ghost use Rattle.std.specs.Prelude.{◌≡◌, IfOk};
ghost use Rattle.bcj_symbolic_trees.specs.Units.{plain_of};
ghost use Rattle.bcj_symbolic_boot.specs.BootUnit.{boot_unit};

use bcj_symbolic_trees::{OBJECT, Sequence, SymUnit};
use std::alloc::{AllocError, Global};

#[tactic(auto, using(crate::proofs::Rules::boot_rules))]
/// The boot unit. Its classes are initialised from the start of a run, so none has initialisers.
pub fn boot(alloc: Global) -> Result<SymUnit, AllocError>
    ensures { IfOk result (λ u. plain_of u ≡ boot_unit) }
{
    let mut classes = Sequence::new(alloc);
    classes.push(class::bare(alloc, OBJECT, None)?)?;
    classes.push(class::bare(alloc, "String", Some(OBJECT))?)?;
    classes.push(stream::system(alloc)?)?;
    classes.push(stream::print_stream(alloc)?)?;
    classes.push(thrown::throwable(alloc)?)?;
    thrown::push_thrown(alloc, &mut classes)?;
    Ok(SymUnit { classes })
}
