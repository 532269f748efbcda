//! The measure of a symbolic unit: how large its frames, its methods and its object will be, counted from the trees.
#![tactic(auto)]

mod body;
mod entry;
mod entry_table;
mod expression;
mod measured;
mod object;
mod record;
mod scheme;
mod sizes;
mod statement;
mod tally;
mod temporaries;
mod totals;

ghost use Rattle.std.specs.Prelude.{◌≡◌, IfOk};
ghost use Rattle.bcj_symbolic_trees.specs.Units.{plain_of};
ghost use Rattle.bcj_symbolic_measure.specs.Entries.{EntriesLaw};
ghost use Rattle.bcj_symbolic_measure.specs.Scheme.{LookupLaw};
ghost use Rattle.bcj_symbolic_measure.specs.Objects.{object_size};
ghost use Rattle.bcj_symbolic_measure.specs.Measures.{largest_frame, largest_method};
ghost use Rattle.bcj_symbolic_measure.specs.Totals.{capped, narrow};

pub use crate::body::{hidden_parameters, is_abstract};
pub use crate::entry::{Entry, Role, Target};
pub use crate::entry_table::EntryTable;
pub use crate::measured::{BodySize, Measure};
use crate::object::{file_size, sums_of};
pub use crate::scheme::{holds_references, is_object};
pub use crate::sizes::body_sizes;
use crate::totals::narrow;
use bcj_symbolic_trees::SymUnit;
use std::alloc::{AllocError, Global};

/// Measures a unit by the code scheme with all jumps long.
///
/// It is meant for units that `check` accepts; the equations hold of every other one too.
pub fn measure(alloc: Global, u: &SymUnit) -> Result<Measure, AllocError>
    ensures frame { IfOk result (λ m. m.frame ≡ narrow (largest_frame (plain_of u.now))) }
    ensures method { IfOk result (λ m. m.method ≡ narrow (largest_method (plain_of u.now))) }
    ensures object { IfOk result (λ m. m.object ≡ capped (object_size (plain_of u.now))) }
{
    let sums = sums_of(alloc, u.classes.as_slice())?;
    let frame = narrow(sums.frame);
    let method = narrow(sums.method);
    let object = file_size(sums, u.classes.len());
    Ok(Measure {
        frame,
        method,
        object,
    })
}

/// The entries of a list of uses are these uses, each once.
#[tactic(auto, using(crate::proofs::EntryLemmas::entries_law))]
pub fn entries_law()
    ensures { EntriesLaw }
{}

/// The words of a call by interface and of a cast behind the use of their entries, written as one number each.
#[tactic(auto, using(crate::proofs::LookupLemmas::lookup_law))]
pub fn lookup_law()
    ensures { LookupLaw }
{}
