#![tactic(auto, using(crate::proofs::Facts::ready_rules))]

ghost use Rattle.std.specs.Prelude.{◌≡◌, ◌<◌, ◌^◌, length, IfOk, OnOk};
ghost use Rattle.std.specs.Result.{IfErr};
ghost use Rattle.bcj_decl_rules.specs.Faults.{IsDeclared};
ghost use Rattle.bcj_decl.specs.Answers.{IsCause};
ghost use Rattle.bcj_decl.specs.Worlds.{units_of};

use crate::decls::{Decls, decls_of};
use crate::refusing::stop_of;
use crate::stop::DeclStop;
use crate::world::types_of;
use bcj_decl_faults::first_fault;
use bcj_decl_graph::steps_of_listing;
use bcj_decl_listing::Listing;
use bcj_parser_trees::Unit;
use std::alloc::Global;

/// The declared world of units (JLS 8, 9), of which that with the number `own` is to be typed; or the first of what they must not declare.
/// The heads and members of all units are tested, and bodies aren't.
pub fn declare<'a>(alloc: Global, units: &'a [Unit], own: u32) -> Result<Decls<'a>, DeclStop>
    requires own { own < length units.now }
    requires few { length units.now < 2 ^ 32 }
    ensures world { IfOk result (λ d. d ≡ record { units = units.entry.now; own = own }) }
    ensures declared { OnOk result (IsDeclared (units_of units.entry.now)) }
    ensures cause { IfErr result (IsCause (units_of units.entry.now)) }
{
    let listing = Listing::of(alloc, types_of(alloc, units)?)?;
    let steps = steps_of_listing(alloc, &listing)?;
    match first_fault(alloc, units, &listing, &steps)? {
        Some(fault) => Err(stop_of(fault)),
        None => Ok(decls_of(alloc, units, own, listing)?),
    }
}
