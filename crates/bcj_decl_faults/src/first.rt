ghost use Rattle.std.specs.Prelude.{◌≡◌, ◌≤◌, ◌<◌, ◌^◌, map, length, IfOk, MatchOption};
ghost use Rattle.bcj_parser_trees.specs.Plain as tree;
ghost use Rattle.bcj_decl_rules.specs.World.{world_of};
ghost use Rattle.bcj_decl_rules.specs.Faults.{IsFirstFault, IsDeclared};
ghost use Rattle.bcj_decl_table.specs.Views.{world_in};
ghost use Rattle.bcj_decl_listing.specs.Places.{steps_of_world};
ghost use Rattle.bcj_decl_faults.specs.Refusals.{refusal_of, place_of_fault};

use crate::fault::Fault;
use crate::file::{Memory, file_found};
use bcj_decl_graph::Steps;
use bcj_decl_listing::Listing;
use bcj_parser_trees::Unit;
use std::alloc::{AllocError, Global};

/// The number of boot types, which stand before those of the units.
const BOOT_TYPES: usize = 25;

/// The first fault of a list of units: of the first file that has one the least by its byte and the kind of refusal. None just
/// where nothing is refused.
pub fn first_fault(
    alloc: Global,
    units: &[Unit],
    listing: &Listing,
    steps: &Steps,
) -> Result<Option<Fault>, AllocError>
    requires few { length units.now < 2 ^ 32 }
    requires world { world_in listing.now.types ≡ world_of (map tree.unit_of units.now) }
    requires steps { steps.now ≡ steps_of_world (world_in listing.now.types) }
    ensures { IfOk result (λ f. MatchOption f (IsDeclared (map tree.unit_of units.now)) (λ f. IsFirstFault (map tree.unit_of units.now) (place_of_fault f) (refusal_of f.refusal))) }
{
    let _types = listing.len();
    let mut memory = Memory::new(alloc);
    let mut start = BOOT_TYPES;
    let mut file = 0;
    for unit in units {
        let decls = unit.types.as_slice();
        match file_found(alloc, listing, steps, decls, start, &mut memory)? {
            None => {}
            Some(found) => {
                return Ok(Some(Fault {
                    file,
                    at: found.at,
                    refusal: found.refusal,
                }));
            }
        }
        start += decls.len();
        file += 1;
    }
    Ok(None)
}
