#![tactic(auto, using(crate::proofs::Rules::world_rules))]

ghost use Rattle.std.specs.Prelude.{◌≡◌, ◌++◌, map, IfOk, OnOk};
ghost use Rattle.bcj_parser_trees.specs.Plain as tree;
ghost use Rattle.bcj_decl_rules.specs.World as spec;
ghost use Rattle.bcj_decl_table.specs.Views.{declared_of};

use bcj_decl_table::{TypeInfos, boot_types, push_unit};
use bcj_parser_trees::Unit;
use std::alloc::{AllocError, Global};

fn push_units(alloc: Global, units: &[Unit], types: &mut TypeInfos) -> Result<(), AllocError>
    ensures { OnOk result (map declared_of types.new ≡ map declared_of types.old ++ map spec.declared_type (spec.source_types (map tree.unit_of units.now))) }
{
    for unit in units {
        push_unit(alloc, unit, types)?;
    }
    Ok(())
}

/// The types of the world: the boot types, and then those of the units.
#[tactic(auto, unfolding(bcj_decl_rules::specs::World::world_of))]
pub fn types_of(alloc: Global, units: &[Unit]) -> Result<TypeInfos, AllocError>
    ensures { IfOk result (λ ts. map declared_of ts ≡ spec.world_of (map tree.unit_of units.now)) }
{
    let mut types = boot_types(alloc)?;
    push_units(alloc, units, &mut types)?;
    Ok(types)
}
