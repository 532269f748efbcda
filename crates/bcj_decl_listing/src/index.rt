ghost use Rattle.std.specs.Prelude.{◌≡◌, List, ℕ, Some, None, if◌then◌else◌, IfOk, OnOk};
ghost use Rattle.std.specs.Option.{option_or};
ghost use Rattle.std.specs.Str.{bytes_eq};
ghost use Rattle.std.specs.HashMap.{get_by_text};
ghost use Rattle.bcj_decl_table.specs.Views.{world_in};
ghost use Rattle.bcj_decl_listing.specs.Places.{place_of};

use bcj_decl_table::TypeInfo;
use bcj_names::Name;
use std::alloc::{AllocError, Global};
use std::collections::HashMap;

pub type Index = HashMap<String, usize>;

/// Notes the place of a name, where the index has none for it.
pub fn note(alloc: Global, index: &mut Index, name: &Name, place: usize) -> Result<(), AllocError>
    ensures { OnOk result ((q : List ℕ) → get_by_text index.new q ≡ option_or (get_by_text index.old q) (if bytes_eq name.now q then Some place else None)) }
{
    if index.contains_key(name.as_str()) {
        return Ok(());
    }
    index.insert(String::from_str(alloc, name.as_str())?, place)?;
    Ok(())
}

/// The first place of each name.
pub fn index_of(alloc: Global, types: &[TypeInfo]) -> Result<Index, AllocError>
    ensures { IfOk result (λ ix. (q : List ℕ) → get_by_text ix q ≡ place_of (world_in types.now) q) }
{
    let mut index = HashMap::new(alloc);
    for i in 0..types.len() {
        note(alloc, &mut index, &types[i].head.name, i)?;
    }
    Ok(index)
}

/// The place of a name. It takes no memory.
pub fn place_in(index: &Index, name: &Name) -> Option<usize>
    ensures { result ≡ get_by_text index.now name.now }
{
    index.get(name.as_str()).copied()
}
