//! Which object has a name first.

ghost use Rattle.std.specs.Prelude.{◌≡◌, List, ℕ, Some, None, if◌then◌else◌, IfOk, OnOk};
ghost use Rattle.std.specs.Option.{option_or};
ghost use Rattle.std.specs.Str.{bytes_eq};
ghost use Rattle.std.specs.HashMap.{get_by_text};

use bcj_names::Name;
use std::alloc::{AllocError, Global};
use std::collections::HashMap;

/// The number of the first object with a class of a name.
pub type Owners = HashMap<String, u32>;

/// The object that has the name already. If none has it, this one has it now.
pub fn note(
    alloc: Global,
    owners: &mut Owners,
    name: &Name,
    object: u32,
) -> Result<Option<u32>, AllocError>
    ensures before { IfOk result (λ before. before ≡ get_by_text owners.old name.now) }
    ensures owners { OnOk result ((q : List ℕ) → get_by_text owners.new q ≡ option_or (get_by_text owners.old q) (if bytes_eq name.now q then Some object else None)) }
{
    let before = owners.get(name.as_str()).copied();
    if before.is_none() {
        owners.insert(String::from_str(alloc, name.as_str())?, object)?;
    }
    Ok(before)
}
