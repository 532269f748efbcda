//! Which members a class has so far, so that none stands twice.

ghost use Rattle.std.specs.Prelude.{◌≡◌, ℕ, List, string_bytes, IfOk, OnOk, ◌||◌};
ghost use Rattle.std.specs.HashSet.{contains_text};
ghost use Rattle.std.specs.Str.{bytes_eq};
ghost use Rattle.bcj_tables_rules.specs.Members.{member_key};

use std::alloc::{AllocError, Global};
use std::collections::HashSet;

pub type Keys = HashSet<String>;

/// One text for a name and a descriptor.
pub fn key_of(alloc: Global, name: &str, desc: &str) -> Result<String, AllocError>
    ensures { IfOk result (λ k. string_bytes k ≡ member_key name.now desc.now) }
{
    let mut key = String::from_str(alloc, name)?;
    key.push_str(":")?;
    key.push_str(desc)?;
    Ok(key)
}

/// Notes a key that is not noted yet.
pub fn note(keys: &mut Keys, key: String) -> Result<(), AllocError>
    ensures { OnOk result ((q : List ℕ) → contains_text keys.new q ≡ (contains_text keys.old q || bytes_eq (string_bytes key) q)) }
{
    keys.insert(key)?;
    Ok(())
}
