//! Numbers and texts as bytes.

ghost use Rattle.std.specs.Prelude.{◌≡◌, ◌++◌, ◌∷◌, [], OnOk};
ghost use Rattle.bcj_tables_rules.specs.Spelling as spec;

use bcj_symbolic_trees::Name;
use std::alloc::AllocError;

pub fn put_byte(out: &mut Vec<u8>, n: u8) -> Result<(), AllocError>
    ensures { OnOk result (out.new.items ≡ out.old.items ++ n ∷ []) }
{
    out.push(n)?;
    Ok(())
}

#[tactic(auto, unfolding(bcj_tables_rules::specs::Spelling::word))]
pub fn put_word(out: &mut Vec<u8>, n: u32) -> Result<(), AllocError>
    ensures { OnOk result (out.new.items ≡ out.old.items ++ spec.word n) }
{
    out.extend_from_slice(&n.to_le_bytes())
}

/// The low word of a count.
#[tactic(auto, unfolding(bcj_tables_rules::specs::Spelling::word))]
pub fn put_count(out: &mut Vec<u8>, n: usize) -> Result<(), AllocError>
    ensures { OnOk result (out.new.items ≡ out.old.items ++ spec.word n) }
{
    out.extend_from_slice(&n.to_le_bytes()[..4])
}

pub fn put_text(out: &mut Vec<u8>, text: &str) -> Result<(), AllocError>
    ensures { OnOk result (out.new.items ≡ out.old.items ++ spec.text text.now) }
{
    put_count(out, text.len())?;
    out.extend_from_slice(text.as_bytes())
}

pub fn put_name_or_none(out: &mut Vec<u8>, name: &Option<Name>) -> Result<(), AllocError>
    ensures { OnOk result (out.new.items ≡ out.old.items ++ spec.text (spec.text_of_option name.now)) }
{
    match name {
        None => put_text(out, ""),
        Some(name) => put_text(out, name.as_str()),
    }
}
