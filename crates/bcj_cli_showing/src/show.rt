// The whole text of `show`.
ghost use Rattle.std.specs.Prelude.{◌≡◌, IfOk};
ghost use Rattle.bcj_cli_showing.specs.Text.{heads_of_records, show_text};

use crate::writer::Writer;
use bcj_edge::Bytes;
use bcj_hier::Hier;
use bcj_tables_rules::ClassRecord;
use std::alloc::{AllocError, Global};

/// The text of `show` of an object: the tree of the types of `hier`, which are those of boot and of the object, the object's
/// own class records, and the words of its text section. `types` are the records of all types in order, and have their names.
#[tactic(auto, using(crate::proofs::Rules::line_rules), unfolding(crate::specs::Text::show_text))]
pub fn show_bytes(
    alloc: Global,
    hier: &Hier,
    types: &[ClassRecord],
    own: &[ClassRecord],
    text: &[u8],
) -> Result<Bytes, AllocError>
    requires { heads_of_records types.now ≡ hier.now }
    ensures { IfOk result (λ bytes. bytes ≡ show_text hier.now own.now text.now) }
{
    let mut out = Writer::new(alloc);
    out.tree(alloc, hier, types)?;
    out.records(own)?;
    out.code(text)?;
    Ok(out.into_bytes())
}
