ghost use Rattle.std.specs.Prelude.{◌≡◌, ◌++◌, map, OnOk};
ghost use Rattle.std.specs.List.{filter};
ghost use Rattle.bcj_linker_rules.specs.Memory.{static_words};
ghost use Rattle.bcj_layout_addresses.specs.Parts.{AreParts, classes_of};

use bcj_layout_addresses::Parts;
use bcj_layout_places::Words;
use bcj_tables_rules::FieldRecord;
use std::alloc::AllocError;

/// Puts the static fields among these behind the words.
fn push_values(fields: &[FieldRecord], words: &mut Words) -> Result<(), AllocError>
    ensures { OnOk result (words.new ≡ words.old ++ map (λ f. f.value) (filter (λ f. f.is_static) fields.now)) }
{
    for field in fields {
        if field.is_static {
            words.push(field.value)?;
        }
    }
    Ok(())
}

/// Puts the static fields of all classes behind the words: constants, and 0.
pub fn push_statics(parts: &Parts<'_>, words: &mut Words) -> Result<(), AllocError>
    requires { AreParts parts.now }
    ensures { OnOk result (words.new ≡ words.old ++ static_words (classes_of parts.now)) }
{
    let classes = parts.resolver.records().classes.as_slice();
    for class in classes {
        push_values(class.fields.as_slice(), words)?;
    }
    Ok(())
}
