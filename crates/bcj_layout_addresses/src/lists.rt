ghost use Rattle.std.specs.Prelude.{◌≡◌, ◌≤◌, length, map, slice_index, IfOk};
ghost use Rattle.bcj_layout_addresses.specs.Lists.{code_at, found_at, fields_by, by_number};

use crate::addresses::WordLists;
use crate::fields::field_words;
use crate::finding::found_words;
use crate::methods::own_words;
use bcj_hier_rules::ClassId;
use bcj_layout_members::Members;
use bcj_layout_resolution::Resolver;
use bcj_symbolic_trees::Sequence;
use bcj_tables_rules::ClassRecord;
use std::alloc::{AllocError, Global};

/// Where each method of each class is, by where the code of the classes begins.
pub fn own_lists(
    alloc: Global,
    classes: &[ClassRecord],
    text: &[u32],
) -> Result<WordLists, AllocError>
    requires { length classes.now ≤ length text.now }
    ensures { IfOk result (λ lists. lists ≡ by_number (λ k c. map (code_at (slice_index text.now k) c.methods) c.methods) 0 classes.now) }
{
    let mut lists = Sequence::new(alloc);
    for (k, class) in classes.iter().enumerate() {
        lists.push(own_words(alloc, text[k], class.methods.as_slice())?)?;
    }
    Ok(lists)
}

/// Where a search finds each method of each class.
pub fn found_lists(
    alloc: Global,
    classes: &[ClassRecord],
    text: &[u32],
) -> Result<WordLists, AllocError>
    requires { length classes.now ≤ length text.now }
    ensures { IfOk result (λ lists. lists ≡ by_number (λ k c. map (found_at (slice_index text.now k) c.methods) c.methods) 0 classes.now) }
{
    let mut lists = Sequence::new(alloc);
    for (k, class) in classes.iter().enumerate() {
        lists.push(found_words(alloc, &class.head.name, text[k], class.methods.as_slice())?)?;
    }
    Ok(lists)
}

/// Where the fields of each class are, by where the static ones of the classes begin.
pub fn field_lists(
    alloc: Global,
    resolver: &Resolver,
    members: &Members<'_>,
    statics: &[u32],
) -> Result<WordLists, AllocError>
    requires same { members.now ≡ resolver.now }
    requires enough { length resolver.now ≤ length statics.now }
    ensures { IfOk result (λ lists. lists ≡ by_number (λ k c. fields_by (slice_index statics.now k) resolver.now c) 0 resolver.now) }
{
    let count = resolver.hier().len();
    let mut lists = Sequence::new(alloc);
    for k in 0..count {
        let class = ClassId(k as u32);
        lists.push(field_words(alloc, resolver, members, class, statics[k])?)?;
    }
    Ok(lists)
}
