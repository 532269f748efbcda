ghost use Rattle.std.specs.Prelude.{◌≡◌, None, position, IfOk, if◌then◌else◌};
ghost use Rattle.bcj_symbolic_trees.specs.Types.{class_type};
ghost use Rattle.bcj_hier_rules.specs.Heads.{IsIn, name_of};
ghost use Rattle.bcj_layout_rules.specs.Rows.{arguments_type};
ghost use Rattle.bcj_layout_rules.specs.Places as place;
ghost use Rattle.bcj_layout_resolution.specs.Places.{heads_in};
ghost use Rattle.bcj_layout_addresses.specs.Parts.{AreParts, classes_of, main_of};
ghost use Rattle.bcj_layout_entries.specs.Listed.{IsEntry};
ghost use Rattle.bcj_layout_entries.specs.Start.{AreStartEntries, type_result, main_class, main_result, declaring_class};

use crate::classes::{type_entry, unresolved};
use crate::entries::{Entries, Entry};
use crate::lookup::word_of;
use bcj_hier_rules::{ClassId, LinkError};
use bcj_layout_addresses::Parts;
use bcj_layout_rows::type_of_text;
use bcj_names::Name;
use bcj_symbolic_trees::{MethodKind, Sequence, Ty};
use bcj_tables_rules::MethodRecord;
use std::alloc::{AllocError, Global};

/// The name of the method that is run.
const MAIN: &str = "main";

/// The descriptor of a `main` that is given arguments.
const WITH_ARGUMENTS: &str = "([LString;)V";

/// The descriptor of one that isn't.
const WITHOUT: &str = "()V";

/// The descriptor of the type of the arguments.
const ARGUMENTS: &str = "[LString;";

fn is_main(method: &MethodRecord, desc: &str) -> bool
    ensures { result ≡ place.is_main desc.now method.now }
{
    method.name.as_str() == MAIN
        && method.desc.as_str() == desc
        && matches!(method.kind, MethodKind::Static)
}

/// The number of the method that is run, among the methods of a class.
fn main_number(methods: &[MethodRecord], desc: &str) -> Option<usize>
    ensures { result ≡ position (place.is_main desc.now) methods.now }
{
    methods.iter().position(|method| is_main(method, desc))
}

fn main_descriptor(takes_arguments: bool) -> &'static str
    ensures { result.now ≡ (if takes_arguments then place.main_with_arguments else place.main_without) }
{
    if takes_arguments {
        WITH_ARGUMENTS
    } else {
        WITHOUT
    }
}

/// The entry of the method that is run, which the main class declares.
fn main_within(parts: &Parts<'_>, class: ClassId) -> Entry
    requires parts { AreParts parts.now }
    requires there { IsIn (heads_in (classes_of parts.now)) class }
    requires named { name_of (heads_in (classes_of parts.now)) class ≡ main_of parts.now }
    ensures { IsEntry (classes_of parts.now) (main_result (classes_of parts.now) (main_of parts.now))
        (declaring_class (classes_of parts.now) (main_of parts.now) (main_result (classes_of parts.now) (main_of parts.now))) result }
{
    let _distinct = parts.resolver.hier().len();
    let classes = parts.resolver.records().classes.as_slice();
    let methods = classes[class.0 as usize].methods.as_slice();
    let desc = main_descriptor(parts.places.takes_arguments);
    match main_number(methods, desc) {
        None => unresolved(LinkError::NoSuchMethod),
        Some(number) => Entry {
            word: Ok(word_of(parts.addresses.own.as_slice(), class, number)),
            class: Some(class),
        },
    }
}

/// The entry of the method that is run.
fn main_entry(parts: &Parts<'_>, main: &Name) -> Entry
    requires parts { AreParts parts.now }
    requires named { main.now ≡ main_of parts.now }
    ensures { IsEntry (classes_of parts.now) (main_result (classes_of parts.now) (main_of parts.now))
        (declaring_class (classes_of parts.now) (main_of parts.now) (main_result (classes_of parts.now) (main_of parts.now))) result }
{
    match parts.resolver.hier().find(main) {
        None => unresolved(LinkError::NoSuchMethod),
        Some(class) => main_within(parts, class),
    }
}

/// The entry of the main class.
fn class_entry(alloc: Global, parts: &Parts<'_>, main: &Name) -> Result<Entry, AllocError>
    requires parts { AreParts parts.now }
    requires named { main.now ≡ main_of parts.now }
    ensures { IfOk result (IsEntry (classes_of parts.now)
        (type_result (classes_of parts.now) (main_of parts.now) (class_type (main_of parts.now))) (main_class (classes_of parts.now) (main_of parts.now))) }
{
    let ty = Ty::Class(main.copy(alloc)?);
    type_entry(parts, &ty, false)
}

/// The entry of the type of the arguments.
fn arguments_entry(alloc: Global, parts: &Parts<'_>) -> Result<Entry, AllocError>
    requires { AreParts parts.now }
    ensures { IfOk result (IsEntry (classes_of parts.now) (type_result (classes_of parts.now) (main_of parts.now) arguments_type) None) }
{
    let text = Name::from_str(alloc, ARGUMENTS)?;
    let ty = type_of_text(alloc, &text)?;
    type_entry(parts, &ty, false)
}

/// The entries of the start's region: the main class, the type of the arguments, and main.
pub fn start_entries(alloc: Global, parts: &Parts<'_>) -> Result<Entries, AllocError>
    requires { AreParts parts.now }
    ensures { IfOk result (AreStartEntries (classes_of parts.now) (main_of parts.now)) }
{
    let main = Name::from_str(alloc, parts.main)?;
    let mut entries = Sequence::new(alloc);
    entries.push(class_entry(alloc, parts, &main)?)?;
    entries.push(arguments_entry(alloc, parts)?)?;
    entries.push(main_entry(parts, &main))?;
    Ok(entries)
}
