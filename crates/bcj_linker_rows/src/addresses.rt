ghost use Rattle.std.specs.Prelude.{◌≡◌, ◌<◌, length, slice_get, Some};
ghost use Rattle.bcj_tables_rules.specs.Codes as codes_of;
ghost use Rattle.bcj_hier_rules.specs.Shapes.{method_of_record};
ghost use Rattle.bcj_hier_rules.specs.Heads.{name_of};
ghost use Rattle.bcj_hier_rules.specs.Loading.{turns};
ghost use Rattle.bcj_hier_rules.specs.Resolution.{FoundMethod};
ghost use Rattle.bcj_hier_rules.specs.Selection.{open_within, with_code};
ghost use Rattle.bcj_layout_rules.specs.Rows.{mixture_of};
ghost use Rattle.bcj_layout_rules.specs.Entries.{address_of_method};
ghost use Rattle.bcj_layout_resolution.specs.Places.{heads_in, IsMethod};
ghost use Rattle.bcj_layout_rows.specs.Found.{IsLoading};
ghost use Rattle.bcj_layout_addresses.specs.Parts.{AreParts, classes_of, main_of};
ghost use Rattle.bcj_linker_rows.specs.Calls.{address_if};

use bcj_hier_rules::ClassId;
use bcj_layout_addresses::Parts;
use bcj_layout_members::Place;
use bcj_layout_places::Words;
use bcj_layout_resolution::MethodId;
use bcj_names::Name;
use bcj_symbolic_trees::MethodKind;
use bcj_tables_rules::MethodRecord;

fn words_of(lists: &[Words], class: ClassId) -> &[u32]
    requires { class.0 < length lists.now }
    ensures { slice_get lists.now class.0 ≡ Some result.now }
{
    lists[class.0 as usize].as_slice()
}

fn word_at(words: &[u32], at: u32) -> u32
    requires { at < length words.now }
    ensures { slice_get words.now at ≡ Some result }
{
    words[at as usize]
}

/// The address of a method that a search found.
pub fn method_address(parts: &Parts<'_>, method: MethodId) -> u32
    requires parts { AreParts parts.now }
    requires found { (x : FoundMethod) × IsMethod (classes_of parts.now) method x }
    ensures { (x : FoundMethod) → IsMethod (classes_of parts.now) method x → result ≡ address_of_method (classes_of parts.now) (main_of parts.now) x }
{
    let own = words_of(parts.addresses.methods.as_slice(), method.class);
    word_at(own, method.method)
}

/// The record of a method that a search found.
pub fn method_record<'a>(parts: &Parts<'a>, method: MethodId) -> &'a MethodRecord
    requires parts { AreParts parts.now }
    requires found { (x : FoundMethod) × IsMethod (classes_of parts.now) method x }
    ensures { (x : FoundMethod) → IsMethod (classes_of parts.now) method x → x.method ≡ method_of_record result.now }
{
    parts.members.method(Place {
        class: method.class,
        method: method.method,
    })
}

fn is_abstract(kind: MethodKind) -> bool
    ensures { result ≡ codes_of.is_abstract kind }
{
    matches!(kind, MethodKind::Abstract)
}

/// The address of a method that a search found, none where it has no code.
#[tactic(auto, using(crate::proofs::Rules::call_rules))]
fn address_with_code(parts: &Parts<'_>, method: MethodId) -> Option<u32>
    requires parts { AreParts parts.now }
    requires found { (x : FoundMethod) × IsMethod (classes_of parts.now) method x }
    ensures { (x : FoundMethod) → IsMethod (classes_of parts.now) method x
        → result ≡ address_if (classes_of parts.now) (main_of parts.now) (with_code (mixture_of (classes_of parts.now)) (Some x)) }
{
    if is_abstract(method_record(parts, method).kind) {
        None
    } else {
        Some(method_address(parts, method))
    }
}

/// The address of what a call on an object of a class takes, none where there is none, or without code.
pub fn call_address(parts: &Parts<'_>, class: ClassId, name: &Name, desc: &Name) -> Option<u32>
    requires parts { AreParts parts.now }
    requires loading { IsLoading (classes_of parts.now) class }
    ensures { result ≡ address_if (classes_of parts.now) (main_of parts.now)
        (with_code (mixture_of (classes_of parts.now)) (open_within (mixture_of (classes_of parts.now)) (turns (mixture_of (classes_of parts.now))) name.now desc.now (name_of (heads_in (classes_of parts.now)) class))) }
{
    match parts.resolver.open_method(class, name, desc) {
        None => None,
        Some(method) => address_with_code(parts, method),
    }
}
