ghost use Rattle.std.specs.Prelude.{◌≡◌, ◌<◌, length, map, slice_get, Ok, Some};
ghost use Rattle.bcj_hier_rules.specs.Shapes.{Reference};
ghost use Rattle.bcj_hier_rules.specs.Heads.{IsIn, name_of};
ghost use Rattle.bcj_hier_rules.specs.Resolution.{FoundMethod};
ghost use Rattle.bcj_layout_rules.specs.Rows.{selectors};
ghost use Rattle.bcj_layout_resolution.specs.Places.{heads_in, IsMethod};
ghost use Rattle.bcj_layout_rows.specs.Found.{IsLoading};
ghost use Rattle.bcj_layout_rows.specs.Keys.{reference_in};
ghost use Rattle.bcj_layout_addresses.specs.Parts.{AreParts, classes_of, main_of};
ghost use Rattle.bcj_linker_rules.specs.Memory as spec;

use crate::addresses::{call_address, method_address, method_record};
use bcj_hier_rules::ClassId;
use bcj_layout_addresses::Parts;
use bcj_layout_resolution::MethodId;
use bcj_layout_rows::ReferenceKey;

/// The word of a selector whose interface a class doesn't implement.
const NOT_IMPLEMENTED: u32 = 0;

/// The word of a selector for which a class has no method, or one without code.
const NO_CODE: u32 = 1;

/// The word of a selector by the method that its reference names, where a class implements its interface.
fn selected_word(parts: &Parts<'_>, class: ClassId, method: MethodId) -> u32
    requires parts { AreParts parts.now }
    requires loading { IsLoading (classes_of parts.now) class }
    requires found { (x : FoundMethod) × IsMethod (classes_of parts.now) method x }
    ensures { (x : FoundMethod) → IsMethod (classes_of parts.now) method x
        → result ≡ spec.selected_for (classes_of parts.now) (main_of parts.now) (name_of (heads_in (classes_of parts.now)) class) (Ok x) }
{
    let named = method_record(parts, method);
    if named.is_private {
        return method_address(parts, method);
    }
    call_address(parts, class, &named.name, &named.desc).unwrap_or(NO_CODE)
}

/// The word of a selector of this interface.
fn interface_word(
    parts: &Parts<'_>,
    class: ClassId,
    interface: ClassId,
    selector: ReferenceKey<'_>,
) -> u32
    requires parts { AreParts parts.now }
    requires loading { IsLoading (classes_of parts.now) class }
    requires there { IsIn (heads_in (classes_of parts.now)) interface }
    requires named { name_of (heads_in (classes_of parts.now)) interface ≡ selector.class.now }
    ensures { result ≡ spec.dispatch_word (classes_of parts.now) (main_of parts.now) (name_of (heads_in (classes_of parts.now)) class) (reference_in selector.entry) }
{
    let method = parts
        .resolver
        .interface_method(interface, selector.class, selector.name, selector.desc);
    match method {
        Err(_) => NOT_IMPLEMENTED,
        Ok(method) => {
            if parts.resolver.hier().implements(class, interface) {
                selected_word(parts, class, method)
            } else {
                NOT_IMPLEMENTED
            }
        }
    }
}

fn dispatch_word(parts: &Parts<'_>, class: ClassId, selector: ReferenceKey<'_>) -> u32
    requires parts { AreParts parts.now }
    requires loading { IsLoading (classes_of parts.now) class }
    ensures { result ≡ spec.dispatch_word (classes_of parts.now) (main_of parts.now) (name_of (heads_in (classes_of parts.now)) class) (reference_in selector.entry) }
{
    match parts.resolver.hier().find(selector.class) {
        None => NOT_IMPLEMENTED,
        Some(interface) => interface_word(parts, class, interface, selector),
    }
}

/// The word of the selector at a place, from 0, in the dispatch row of a class.
pub fn numbered_dispatch_word(parts: &Parts<'_>, class: ClassId, place: u32) -> u32
    requires parts { AreParts parts.now }
    requires loading { IsLoading (classes_of parts.now) class }
    requires within { place < length (selectors (classes_of parts.now)) }
    ensures { slice_get (map (spec.dispatch_word (classes_of parts.now) (main_of parts.now) (name_of (heads_in (classes_of parts.now)) class)) (selectors (classes_of parts.now))) place ≡ Some result }
{
    match parts.selectors.get(place as usize) {
        None => NOT_IMPLEMENTED,
        Some(selector) => dispatch_word(parts, class, selector),
    }
}
