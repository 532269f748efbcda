ghost use Rattle.std.specs.Prelude.{◌≡◌, ℕ, List, true, false, slice_get, Some};
ghost use Rattle.bcj_hier_rules.specs.Shapes.{Named};
ghost use Rattle.bcj_hier_rules.specs.Trees.{loads};
ghost use Rattle.bcj_hier_rules.specs.Resolution.{FoundField, FoundMethod};
ghost use Rattle.bcj_layout_rules.specs.Rows.{Classes, mixture_of};
ghost use Rattle.bcj_layout_rules.specs.Entries.{address_of_field, address_of_method, offset_of_field};
ghost use Rattle.bcj_layout_resolution.specs.Places.{IsField, IsMethod};
ghost use Rattle.bcj_layout_addresses.specs.Addresses.{AreAddresses};

use crate::addresses::Addresses;
use bcj_hier_rules::ClassId;
use bcj_layout_places::Words;
use bcj_layout_resolution::{FieldId, MethodId};

fn word_at(words: &[u32], member: u32) -> u32
    ensures { (w : ℕ) → slice_get words.now member ≡ Some w → result ≡ w }
{
    match words.get(member as usize) {
        None => 0,
        Some(word) => *word,
    }
}

/// The word of a member of a class; 0 where there is none.
fn word_of(lists: &[Words], class: ClassId, member: u32) -> u32
    ensures { (ws : List ℕ) → slice_get lists.now class.0 ≡ Some ws → (w : ℕ) → slice_get ws member ≡ Some w → result ≡ w }
{
    match lists.get(class.0 as usize) {
        None => 0,
        Some(words) => word_at(words.as_slice(), member),
    }
}

/// Where the code of a method that was found is. It takes no memory.
pub fn method_address(addresses: &Addresses, method: MethodId) -> u32
    ensures { (cs : Classes) (main : Named) (x : FoundMethod) → AreAddresses cs main addresses.now → IsMethod cs method x
        → result ≡ address_of_method cs main x }
{
    word_of(addresses.methods.as_slice(), method.class, method.method)
}

/// Where a field that was found is: the address of a static one, and the offset in objects of another one of a class that loads. It
/// takes no memory.
pub fn field_place(addresses: &Addresses, field: FieldId) -> u32
    ensures static_fields { (cs : Classes) (main : Named) (x : FoundField) → AreAddresses cs main addresses.now → IsField cs field x
        → x.field.is_static ≡ true → result ≡ address_of_field cs main x }
    ensures other_fields { (cs : Classes) (main : Named) (x : FoundField) → AreAddresses cs main addresses.now → IsField cs field x
        → x.field.is_static ≡ false → loads (mixture_of cs) x.class ≡ true → result ≡ offset_of_field cs main x }
{
    word_of(addresses.fields.as_slice(), field.class, field.field)
}
