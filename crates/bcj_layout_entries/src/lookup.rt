ghost use Rattle.std.specs.Prelude.{◌≡◌, ℕ, List, true, false, None, Some, slice_get};
ghost use Rattle.bcj_hier_rules.specs.Shapes.{Named, method_of_record};
ghost use Rattle.bcj_hier_rules.specs.Heads.{IsIn, name_of};
ghost use Rattle.bcj_hier_rules.specs.Loading.{load_error};
ghost use Rattle.bcj_hier_rules.specs.Trees.{loads};
ghost use Rattle.bcj_hier_rules.specs.Resolution.{FoundField, FoundMethod};
ghost use Rattle.bcj_layout_rules.specs.Rows.{Classes, mixture_of};
ghost use Rattle.bcj_layout_rules.specs.Entries.{address_of_field, address_of_method, offset_of_field};
ghost use Rattle.bcj_layout_resolution.specs.Places.{heads_in, IsField, IsMethod};
ghost use Rattle.bcj_layout_addresses.specs.Addresses.{AreAddresses};

use bcj_hier_rules::ClassId;
use bcj_layout_addresses::Addresses;
use bcj_layout_places::Words;
use bcj_layout_resolution::{FieldId, MethodId, Resolver};
use bcj_names::Name;
use bcj_tables_rules::MethodRecord;

/// The class of a name that loads.
pub fn class_of(resolver: &Resolver, name: &Name) -> ClassId
    requires { load_error (mixture_of resolver.now) name.now ≡ None }
    ensures there { IsIn (heads_in resolver.now) result }
    ensures named { name_of (heads_in resolver.now) result ≡ name.now }
{
    match resolver.hier().find(name) {
        None => ClassId(0),
        Some(class) => class,
    }
}

/// The record of a method that was found.
pub fn method_record(resolver: &Resolver, method: MethodId) -> &MethodRecord
    requires { (x : FoundMethod) × IsMethod resolver.now method x }
    ensures there { IsIn (heads_in resolver.now) method.class }
    ensures record { (x : FoundMethod) → IsMethod resolver.now method x → x.method ≡ method_of_record result.now }
    ensures class { (x : FoundMethod) → IsMethod resolver.now method x → x.class ≡ name_of (heads_in resolver.now) method.class }
{
    let _count = resolver.hier().len();
    let classes = resolver.records().classes.as_slice();
    &classes[method.class.0 as usize].methods.as_slice()[method.method as usize]
}

fn word_at(words: &[u32], member: usize) -> u32
    ensures { (w : ℕ) → slice_get words.now member ≡ Some w → result ≡ w }
{
    match words.get(member) {
        None => 0,
        Some(word) => *word,
    }
}

/// The word of a member of a class; 0 where there is none.
pub fn word_of(lists: &[Words], class: ClassId, member: usize) -> u32
    ensures { (ws : List ℕ) → slice_get lists.now class.0 ≡ Some ws → (w : ℕ) → slice_get ws member ≡ Some w → result ≡ w }
{
    match lists.get(class.0 as usize) {
        None => 0,
        Some(words) => word_at(words.as_slice(), member),
    }
}

/// Where the code of a method that was found is.
pub fn method_address(addresses: &Addresses, method: MethodId) -> u32
    ensures { (cs : Classes) (main : Named) (x : FoundMethod) → AreAddresses cs main addresses.now → IsMethod cs method x
        → result ≡ address_of_method cs main x }
{
    word_of(
        addresses.methods.as_slice(),
        method.class,
        method.method as usize,
    )
}

/// Where a field that was found is: the address of a static one, and the offset in objects of another one of a class that loads.
pub fn field_place(addresses: &Addresses, field: FieldId) -> u32
    ensures static_fields { (cs : Classes) (main : Named) (x : FoundField) → AreAddresses cs main addresses.now → IsField cs field x
        → x.field.is_static ≡ true → result ≡ address_of_field cs main x }
    ensures other_fields { (cs : Classes) (main : Named) (x : FoundField) → AreAddresses cs main addresses.now → IsField cs field x
        → x.field.is_static ≡ false → loads (mixture_of cs) x.class ≡ true → result ≡ offset_of_field cs main x }
{
    word_of(
        addresses.fields.as_slice(),
        field.class,
        field.field as usize,
    )
}
