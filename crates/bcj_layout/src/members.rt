//! The members of classes by their numbers.

ghost use Rattle.std.specs.Prelude.{◌≡◌, ℕ, List, true, false, slice_get, Some};
ghost use Rattle.bcj_tables_rules.specs.declared.records.MethodRecord.{MethodRecord};
ghost use Rattle.bcj_tables_rules.specs.declared.records.ClassRecord.{ClassRecord};
ghost use Rattle.bcj_hier_rules.specs.Trees.{loads};
ghost use Rattle.bcj_hier_rules.specs.Resolution.{FoundField};
ghost use Rattle.bcj_layout_rules.specs.Rows.{mixture_of};
ghost use Rattle.bcj_layout_rules.specs.Places as places;
ghost use Rattle.bcj_layout_rules.specs.Entries.{offset_of_field};
ghost use Rattle.bcj_layout_resolution.specs.Places.{IsField};
ghost use Rattle.bcj_layout.specs.MemberPlaces.{field_numbered};

use crate::layout::Layout;
use bcj_hier_rules::ClassId;
use bcj_layout_addresses::field_place;
use bcj_layout_places::Words;
use bcj_layout_resolution::FieldId;

fn word_at(words: &[u32], member: u32) -> u32
    ensures { (w : ℕ) → slice_get words.now member ≡ Some w → result ≡ w }
{
    match words.get(member as usize) {
        None => 0,
        Some(word) => *word,
    }
}

/// The word of a member of a class; 0 where there is none.
fn word_of(lists: &[Words], class: ClassId, member: u32) -> u32
    ensures { (ws : List ℕ) → slice_get lists.now class.0 ≡ Some ws → (w : ℕ) → slice_get ws member ≡ Some w → result ≡ w }
{
    match lists.get(class.0 as usize) {
        None => 0,
        Some(words) => word_at(words.as_slice(), member),
    }
}

impl Layout {
    /// The address of a method with code, by its number in the record of its class.
    pub fn method_at(&self, c: ClassId, method: u32) -> u32
        ensures { (r : ClassRecord) (m : MethodRecord) → slice_get self.now.classes c.0 ≡ Some r → slice_get r.methods method ≡ Some m
            → result ≡ places.method_at self.now.classes self.now.main c.0 r m }
    {
        word_of(self.addresses.own.as_slice(), c, method)
    }

    /// The offset in bytes of an instance field in the objects of a class that loads, by its number in the record of the class.
    pub fn field_offset(&self, c: ClassId, field: u32) -> u32
        ensures { (x : FoundField) → IsField self.now.classes (field_numbered c field) x → x.field.is_static ≡ false
            → loads (mixture_of self.now.classes) x.class ≡ true → result ≡ offset_of_field self.now.classes self.now.main x }
    {
        field_place(&self.addresses, FieldId { class: c, field })
    }
}
