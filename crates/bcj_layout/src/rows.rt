//! The rows of an image, and the rows at addresses.

ghost use Rattle.std.specs.Prelude.{◌≡◌, ◌≤◌, ◌<◌, ◌^◌, ℕ, length, slice_index, IfSome, IfNone};
ghost use Rattle.bcj_layout_rules.specs.Rows.{loaded, row_types};
ghost use Rattle.bcj_layout_rules.specs.Places.{row_at};
ghost use Rattle.bcj_layout_rules.specs.Entries.{row_of};
ghost use Rattle.bcj_layout_rows.specs.Found.{IsLoading};
ghost use Rattle.bcj_layout.specs.RowTypes.{IsRow, type_of_row, class_number, number_of_row, Begins, IsRowAt};

use crate::layout::Layout;
use crate::row_id::RowId;
use bcj_hier_rules::ClassId;

/// The place of a number among numbers that rise.
fn place_of(numbers: &[u32], number: u32) -> Option<usize>
    requires rising { (i j : ℕ) → i ≤ j → j < length numbers.now → slice_index numbers.now i ≤ slice_index numbers.now j }
    ensures within { IfSome result (λ k. k < length numbers.now) }
    ensures there { IfSome result (λ k. slice_index numbers.now k ≡ number) }
    ensures none { IfNone result ((k : ℕ) → k < length numbers.now → slice_index numbers.now k ≡ number → ⊥) }
{
    match numbers.binary_search(&number) {
        Err(_) => None,
        Ok(place) => Some(place),
    }
}

impl Layout {
    /// The number of the row of a class or interface.
    fn class_number(&self, c: ClassId) -> usize
        requires { IsLoading self.now.classes c }
        ensures number { result ≡ class_number self.now.classes c }
        ensures within { result < length (loaded self.now.classes) }
    {
        self.places.row_numbers.as_slice()[c.0 as usize].unwrap_or(0) as usize
    }

    /// How many types load.
    fn class_count(&self) -> usize
        ensures { result ≡ length (loaded self.now.classes) }
    {
        self.places.loaded.len()
    }

    /// How many rows there are.
    fn row_count(&self) -> usize
        ensures { result ≡ length (row_types self.now.classes) }
    {
        self.places.rows.len() - 1
    }

    /// The number of a row.
    fn row_number(&self, r: RowId) -> usize
        requires { IsRow self.now.classes r }
        ensures number { result ≡ number_of_row self.now.classes r }
        ensures within { result < length (row_types self.now.classes) }
    {
        let _count = self.row_count();
        match r {
            RowId::Class(c) => self.class_number(c),
            RowId::Array(array) => self.class_count() + array as usize,
        }
    }

    fn address(&self, r: RowId) -> u32
        requires { IsRow self.now.classes r }
        ensures { result ≡ row_at self.now.classes self.now.main (number_of_row self.now.classes r) }
    {
        self.places.rows.as_slice()[self.row_number(r)]
    }

    /// The address of a row, which is also that of the row of its type.
    pub fn row(&self, r: RowId) -> u32
        requires { IsRow self.now.classes r }
        ensures number { result ≡ row_at self.now.classes self.now.main (number_of_row self.now.classes r) }
        ensures of_type { result ≡ row_of self.now.classes self.now.main (type_of_row self.now.classes r) }
    {
        self.address(r)
    }

    /// The number of the row that begins at an address.
    fn number_at(&self, at: u32) -> Option<usize>
        ensures there { IfSome result (Begins self.now.classes self.now.main at) }
        ensures few { IfSome result (λ n. n < 2 ^ 32) }
        ensures none { IfNone result ((n : ℕ) → Begins self.now.classes self.now.main at n → ⊥) }
    {
        let count = self.row_count();
        match place_of(self.places.rows.as_slice(), at) {
            None => None,
            Some(number) => { if number < count { Some(number) } else { None } }
        }
    }

    /// The row with this number.
    fn row_numbered(&self, number: usize) -> RowId
        requires within { number < length (row_types self.now.classes) }
        requires few { number < 2 ^ 32 }
        ensures row { IsRow self.now.classes result }
        ensures number { number_of_row self.now.classes result ≡ number }
        ensures one { (r : RowId) → IsRow self.now.classes r → number_of_row self.now.classes r ≡ number → result ≡ r }
    {
        let _facts = self.resolver.hier().len();
        let loaded = self.places.loaded.as_slice();
        if number < loaded.len() {
            RowId::Class(loaded[number])
        } else {
            RowId::Array((number - loaded.len()) as u32)
        }
    }

    /// The row that begins at an address.
    pub fn row_at(&self, at: u32) -> Option<RowId>
        ensures there { IfSome result (IsRowAt self.now.classes self.now.main at) }
        ensures each { (r : RowId) → IsRowAt self.now.classes self.now.main at r → result ≡ Some r }
    {
        match self.number_at(at) {
            None => None,
            Some(number) => Some(self.row_numbered(number)),
        }
    }
}
