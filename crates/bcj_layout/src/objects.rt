//! The sizes of objects.

ghost use Rattle.std.specs.Prelude.{◌≡◌};
ghost use Rattle.bcj_hier_rules.specs.Heads.{name_of};
ghost use Rattle.bcj_layout_rules.specs.Members.{field_count};
ghost use Rattle.bcj_layout_rules.specs.Rows.{mixture_of};
ghost use Rattle.bcj_layout_resolution.specs.Places.{heads_in};
ghost use Rattle.bcj_layout_rows.specs.Found.{IsLoading};
ghost use Rattle.bcj_layout.specs.Objects.{object_words};

use crate::layout::Layout;
use bcj_hier_rules::ClassId;

impl Layout {
    /// How many fields an object of a class has.
    fn field_count(&self, c: ClassId) -> u32
        requires { IsLoading self.now.classes c }
        ensures { result ≡ field_count (mixture_of self.now.classes) (name_of (heads_in self.now.classes) c) }
    {
        self.field_counts.as_slice()[c.0 as usize]
    }

    /// The heap words of an object of a class: one for its row, and one for each field. It stands at the last value of a `u32`.
    pub fn words(&self, c: ClassId) -> u32
        requires { IsLoading self.now.classes c }
        ensures { result ≡ object_words (field_count (mixture_of self.now.classes) (name_of (heads_in self.now.classes) c)) }
    {
        self.field_count(c).saturating_add(1)
    }
}
