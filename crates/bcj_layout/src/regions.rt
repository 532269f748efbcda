//! The table regions of the classes, and the parts of an image behind them.

ghost use Rattle.std.specs.Prelude.{◌≡◌, slice_get, Some};
ghost use Rattle.bcj_tables_rules.specs.declared.records.ClassRecord.{ClassRecord};
ghost use Rattle.bcj_hier_rules.specs.Heads.{IsIn};
ghost use Rattle.bcj_layout_rules.specs.Places as places;
ghost use Rattle.bcj_layout_resolution.specs.Places.{heads_in};
ghost use Rattle.bcj_layout_entries.specs.Entries.{AreEntries};
ghost use Rattle.bcj_layout_entries.specs.Start.{AreStartEntries};

use crate::layout::Layout;
use bcj_hier_rules::ClassId;
use bcj_layout_entries::Entry;

impl Layout {
    /// The address of a class's region.
    pub fn region(&self, c: ClassId) -> u32
        requires { IsIn (heads_in self.now.classes) c }
        ensures { result ≡ places.region_at self.now.classes self.now.main c.0 }
    {
        self.places.regions.as_slice()[c.0 as usize]
    }

    /// The entries of a class's tables, in their order.
    pub fn entries(&self, c: ClassId) -> &[Entry]
        requires { IsIn (heads_in self.now.classes) c }
        ensures { (r : ClassRecord) → slice_get self.now.classes c.0 ≡ Some r → AreEntries self.now.classes self.now.main r result.now }
    {
        self.entries.as_slice()[c.0 as usize].as_slice()
    }

    /// The entries of the start's region.
    pub fn start_entries(&self) -> &[Entry]
        ensures { AreStartEntries self.now.classes self.now.main result.now }
    {
        self.start.as_slice()
    }

    /// The address of the start's region.
    pub fn tables(&self) -> u32
        ensures { result ≡ places.tables_at self.now.classes self.now.main }
    {
        self.places.tables
    }

    /// The end of the tables, behind which a run may write.
    pub fn read_only_end(&self) -> u32
        ensures { result ≡ places.read_only_end self.now.classes self.now.main }
    {
        let count = self.resolver.records().classes.len();
        self.places.regions.as_slice()[count]
    }

    /// The address of the heap.
    pub fn heap_at(&self) -> u32
        ensures { result ≡ places.heap_at self.now.classes self.now.main }
    {
        let count = self.resolver.records().classes.len();
        self.places.statics.as_slice()[count]
    }

    /// The address of the code of a class.
    pub fn text(&self, c: ClassId) -> u32
        requires { IsIn (heads_in self.now.classes) c }
        ensures { result ≡ places.class_text_at self.now.classes self.now.main c.0 }
    {
        self.places.text.as_slice()[c.0 as usize]
    }
}
