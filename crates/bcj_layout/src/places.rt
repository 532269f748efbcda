//! The classes whose regions begin at addresses.

ghost use Rattle.std.specs.Prelude.{◌≡◌, ◌<◌, ◌≤◌, ℕ, length, slice_index, MatchOption};
ghost use Rattle.bcj_hier_rules.specs.declared.class_id.ClassId.{ClassId};
ghost use Rattle.bcj_layout.specs.EntryPlaces.{BeginsAt};

use crate::layout::Layout;
use bcj_hier_rules::ClassId;

/// The place of an address among the first of others.
fn place_among(addresses: &[u32], count: usize, at: u32) -> Option<usize>
    requires { count ≤ length addresses.now }
    ensures { MatchOption result ((k : ℕ) → k < count → slice_index addresses.now k ≡ at → ⊥) (λ k. (k < count) × (slice_index addresses.now k ≡ at)) }
{
    for k in 0..count {
        if addresses[k] == at {
            return Some(k);
        }
    }
    None
}

impl Layout {
    /// The class whose region begins at an address.
    pub fn region_at(&self, at: u32) -> Option<ClassId>
        ensures { MatchOption result ((c : ClassId) → BeginsAt self.now.classes self.now.main at c → ⊥) (BeginsAt self.now.classes self.now.main at) }
    {
        let count = self.hier().len();
        match place_among(self.places.regions.as_slice(), count, at) {
            None => None,
            Some(k) => Some(ClassId(k as u32)),
        }
    }
}
