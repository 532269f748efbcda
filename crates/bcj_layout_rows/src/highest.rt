//! The highest selector of a class.
#![tactic(auto, using(crate::proofs::Rules::highest_rules))]

ghost use Rattle.std.specs.Prelude.{◌≡◌, ◌<◌, ◌≤◌, length, None, IfOk};
ghost use Rattle.bcj_hier_rules.specs.Heads.{IsIn, name_of};
ghost use Rattle.bcj_hier_rules.specs.Loading.{load_error, implements};
ghost use Rattle.bcj_layout_rules.specs.Rows as spec;
ghost use Rattle.bcj_layout_resolution.specs.Places.{heads_in};
ghost use Rattle.bcj_layout_rows.specs.Found.{selectors_in, interface_at};

use crate::selector_table::Selectors;
use bcj_hier_rules::ClassId;
use bcj_layout_resolution::Resolver;
use std::alloc::{AllocError, Global};

/// The references of the interface tables that resolve, each once.
pub fn selectors<'a>(alloc: Global, resolver: &'a Resolver) -> Result<Selectors<'a>, AllocError>
    ensures { IfOk result (λ s. selectors_in s ≡ spec.selectors resolver.entry.now) }
{
    Selectors::new(alloc, resolver)
}

impl<'a> Selectors<'a> {
    /// Whether a class implements the interface of the selector at a place, from 0.
    fn is_implemented(&self, resolver: &Resolver, class: ClassId, place: u32) -> bool
        requires these { selectors_in self.now ≡ spec.selectors resolver.now }
        requires there { IsIn (heads_in resolver.now) class }
        requires loads { load_error (spec.mixture_of resolver.now) (name_of (heads_in resolver.now) class) ≡ None }
        requires within { place < length (selectors_in self.now) }
        ensures { result ≡ implements (spec.mixture_of resolver.now) (name_of (heads_in resolver.now) class) (interface_at (selectors_in self.now) place) }
    {
        let hier = resolver.hier();
        match self.interface(place as usize) {
            None => false,
            Some(name) => match hier.find(name) {
                None => false,
                Some(interface) => hier.implements(class, interface),
            },
        }
    }

    /// The highest number of a selector whose interface a class implements, and 0 where there is none.
    pub fn highest(&self, resolver: &Resolver, class: ClassId) -> u32
        requires these { selectors_in self.now ≡ spec.selectors resolver.now }
        requires there { IsIn (heads_in resolver.now) class }
        requires loads { load_error (spec.mixture_of resolver.now) (name_of (heads_in resolver.now) class) ≡ None }
        ensures number { result ≡ spec.highest resolver.now (name_of (heads_in resolver.now) class) }
        ensures within { result ≤ length (selectors_in self.now) }
    {
        let mut count = self.len();
        while count > 0 {
            if self.is_implemented(resolver, class, count - 1) {
                return count;
            }
            count -= 1;
        }
        0
    }
}
