//! The selectors by which methods of interfaces are called.
#![tactic(auto, using(crate::proofs::Rules::selector_rules))]

ghost use Rattle.std.specs.Prelude.{◌≡◌, ◌<◌, ◌^◌, length};

use crate::keys::ReferenceKey;
use bcj_hier_rules::ClassId;
use bcj_layout_resolution::Resolver;
use bcj_names::Name;
use bcj_tables_rules::IEntry;
use indexmap::IndexSet;
use std::alloc::{AllocError, Global};

/// References, each once, that are found by a hash. They are numbered from 1.
#[derive(Drop)]
pub struct Selectors<'a> {
    references: IndexSet<ReferenceKey<'a>>,
    ghost few: { length references.keys < 2 ^ 32 },
}

impl<'a> Selectors<'a> {
    ghost use Rattle.std.specs.Prelude.{[], ◌∷◌, map, fold, slice_get, option_map, IfOk, OnOk};
    ghost use Rattle.std.specs.Option.{option_copied};
    ghost use Rattle.bcj_hier_rules.specs.Heads.{IsIn, name_of};
    ghost use Rattle.bcj_layout_rules.specs.Rows as spec;
    ghost use Rattle.bcj_layout_resolution.specs.Places.{heads_in, wanted};
    ghost use Rattle.bcj_layout_rows.specs.Keys.{reference_in};
    ghost use Rattle.bcj_layout_rows.specs.Found.{selectors_in, numbered};

    /// Puts a reference behind the others where it resolves, unless it is there.
    fn put(
        resolver: &Resolver,
        from: ClassId,
        entry: &'a IEntry,
        references: &mut IndexSet<ReferenceKey<'a>>,
    ) -> Result<(), AllocError>
        requires there { IsIn (heads_in resolver.now) from }
        ensures { OnOk result (map reference_in references.new.keys ≡ spec.with_selector (spec.mixture_of resolver.now) (name_of (heads_in resolver.now) from) (map reference_in references.old.keys) (spec.interface_reference entry.entry.now)) }
    {
        if resolver
            .interface_method(from, &entry.class, &entry.name, &entry.desc)
            .is_ok()
        {
            references.insert(ReferenceKey {
                class: &entry.class,
                name: &entry.name,
                desc: &entry.desc,
            })?;
        }
        Ok(())
    }

    fn put_all(
        resolver: &Resolver,
        from: ClassId,
        entries: &'a [IEntry],
        references: &mut IndexSet<ReferenceKey<'a>>,
    ) -> Result<(), AllocError>
        requires there { IsIn (heads_in resolver.now) from }
        ensures { OnOk result (map reference_in references.new.keys ≡ fold (spec.with_selector (spec.mixture_of resolver.now) (name_of (heads_in resolver.now) from)) (map reference_in references.old.keys) (map spec.interface_reference entries.entry.now)) }
    {
        for entry in entries {
            Selectors::put(resolver, from, entry, references)?;
        }
        Ok(())
    }

    fn gather(
        alloc: Global,
        resolver: &'a Resolver,
    ) -> Result<IndexSet<ReferenceKey<'a>>, AllocError>
        ensures { IfOk result (λ found. map reference_in found.keys ≡ spec.selectors resolver.entry.now) }
    {
        let classes = resolver.records().classes.as_slice();
        let mut references = IndexSet::new(alloc);
        for k in 0..resolver.hier().len() {
            let entries = classes[k].itable.as_slice();
            Selectors::put_all(resolver, ClassId(k as u32), entries, &mut references)?;
        }
        Ok(references)
    }

    /// The references of the interface tables that resolve, each once.
    pub(crate) fn new(alloc: Global, resolver: &'a Resolver) -> Result<Selectors<'a>, AllocError>
        ensures { IfOk result (λ s. selectors_in s ≡ spec.selectors resolver.entry.now) }
    {
        let references = Selectors::gather(alloc, resolver)?;
        if u32::try_from(references.len()).is_err() {
            return Err(AllocError);
        }
        Ok(Selectors { references })
    }

    /// The number of selectors. It takes no memory, as all calls below.
    pub fn len(&self) -> u32
        ensures { result ≡ length (selectors_in self.now) }
    {
        self.references.len() as u32
    }

    /// The number of a selector, from 1.
    pub fn number(&self, class: &Name, name: &Name, desc: &Name) -> Option<u32>
        ensures { result ≡ numbered (selectors_in self.now) (wanted class.now name.now desc.now) }
    {
        let key = ReferenceKey { class, name, desc };
        match self.references.get_index_of(&key) {
            None => None,
            Some(k) => Some(k as u32 + 1),
        }
    }

    /// The selector at a place, from 0.
    pub fn get(&self, place: usize) -> Option<ReferenceKey<'a>>
        ensures { option_map reference_in result ≡ slice_get (selectors_in self.now) place }
    {
        match self.references.get_index(place) {
            None => None,
            Some(key) => Some(*key),
        }
    }

    /// The interface of the selector at a place, from 0.
    pub fn interface(&self, place: usize) -> Option<&Name>
        ensures { option_copied result ≡ option_map (λ r. r.class) (slice_get (selectors_in self.now) place) }
    {
        match self.references.get_index(place) {
            None => None,
            Some(key) => Some(key.class),
        }
    }
}
