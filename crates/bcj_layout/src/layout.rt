ghost use Rattle.std.specs.Prelude.{◌≡◌, IfOk};
ghost use Rattle.bcj_layout_resolution.specs.Places.{heads_in};
ghost use Rattle.bcj_layout.specs.LaidOut.{LaidOut};

use crate::keeping::{Kept, Listed, keep};
use bcj_hier::Hier;
use bcj_layout_addresses::Addresses;
use bcj_layout_entries::Entries;
use bcj_layout_places::{Places, Words};
use bcj_layout_resolution::Resolver;
use bcj_symbolic_trees::{Sequence, Types};
use bcj_tables_rules::Records;
use std::alloc::{AllocError, Global};
use std::marker::Model;

/// The layout of an image. Contracts see it as the records of the classes and the name of the main class.
#[derive(Drop)]
pub struct Layout {
    pub(crate) resolver: Resolver,
    pub(crate) main: String,
    pub(crate) arrays: Types,
    pub(crate) places: Places,
    pub(crate) addresses: Addresses,
    pub(crate) entries: Sequence<Entries>,
    pub(crate) start: Entries,
    pub(crate) field_counts: Words,
}

impl Model for Layout {
    ghost use Rattle.std.specs.Prelude.{string_bytes};
    ghost use Rattle.bcj_layout.specs.LaidOut.{LaidOut, IsLaidOut};

    ghost Value = { LaidOut };

    ghost view = { λ l. record { classes = l.resolver; main = string_bytes l.main } };

    ghost invariant = { λ l. IsLaidOut l.resolver (string_bytes l.main) l.arrays l.places l.addresses l.entries l.start l.field_counts };
}

/// The layout of the classes of a resolver, for a main class. An address past 32 bits fits no memory.
pub fn lay_out_resolved(alloc: Global, resolver: Resolver, main: &str) -> Result<Layout, AllocError>
    ensures { IfOk result (λ l. l ≡ record { classes = resolver; main = main.now }) }
{
    let Kept {
        arrays,
        places,
        addresses,
        entries,
        field_counts,
    } = keep(alloc, &resolver, main)?;
    let Listed { classes, start } = entries;
    Ok(Layout {
        resolver,
        main: String::from_str(alloc, main)?,
        arrays,
        places,
        addresses,
        entries: classes,
        start,
        field_counts,
    })
}

/// The layout of the classes of these records, whose heads are those of the hierarchy, for a main class.
pub fn lay_out(
    alloc: Global,
    hier: Hier,
    records: Records,
    main: &str,
) -> Result<Layout, AllocError>
    requires agree { hier ≡ heads_in records.classes }
    ensures { IfOk result (λ l. l ≡ record { classes = records.classes; main = main.now }) }
{
    let resolver = Resolver::new(alloc, hier, records)?;
    lay_out_resolved(alloc, resolver, main)
}

impl Layout {
    /// The records of the classes. It takes no memory, as all calls below.
    pub fn records(&self) -> &Records
        ensures { result.now.classes ≡ self.now.classes }
    {
        self.resolver.records()
    }

    /// The hierarchy of the classes.
    pub fn hier(&self) -> &Hier
        ensures { result.now ≡ heads_in self.now.classes }
    {
        self.resolver.hier()
    }
}
