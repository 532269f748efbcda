//! What a layout keeps, worked out from the records of the classes.

ghost use Rattle.std.specs.Prelude.{◌≡◌, map, IfOk};
ghost use Rattle.bcj_symbolic_trees.specs.Types.{types_of};
ghost use Rattle.bcj_layout_rules.specs.Rows as rows;
ghost use Rattle.bcj_layout_rows.specs.Found.{selectors_in};
ghost use Rattle.bcj_layout_places.specs.Places.{ArePlaces};
ghost use Rattle.std.specs.List.{IsDistinct};
ghost use Rattle.bcj_symbolic_trees.specs.Same.{same_type};
ghost use Rattle.bcj_layout_addresses.specs.Addresses.{AreAddresses};
ghost use Rattle.bcj_layout_addresses.specs.Parts.{AreParts, classes_of, main_of};
ghost use Rattle.bcj_layout_entries.specs.Entries.{AreAllEntries};
ghost use Rattle.bcj_layout_entries.specs.Start.{AreStartEntries};
ghost use Rattle.bcj_hier_rules.specs.Heads.{IsIn, name_of};
ghost use Rattle.bcj_layout_resolution.specs.Places.{heads_in};
ghost use Rattle.bcj_layout.specs.Objects.{kept_fields};
ghost use Rattle.bcj_layout.specs.LaidOut.{IsLaidOut};

use bcj_hier_rules::ClassId;
use bcj_layout_addresses::{Addresses, Parts, find_addresses};
use bcj_layout_entries::{Entries, all_entries, start_entries};
use bcj_layout_members::Members;
use bcj_layout_places::{Places, Words, find_places};
use bcj_layout_resolution::Resolver;
use bcj_layout_rows::{ArrayRows, Selectors, array_types, selectors};
use bcj_symbolic_trees::{Sequence, Types};
use std::alloc::{AllocError, Global};

/// The entries of all tables.
#[derive(Drop)]
pub struct Listed {
    pub classes: Sequence<Entries>,
    pub start: Entries,
}

/// What is kept beside the records.
#[derive(Drop)]
pub struct Kept {
    pub arrays: Types,
    pub places: Places,
    pub addresses: Addresses,
    pub entries: Listed,
    pub field_counts: Words,
}

/// The entries of all tables, by the places of what they name.
fn list_entries(alloc: Global, parts: &Parts<'_>) -> Result<Listed, AllocError>
    requires { AreParts parts.now }
    ensures classes { IfOk result (λ l. AreAllEntries (classes_of parts.now) (main_of parts.now) l.classes) }
    ensures start { IfOk result (λ l. AreStartEntries (classes_of parts.now) (main_of parts.now) l.start) }
{
    Ok(Listed {
        classes: all_entries(alloc, parts)?,
        start: start_entries(alloc, parts)?,
    })
}

/// The same, by what is found of the types and members.
fn find_entries(
    alloc: Global,
    resolver: &Resolver,
    members: &Members<'_>,
    selectors: &Selectors<'_>,
    arrays: &Types,
    places: &Places,
    addresses: &Addresses,
    main: &str,
) -> Result<Listed, AllocError>
    requires same { members.now ≡ resolver.now }
    requires these { selectors_in selectors.now ≡ rows.selectors resolver.now }
    requires types { types_of arrays.now ≡ rows.array_types resolver.now }
    requires distinct { IsDistinct same_type (types_of arrays.now) }
    requires places { ArePlaces resolver.now main.now places.now }
    requires addresses { AreAddresses resolver.now main.now addresses.now }
    ensures classes { IfOk result (λ l. AreAllEntries resolver.now main.now l.classes) }
    ensures start { IfOk result (λ l. AreStartEntries resolver.now main.now l.start) }
{
    let numbers = ArrayRows::new(alloc, arrays)?;
    let parts = Parts {
        resolver,
        members,
        selectors,
        arrays: &numbers,
        places,
        addresses,
        main,
    };
    list_entries(alloc, &parts)
}

/// How many fields an object of a class has; 0 where it doesn't load.
fn field_count(resolver: &Resolver, members: &Members<'_>, c: ClassId) -> u32
    requires same { members.now ≡ resolver.now }
    requires there { IsIn (heads_in resolver.now) c }
    ensures { result ≡ kept_fields resolver.now (name_of (heads_in resolver.now) c) }
{
    match resolver.hier().load(c) {
        Err(_) => 0,
        Ok(()) => members.field_count(c),
    }
}

/// The same of each class.
fn field_counts(
    alloc: Global,
    resolver: &Resolver,
    members: &Members<'_>,
) -> Result<Words, AllocError>
    requires same { members.now ≡ resolver.now }
    ensures { IfOk result (λ counts. counts ≡ map (λ c. kept_fields resolver.now c.head.name) resolver.now) }
{
    let count = resolver.hier().len();
    let mut counts = Sequence::new(alloc);
    for k in 0..count {
        counts.push(field_count(resolver, members, ClassId(k as u32)))?;
    }
    Ok(counts)
}

/// What is kept of the classes of a resolver, for a main class.
pub fn keep(alloc: Global, resolver: &Resolver, main: &str) -> Result<Kept, AllocError>
    ensures { IfOk result (λ k. IsLaidOut resolver.now main.now k.arrays k.places k.addresses k.entries.classes k.entries.start k.field_counts) }
{
    let members = Members::new(
        alloc,
        resolver.hier(),
        resolver.records().classes.as_slice(),
    )?;
    let numbered = selectors(alloc, resolver)?;
    let arrays = array_types(alloc, resolver)?;
    let places = find_places(
        alloc,
        resolver,
        &members,
        &numbered,
        arrays.as_slice(),
        main,
    )?;
    let addresses = find_addresses(alloc, resolver, &members, &places, main)?;
    let entries = find_entries(
        alloc, resolver, &members, &numbered, &arrays, &places, &addresses, main,
    )?;
    let field_counts = field_counts(alloc, resolver, &members)?;
    Ok(Kept {
        arrays,
        places,
        addresses,
        entries,
        field_counts,
    })
}
