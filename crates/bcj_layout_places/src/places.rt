ghost use Rattle.std.specs.Prelude.{◌≡◌, ◌+◌, ◌*◌, ◌++◌, length, map, IfOk};
ghost use Rattle.std.specs.List.{All};
ghost use Rattle.bcj_symbolic_trees.specs.Types.{types_of};
ghost use Rattle.bcj_hier_rules.specs.Heads.{name_of};
ghost use Rattle.bcj_layout_rules.specs.Rows as spec;
ghost use Rattle.bcj_layout_rules.specs.Places as places;
ghost use Rattle.bcj_layout_resolution.specs.Places.{heads_in};
ghost use Rattle.bcj_layout_rows.specs.Found.{selectors_in, IsLoading};
ghost use Rattle.bcj_layout_places.specs.Places.{ArePlaces};
ghost use Rattle.bcj_layout_places.specs.Parts.{IsPart, AreDispatchRows, class_row};

use crate::adding::behind;
use crate::classes::{code_sizes, region_sizes, static_sizes};
use crate::part::{Part, Words, dispatch_rows, place_all};
use crate::start::{start_words, takes_arguments};
use crate::types::{dispatch_sizes, row_sizes};
use bcj_hier_rules::ClassId;
use bcj_layout_members::Members;
use bcj_layout_resolution::Resolver;
use bcj_layout_rows::{ClassIds, RowNumbers, Selectors, class_rows, loaded};
use bcj_symbolic_trees::Ty;
use bcj_tables_rules::ClassRecord;
use std::alloc::{AllocError, Global};

/// The bytes before the start code.
const START_AT: u32 = 16;

/// The words of the empty dispatch row.
const EMPTY_DISPATCH: u32 = 1;

/// The words of the start's table region: the row of MAIN, that of the arguments' type, and main.
const START_REGION: u32 = 3;

/// The addresses at which the parts of an image begin. A list with one address for each class or row has one more behind them, where
/// the next part begins.
#[derive(Drop)]
pub struct Places {
    /// Whether the main class has a `main` that takes arguments.
    pub takes_arguments: bool,
    /// The types that load, in order.
    pub loaded: ClassIds,
    /// The number of the row of each class, none where it doesn't load.
    pub row_numbers: RowNumbers,
    /// The code of each class.
    pub text: Words,
    /// The rows by their numbers.
    pub rows: Words,
    /// For each type that loads its dispatch row, which is the empty one or its own.
    pub dispatch: Words,
    /// The tables, with the start's region first.
    pub tables: u32,
    /// The table region of each class.
    pub regions: Words,
    /// The static fields of each class.
    pub statics: Words,
}

/// The code of the classes, behind the start code.
fn text_part(alloc: Global, classes: &[ClassRecord], main: &str) -> Result<Part, AllocError>
    ensures { IfOk result (IsPart (places.text_at classes.now main.now) (map places.class_words classes.now)) }
{
    let at = behind(START_AT, start_words(classes, main))?;
    let sizes = code_sizes(alloc, classes)?;
    place_all(alloc, at, sizes.as_slice())
}

/// The rows of types that load, and then those of arrays.
fn row_part(
    alloc: Global,
    at: u32,
    members: &Members<'_>,
    classes: &[ClassId],
    arrays: &[Ty],
) -> Result<Part, AllocError>
    requires loaded { All (IsLoading members.now) classes.now }
    ensures { IfOk result (IsPart at (map (class_row members.now) (map (name_of (heads_in members.now)) classes.now) ++ map (λ _. places.row_head) arrays.now)) }
{
    let sizes = row_sizes(alloc, members, classes, arrays)?;
    place_all(alloc, at, sizes.as_slice())
}

/// The dispatch rows, the empty one first.
fn dispatch_part(
    alloc: Global,
    at: u32,
    resolver: &Resolver,
    selectors: &Selectors<'_>,
    classes: &[ClassId],
) -> Result<Part, AllocError>
    requires these { selectors_in selectors.now ≡ spec.selectors resolver.now }
    requires loaded { All (IsLoading resolver.now) classes.now }
    ensures { IfOk result (AreDispatchRows at (at + places.word_size * EMPTY_DISPATCH) (map (places.dispatch_words resolver.now) (map (name_of (heads_in resolver.now)) classes.now))) }
{
    let own = behind(at, EMPTY_DISPATCH)?;
    let sizes = dispatch_sizes(alloc, resolver, selectors, classes)?;
    dispatch_rows(alloc, at, own, sizes.as_slice())
}

/// The table regions, the start's first.
fn region_part(alloc: Global, at: u32, classes: &[ClassRecord]) -> Result<Part, AllocError>
    ensures { IfOk result (IsPart (at + places.word_size * START_REGION) (map places.region_words classes.now)) }
{
    let first = behind(at, START_REGION)?;
    let sizes = region_sizes(alloc, classes)?;
    place_all(alloc, first, sizes.as_slice())
}

fn static_part(alloc: Global, at: u32, classes: &[ClassRecord]) -> Result<Part, AllocError>
    ensures { IfOk result (IsPart at (map (λ c. length (places.statics_in c)) classes.now)) }
{
    let sizes = static_sizes(alloc, classes)?;
    place_all(alloc, at, sizes.as_slice())
}

/// The places of an image. An address past 32 bits fits no memory.
pub fn find_places(
    alloc: Global,
    resolver: &Resolver,
    members: &Members<'_>,
    selectors: &Selectors<'_>,
    arrays: &[Ty],
    main: &str,
) -> Result<Places, AllocError>
    requires same { members.now ≡ resolver.now }
    requires these { selectors_in selectors.now ≡ spec.selectors resolver.now }
    requires arrays { types_of arrays.now ≡ spec.array_types resolver.now }
    ensures { IfOk result (ArePlaces resolver.now main.now) }
{
    let classes = resolver.records().classes.as_slice();
    let loaded = loaded(alloc, resolver)?;
    let row_numbers = class_rows(alloc, resolver)?;
    let text = text_part(alloc, classes, main)?;
    let rows = row_part(alloc, text.next, members, loaded.as_slice(), arrays)?;
    let dispatch = dispatch_part(alloc, rows.next, resolver, selectors, loaded.as_slice())?;
    let regions = region_part(alloc, dispatch.next, classes)?;
    let statics = static_part(alloc, regions.next, classes)?;
    Ok(Places {
        takes_arguments: takes_arguments(classes, main),
        loaded,
        row_numbers,
        text: text.places,
        rows: rows.places,
        dispatch: dispatch.places,
        tables: dispatch.next,
        regions: regions.places,
        statics: statics.places,
    })
}
