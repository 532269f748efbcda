//! The words of an image before its heap.

ghost use Rattle.std.specs.Prelude.{◌≡◌, ◌<◌, ◌≤◌, length, replicate, slice_get, Some, IfOk, IfErr};
ghost use Rattle.bcj_layout_rules.specs.Places as places;
ghost use Rattle.bcj_layout_rules.specs.Rows as rows;
ghost use Rattle.bcj_layout_rows.specs.Found.{rows_in, selectors_in};
ghost use Rattle.bcj_layout_places.specs.Places.{ArePlaces};
ghost use Rattle.bcj_layout_addresses.specs.Addresses.{AreAddresses};
ghost use Rattle.bcj_layout_addresses.specs.Parts.{AreParts, classes_of, main_of};
ghost use Rattle.bcj_linker_rules.specs.Memory.{image_of};
ghost use Rattle.bcj_linker_rules.specs.Memory as memory;
ghost use Rattle.bcj_linker_objects.specs.Gathering.{linked_in};
ghost use Rattle.bcj_linker_code.specs.Objects.{AreObjects};
ghost use Rattle.bcj_linker.specs.Steps.{AreImageWords, IsImageStop};

use bcj_layout_addresses::{Addresses, Parts, find_addresses};
use bcj_layout_members::Members;
use bcj_layout_places::{Places, Words, find_places};
use bcj_layout_resolution::Resolver;
use bcj_layout_rows::{ArrayRows, Selectors, array_types, selectors};
use bcj_layout_total::image_size;
use bcj_linker_code::{push_code, push_start};
use bcj_linker_objects::{GatheredObject, LinkStop, LinkTotal};
use bcj_linker_rows::{push_dispatch_rows, push_rows, push_statics, push_tables};
use bcj_symbolic_trees::Sequence;
use std::alloc::{AllocError, Global};

/// The most bytes of an image before its heap.
const MAX_IMAGE: u64 = 67_108_864;

/// The address of the start code.
pub const START_AT: u32 = 16;

/// The words before the start code.
const FIRST_WORDS: usize = 4;

/// The bytes of a word.
const WORD_SIZE: u32 = 4;

/// The words of an image before its heap. Places count bytes.
#[derive(Drop)]
pub struct ImageWords {
    pub words: Words,
    /// The end of what a run may not write.
    pub read_only: u32,
    /// The words of the start code and of all methods.
    pub code_words: u32,
    pub heap_at: u32,
}

/// The words before the start code, which are 0.
fn first_words(alloc: Global) -> Result<Words, AllocError>
    ensures { IfOk result (λ words. words ≡ replicate 4 0) }
{
    Ok(Sequence::of(vec![in alloc; 0; FIRST_WORDS]?))
}

/// The words, part behind part: those before the start code, the code, the rows, the dispatch rows, the tables and the static fields.
fn words_of(
    alloc: Global,
    parts: &Parts<'_>,
    objects: &[GatheredObject],
) -> Result<Words, AllocError>
    requires parts { AreParts parts.now }
    requires objects { AreObjects (classes_of parts.now) objects.now }
    requires whole { classes_of parts.now ≡ memory.classes_of (linked_in objects.now (classes_of parts.now)) }
    ensures { IfOk result (λ words. words ≡ image_of (linked_in objects.now (classes_of parts.now)) (main_of parts.now)) }
{
    let mut words = first_words(alloc)?;
    push_start(parts.places, &mut words)?;
    push_code(parts.places, objects, &mut words)?;
    push_rows(parts, &mut words)?;
    push_dispatch_rows(parts, &mut words)?;
    push_tables(parts, &mut words)?;
    push_statics(parts, &mut words)?;
    Ok(words)
}

/// The address behind so many members.
fn address_at(addresses: &Words, count: usize) -> u32
    requires { count < length addresses.now }
    ensures { slice_get addresses.now count ≡ Some result }
{
    addresses.as_slice()[count]
}

/// The words of the start code and of all methods, by where the last one ends.
fn code_words(parts: &Parts<'_>) -> u32
    requires { AreParts parts.now }
    ensures { result ≡ places.image_words (classes_of parts.now) (main_of parts.now) }
{
    let end = address_at(&parts.places.text, parts.resolver.records().classes.len());
    (end - START_AT) / WORD_SIZE
}

/// The words with what a run must know of them.
fn image_from(
    alloc: Global,
    parts: &Parts<'_>,
    objects: &[GatheredObject],
) -> Result<ImageWords, AllocError>
    requires parts { AreParts parts.now }
    requires objects { AreObjects (classes_of parts.now) objects.now }
    requires whole { classes_of parts.now ≡ memory.classes_of (linked_in objects.now (classes_of parts.now)) }
    ensures { IfOk result (AreImageWords (linked_in objects.now (classes_of parts.now)) (main_of parts.now)) }
{
    let count = parts.resolver.records().classes.len();
    Ok(ImageWords {
        words: words_of(alloc, parts, objects)?,
        read_only: address_at(&parts.places.regions, count),
        code_words: code_words(parts),
        heap_at: address_at(&parts.places.statics, count),
    })
}

/// The image by the places of its parts.
fn image_at(
    alloc: Global,
    resolver: &Resolver,
    members: &Members<'_>,
    selectors: &Selectors<'_>,
    arrays: &ArrayRows<'_>,
    places: &Places,
    addresses: &Addresses,
    objects: &[GatheredObject],
    main: &str,
) -> Result<ImageWords, AllocError>
    requires same { members.now ≡ resolver.now }
    requires these { selectors_in selectors.now ≡ rows.selectors resolver.now }
    requires arrays { rows_in arrays.now ≡ rows.array_types resolver.now }
    requires places { ArePlaces resolver.now main.now places.now }
    requires addresses { AreAddresses resolver.now main.now addresses.now }
    requires objects { AreObjects resolver.now objects.now }
    requires whole { resolver.now ≡ memory.classes_of (linked_in objects.now resolver.now) }
    ensures { IfOk result (AreImageWords (linked_in objects.now resolver.now) main.now) }
{
    let parts = Parts {
        resolver,
        members,
        selectors,
        arrays,
        places,
        addresses,
        main,
    };
    image_from(alloc, &parts, objects)
}

/// The image with its parts laid out.
fn laid_out(
    alloc: Global,
    resolver: &Resolver,
    members: &Members<'_>,
    objects: &[GatheredObject],
    main: &str,
) -> Result<ImageWords, AllocError>
    requires same { members.now ≡ resolver.now }
    requires objects { AreObjects resolver.now objects.now }
    requires whole { resolver.now ≡ memory.classes_of (linked_in objects.now resolver.now) }
    ensures { IfOk result (AreImageWords (linked_in objects.now resolver.now) main.now) }
{
    let numbered = selectors(alloc, resolver)?;
    let types = array_types(alloc, resolver)?;
    let arrays = ArrayRows::new(alloc, &types)?;
    let places = find_places(alloc, resolver, members, &numbered, types.as_slice(), main)?;
    let addresses = find_addresses(alloc, resolver, members, &places, main)?;
    image_at(
        alloc, resolver, members, &numbered, &arrays, &places, &addresses, objects, main,
    )
}

/// The image of objects for a main class, where it isn't too large.
pub fn image_words(
    alloc: Global,
    resolver: &Resolver,
    objects: &[GatheredObject],
    main: &str,
) -> Result<ImageWords, LinkStop>
    requires objects { AreObjects resolver.now objects.now }
    requires whole { resolver.now ≡ memory.classes_of (linked_in objects.now resolver.now) }
    ensures fits { IfOk result (λ _. places.heap_at resolver.now main.now ≤ places.max_image) }
    ensures ok { IfOk result (AreImageWords (linked_in objects.now resolver.now) main.now) }
    ensures err { IfErr result (IsImageStop resolver.now main.now) }
{
    let classes = resolver.records().classes.as_slice();
    let members = Members::new(alloc, resolver.hier(), classes)?;
    if image_size(alloc, resolver, &members, main)? > MAX_IMAGE {
        return Err(LinkStop::TooLarge {
            what: LinkTotal::Image,
        });
    }
    Ok(laid_out(alloc, resolver, &members, objects, main)?)
}
