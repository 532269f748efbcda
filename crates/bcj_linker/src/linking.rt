ghost use Rattle.std.specs.Prelude.{◌≡◌, ◌∷◌, IfOk, IfErr};
ghost use Rattle.bcj_hier_rules.specs.Heads.{IsRooted};
ghost use Rattle.bcj_linker_rules.specs.Memory.{Linked, classes_of};
ghost use Rattle.bcj_linker_objects.specs.Objects.{IsLinked};
ghost use Rattle.bcj_linker_objects.specs.Names.{heads_in};
ghost use Rattle.bcj_linker_objects.specs.Gathering.{linked_of};
ghost use Rattle.bcj_linker_code.specs.Objects.{AreObjects};
ghost use Rattle.bcj_linker.specs.Links.{IsImage, IsLinkStop};
ghost use Rattle.bcj_linker.specs.Steps.{IsImageOf, IsImageStop};

use crate::frames::stack_words;
use crate::image::Image;
use crate::image_words::{START_AT, image_words};
use crate::memory::memory_of;
use bcj_edge::{Blobs, Bytes};
use bcj_layout::lay_out_resolved;
use bcj_layout_resolution::Resolver;
use bcj_linker_objects::{Gathered, LinkStop, gather};
use std::alloc::Global;

/// The image of objects whose classes are gathered.
fn image_of(
    alloc: Global,
    gathered: Gathered,
    main: &str,
    heap: u32,
    depth: u32,
) -> Result<Image, LinkStop>
    requires hierarchy { gathered.hier ≡ heads_in gathered.records.classes }
    requires objects { AreObjects gathered.records.classes gathered.objects }
    requires whole { gathered.records.classes ≡ classes_of (linked_of gathered) }
    ensures ok { IfOk result (IsImageOf (linked_of gathered) main.now heap depth) }
    ensures err { IfErr result (IsImageStop gathered.records.classes main.now) }
{
    let Gathered {
        hier,
        records,
        objects,
    } = gathered;
    let resolver = Resolver::new(alloc, hier, records)?;
    let image = image_words(alloc, &resolver, objects.as_slice(), main)?;
    let stack = stack_words(resolver.records().classes.as_slice(), depth)?;
    let memory = memory_of(alloc, image.words.as_slice(), heap, stack)?;
    let layout = lay_out_resolved(alloc, resolver, main)?;
    Ok(Image {
        memory,
        layout,
        start: START_AT,
        read_only: image.read_only,
        words: image.code_words,
        heap_at: image.heap_at,
        heap_words: heap,
        depth,
    })
}

/// The image of the objects behind boot, for a main class, with so many words of heap and calls at most `depth` deep. The order of the
/// refusals is that of the objects, damage before names in each; then the total of types, and that of the image.
pub fn link(
    alloc: Global,
    boot: &Bytes,
    objects: &Blobs,
    main: &str,
    heap: u32,
    depth: u32,
) -> Result<Image, LinkStop>
    requires boot { (l : Linked) × (IsLinked boot.now l × IsRooted (heads_in l.classes)) }
    ensures ok { IfOk result (IsImage boot.now objects.now main.now heap depth) }
    ensures err { IfErr result (IsLinkStop boot.now objects.now main.now) }
{
    let gathered = gather(alloc, boot, objects)?;
    image_of(alloc, gathered, main, heap, depth)
}
