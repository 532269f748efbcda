ghost use Rattle.std.specs.Prelude.{◌≡◌, ◌<◌, ℕ, List, [], ◌∷◌, drop, length, IfOk, IfErr};
ghost use Rattle.bcj_linker_rules.specs.Memory.{Linked, classes_of};
ghost use Rattle.bcj_linker_objects.specs.Gathering.{linked_in};
ghost use Rattle.bcj_linker_objects.specs.Names.{heads_in};
ghost use Rattle.bcj_symbolic_measure.specs.Totals.{capped};
ghost use Rattle.bcj_layout_rules.specs.Places.{heap_at};
ghost use Rattle.bcj_cli_showing.specs.Text.{show_text};
ghost use Rattle.bcj_cli_shown.specs.Causes.{IsCause, AreTwo, AreGathered, IsGathered};
ghost use Rattle.bcj_cli_shown.specs.Shows.{IsShown};

use bcj_cli_showing::show_bytes;
use bcj_edge::{Blobs, Bytes};
use bcj_layout_members::Members;
use bcj_layout_resolution::Resolver;
use bcj_layout_total::image_size;
use bcj_linker_objects::{Gathered, GatheredObject, LinkStop, LinkTotal, gather};
use bcj_object_boot::make_boot;
use bcj_tables_rules::ClassRecord;
use std::alloc::{AllocError, Global};

/// The most bytes of an image.
const MAX_IMAGE: u64 = 67_108_864;

/// The classes behind so many.
fn behind(classes: &[ClassRecord], count: usize) -> &[ClassRecord]
    ensures { result.now ≡ drop count classes.now }
{
    if count <= classes.len() {
        &classes[count..]
    } else {
        &[]
    }
}

/// The text of the second of two objects, whose classes are behind those of the first.
fn text_of_second(
    alloc: Global,
    resolver: &Resolver,
    objects: &[GatheredObject],
) -> Result<Bytes, AllocError>
    requires two { length objects.now ≡ 2 }
    requires whole { resolver.now ≡ classes_of (linked_in objects.now resolver.now) }
    ensures { IfOk result (λ text. (own : Linked)
        × AreTwo (linked_in objects.now resolver.now) own
        × (text ≡ show_text (heads_in resolver.now) own.classes own.object.text)) }
{
    let classes = resolver.records().classes.as_slice();
    match objects {
        [boot, own] => show_bytes(
            alloc,
            resolver.hier(),
            classes,
            behind(classes, boot.classes as usize),
            own.object.text.as_slice(),
        ),
        _ => unreachable!(),
    }
}

/// The bytes of the image of these classes.
fn size_of(alloc: Global, resolver: &Resolver) -> Result<u64, AllocError>
    ensures { IfOk result (λ n. n ≡ capped (heap_at resolver.now [])) }
{
    let classes = resolver.records().classes.as_slice();
    let members = Members::new(alloc, resolver.hier(), classes)?;
    image_size(alloc, resolver, &members, "")
}

/// The text of the second of two objects, where their image isn't too large.
fn text_of_small(
    alloc: Global,
    resolver: &Resolver,
    objects: &[GatheredObject],
) -> Result<Bytes, LinkStop>
    requires two { length objects.now ≡ 2 }
    requires whole { resolver.now ≡ classes_of (linked_in objects.now resolver.now) }
    ensures ok { IfOk result (λ text. (bytes : List ℕ) → AreGathered bytes objects.now resolver.now → IsShown bytes text) }
    ensures err { IfErr result (λ e. (bytes : List ℕ) → AreGathered bytes objects.now resolver.now → IsCause bytes e) }
{
    if size_of(alloc, resolver)? > MAX_IMAGE {
        return Err(LinkStop::TooLarge {
            what: LinkTotal::Image,
        });
    }
    Ok(text_of_second(alloc, resolver, objects)?)
}

/// Boot and the object, linked by name.
fn gathered(alloc: Global, object: Bytes) -> Result<Gathered, LinkStop>
    ensures ok { IfOk result (IsGathered object) }
    ensures err { IfErr result (IsCause object) }
{
    let boot = make_boot(alloc)?;
    let mut objects = Blobs::new(alloc);
    objects.push(object)?;
    gather(alloc, &boot, &objects)
}

/// The text of an object.
pub fn text_of(alloc: Global, object: Bytes) -> Result<Bytes, LinkStop>
    ensures ok { IfOk result (IsShown object) }
    ensures err { IfErr result (IsCause object) }
{
    let Gathered {
        hier,
        records,
        objects,
    } = gathered(alloc, object)?;
    let resolver = Resolver::new(alloc, hier, records)?;
    text_of_small(alloc, &resolver, objects.as_slice())
}
