//! The objects of a mixture.

ghost use Rattle.std.specs.Prelude.{◌≡◌, ◌≤◌, ◌<◌, ◌+◌, take, map, List, ℕ, [], ◌∷◌, length, IfOk, IfErr};
ghost use Rattle.bcj_hier_rules.specs.Heads.{AreDistinct, IsRooted, max_types};
ghost use Rattle.bcj_linker_rules.specs.Memory.{Linked, classes_of};
ghost use Rattle.bcj_linker_objects.specs.Objects.{IsLinked, AreLinked};
ghost use Rattle.bcj_linker_objects.specs.Names.{heads_in};
ghost use Rattle.bcj_linker_objects.specs.Gathering.{linked_of};
ghost use Rattle.bcj_linker_objects.specs.Steps.{Gathers, IsFinished, IsFinishStop};
ghost use Rattle.bcj_linker_objects.specs.Stops.{IsStop, IsStopOf};

use crate::gathering::{Gathering, nothing};
use crate::heads::heads_of;
use crate::stop::{LinkStop, LinkTotal};
use bcj_edge::{Blobs, Bytes};
use bcj_elf::Object;
use bcj_hier::{Hier, HierStop, build};
use bcj_symbolic_trees::Sequence;
use bcj_tables_rules::Records;
use std::alloc::Global;

/// An object, and how many classes it has.
#[derive(Drop)]
pub struct GatheredObject {
    pub object: Object,
    pub classes: u32,
}

/// The objects of a mixture, the boot unit's first, with the records of all their classes in one list. The records of a
/// class keep the offsets of its object.
#[derive(Drop)]
pub struct Gathered {
    pub hier: Hier,
    pub records: Records,
    pub objects: Sequence<GatheredObject>,
}

/// The number of the object with this index behind boot. More objects than a word counts have no room.
fn number_of(index: usize) -> Result<u32, LinkStop>
    ensures number { IfOk result (λ number. number ≡ index + 1) }
    ensures err { IfErr result (λ e. e ≡ LinkStop.NoMemory) }
{
    match u32::try_from(index) {
        Ok(number) if number < u32::MAX => Ok(number + 1),
        _ => Err(LinkStop::NoMemory),
    }
}

/// Takes in the object with this index behind boot.
fn add_at(
    gathering: Gathering,
    alloc: Global,
    objects: &Blobs,
    index: usize,
) -> Result<Gathering, LinkStop>
    requires { index < length objects.now }
    ensures ok { IfOk result (λ g. (boot : List ℕ) → Gathers (boot ∷ take index objects.now) gathering → Gathers (boot ∷ take (index + 1) objects.now) g) }
    ensures err { IfErr result (λ e. (boot : List ℕ) → Gathers (boot ∷ take index objects.now) gathering → IsStopOf (boot ∷ objects.now) e) }
{
    let number = number_of(index)?;
    match objects.get(index) {
        Some(bytes) => gathering.add(alloc, bytes.as_slice(), number),
        // Each index has an object.
        None => unreachable!(),
    }
}

/// All objects.
fn gather_all(alloc: Global, boot: &Bytes, objects: &Blobs) -> Result<Gathering, LinkStop>
    ensures ok { IfOk result (Gathers (boot.now ∷ objects.now)) }
    ensures err { IfErr result (IsStopOf (boot.now ∷ objects.now)) }
{
    let mut gathering = nothing(alloc).add(alloc, boot.as_slice(), 0)?;
    for index in 0..objects.len() {
        gathering = add_at(gathering, alloc, objects, index)?;
    }
    Ok(gathering)
}

/// The hierarchy of the classes, which are of version 2 together, since some may have private members.
fn finish(alloc: Global, gathering: Gathering) -> Result<Gathered, LinkStop>
    requires rooted { IsRooted (heads_in gathering.classes) }
    requires distinct { AreDistinct (heads_in gathering.classes) }
    ensures ok { IfOk result (IsFinished gathering) }
    ensures err { IfErr result (IsFinishStop gathering) }
{
    let heads = heads_of(alloc, gathering.classes.as_slice())?;
    match build(alloc, &heads) {
        Ok(hier) => Ok(Gathered {
            hier,
            records: Records {
                version: 2,
                classes: gathering.classes,
            },
            objects: gathering.objects,
        }),
        Err(HierStop::TooMany) => Err(LinkStop::TooLarge {
            what: LinkTotal::Types,
        }),
        Err(HierStop::NoMemory) => Err(LinkStop::NoMemory),
        // The names differ.
        Err(HierStop::Duplicate { .. }) => unreachable!(),
    }
}

/// The objects of a mixture, boot first, in memory linear in their bytes. The order of the causes is that of the objects,
/// damage before names in each; the total of types comes last.
pub fn gather(alloc: Global, boot: &Bytes, objects: &Blobs) -> Result<Gathered, LinkStop>
    requires boot { (l : Linked) × (IsLinked boot.now l × IsRooted (heads_in l.classes)) }
    ensures objects { IfOk result (λ g. AreLinked (boot.now ∷ objects.now) (linked_of g)) }
    ensures counts { IfOk result (λ g. map (λ o. o.classes) g.objects ≡ map (λ l. length l.classes) (linked_of g)) }
    ensures classes { IfOk result (λ g. g.records.classes ≡ classes_of (linked_of g)) }
    ensures version { IfOk result (λ g. g.records.version ≡ 2) }
    ensures hierarchy { IfOk result (λ g. g.hier ≡ heads_in g.records.classes) }
    ensures rooted { IfOk result (λ g. IsRooted (heads_in g.records.classes)) }
    ensures distinct { IfOk result (λ g. AreDistinct (heads_in g.records.classes)) }
    ensures few { IfOk result (λ g. length g.records.classes ≤ max_types) }
    ensures err { IfErr result (IsStop boot.now objects.now) }
{
    let gathering = gather_all(alloc, boot, objects)?;
    finish(alloc, gathering)
}
