ghost use Rattle.std.specs.Prelude.{◌≡◌, ◌<◌, length, map, None, Some, IfSome, if◌then◌else◌};
ghost use Rattle.std.specs.Option.{option_map};
ghost use Rattle.std.specs.List.{position};
ghost use Rattle.bcj_layout_rules.specs.Members.{same_owner, same_slot};
ghost use Rattle.bcj_layout_members.specs.Places.{name_at, IsPlace, ArePlaces, slot_at, wanted};

use bcj_hier_rules::ClassId;
use bcj_names::Name;
use bcj_tables_rules::ClassRecord;

/// A method, by its number in the record of its class: of those that share a slot the first.
#[derive(Clone, Copy)]
pub struct Place {
    pub class: ClassId,
    pub method: u32,
}

fn is_owner(classes: &[ClassRecord], owner: Option<ClassId>, is_private: bool, class: &Name) -> bool
    requires { IfSome owner (λ o. o.0 < length classes.now) }
    ensures { result ≡ same_owner (option_map (λ o. name_at classes.now o.0) owner) (if is_private then Some class.now else None) }
{
    match owner {
        None => !is_private,
        Some(o) => is_private && classes[o.0 as usize].head.name.same(class),
    }
}

/// Whether a method has the slot.
pub fn is_slot(
    classes: &[ClassRecord],
    place: Place,
    name: &Name,
    desc: &Name,
    owner: Option<ClassId>,
) -> bool
    requires there { IsPlace classes.now place }
    requires owned { IfSome owner (λ o. o.0 < length classes.now) }
    ensures { result ≡ same_slot (wanted classes.now name.now desc.now owner) (slot_at classes.now place) }
{
    let class = &classes[place.class.0 as usize];
    let method = &class.methods.as_slice()[place.method as usize];
    name.same(&method.name)
        && desc.same(&method.desc)
        && is_owner(classes, owner, method.is_private, &class.head.name)
}

/// The number of the slot among those of these methods.
pub fn number_among(
    classes: &[ClassRecord],
    places: &[Place],
    name: &Name,
    desc: &Name,
    owner: Option<ClassId>,
) -> Option<usize>
    requires there { ArePlaces classes.now places.now }
    requires owned { IfSome owner (λ o. o.0 < length classes.now) }
    ensures { result ≡ position (same_slot (wanted classes.now name.now desc.now owner)) (map (slot_at classes.now) places.now) }
{
    for (k, place) in places.iter().enumerate() {
        if is_slot(classes, *place, name, desc, owner) {
            return Some(k);
        }
    }
    None
}
