//! The words of lines, with the places of their items and labels among them.

ghost use Rattle.std.specs.Prelude.{◌≡◌, ◌++◌, [], ◌∷◌, map, IfOk, OnOk};
ghost use Rattle.bcj_asm.specs.Assembly.{AreItems, Assembles, IsItem};
ghost use Rattle.bcj_asm.specs.Forms.{formed, places_of};
ghost use Rattle.bcj_asm.specs.Reach.{items_in};
ghost use Rattle.bcj_lower_rules.specs.Classes.{line_words};
ghost use Rattle.bcj_lower_rules.specs.Lines.{items_of};
ghost use Rattle.bcj_lower_words.specs.Views.{line_of};
ghost use Rattle.bcj_lower.specs.function.Labels.{HasPlaces};

use crate::item::is_item;
use crate::labels::{LabelPlaces, label_places};
use bcj_asm::{Assembled, Code, Item, Items, Places, assemble_with_places, labels_are_reached};
use bcj_lower_words::Line;
use std::alloc::{AllocError, Global};

/// How many items a list may have.
const MAX_ITEMS: usize = 4_294_967_295;

/// The words of a body, and the places of its items and labels, counted in words from its first.
#[derive(Drop)]
pub struct Placed {
    pub code: Code,
    pub places: Places,
    pub labels: LabelPlaces,
}

fn push_item(items: &mut Items, item: Item) -> Result<(), AllocError>
    ensures pushed { OnOk result (items.new ≡ items.old ++ item ∷ []) }
    ensures in_range { OnOk result (IsItem item) }
{
    if items.len() < MAX_ITEMS && is_item(item) {
        items.push(item)
    } else {
        Err(AllocError)
    }
}

fn items_of<'a>(alloc: Global, lines: &[Line<'a>]) -> Result<Items, AllocError>
    ensures items { IfOk result (λ items. items ≡ items_of (map line_of lines.now)) }
    ensures in_range { IfOk result (λ items. AreItems items) }
{
    let mut items = Items::new(alloc);
    for line in lines {
        push_item(&mut items, line.item)?;
    }
    Ok(items)
}

fn assembled(alloc: Global, items: &Items) -> Result<Assembled, AllocError>
    requires { AreItems items.now }
    ensures code { IfOk result (λ a. Assembles items.now a.code) }
    ensures places { IfOk result (λ a. a.places ≡ places_of items.now) }
    ensures same { IfOk result (λ a. items_in (formed items.now) ≡ items.now) }
{
    labels_are_reached();
    match assemble_with_places(alloc, items) {
        Ok(assembled) => Ok(assembled),
        Err(_) => Err(AllocError),
    }
}

/// Assembles lines. That there are too many words is answered as want of memory: limits are tested before.
pub fn place<'a>(alloc: Global, lines: &[Line<'a>]) -> Result<Placed, AllocError>
    ensures code { IfOk result (λ p. p.code ≡ line_words (map line_of lines.now)) }
    ensures places { IfOk result (λ p. p.places ≡ places_of (items_of (map line_of lines.now))) }
    ensures labels { IfOk result (λ p. HasPlaces p.labels (map line_of lines.now)) }
{
    let items = items_of(alloc, lines)?;
    let Assembled { code, places } = assembled(alloc, &items)?;
    let labels = label_places(alloc, lines, places.as_slice())?;
    Ok(Placed {
        code,
        places,
        labels,
    })
}
