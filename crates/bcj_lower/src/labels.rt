//! The places of labels.

ghost use Rattle.std.specs.Prelude.{◌≡◌, ℕ, ◌==◌, ◌<◌, if◌then◌else◌, map, unwrap_or, vec_len, IfOk, OnOk};
ghost use Rattle.bcj_asm.specs.Forms.{own_place};
ghost use Rattle.bcj_lower_rules.specs.Lines.{items_of};
ghost use Rattle.bcj_lower_words.specs.Views.{line_of};
ghost use Rattle.bcj_lower.specs.function.Labels.{label_place, last_place};

use bcj_asm::Item;
use bcj_lower_words::Line;
use std::alloc::{AllocError, Global};

/// The place of each label by its number: labels are numbered from 0.
#[derive(Drop)]
pub struct LabelPlaces {
    pub places: Vec<usize>,
}

impl LabelPlaces {
    /// The place of a label, and 0 for one that stands nowhere.
    pub fn place(&self, label: u32) -> usize
        ensures { result ≡ label_place self.now label }
    {
        self.places.get(label as usize).copied().unwrap_or(0)
    }

    /// Makes room for a label.
    fn grow(&mut self, at: usize) -> Result<(), AllocError>
        ensures same { OnOk result ((l : ℕ) → label_place self.new l ≡ label_place self.old l) }
        ensures room { OnOk result (at < vec_len self.new.places) }
    {
        if at < self.places.len() {
            return Ok(());
        }
        match at.checked_add(1) {
            None => Err(AllocError),
            Some(length) => self.places.resize(length, 0),
        }
    }

    fn set(&mut self, label: u32, place: usize) -> Result<(), AllocError>
        ensures { OnOk result ((l : ℕ) → label_place self.new l ≡ (if l == label then place else label_place self.old l)) }
    {
        let at = label as usize;
        self.grow(at)?;
        self.places[at] = place;
        Ok(())
    }

    /// Passes over an item at a place.
    fn pass(&mut self, item: Item, place: usize) -> Result<(), AllocError>
        ensures { OnOk result ((l : ℕ) → label_place self.new l ≡ unwrap_or (own_place place item l) (label_place self.old l)) }
    {
        if let Item::Place(label) = item {
            self.set(label.0, place)?;
        }
        Ok(())
    }
}

/// The place of each label of lines whose items stand at these places: the last, if several lines place it.
pub fn label_places<'a>(
    alloc: Global,
    lines: &[Line<'a>],
    places: &[usize],
) -> Result<LabelPlaces, AllocError>
    ensures { IfOk result (λ t. (l : ℕ) → label_place t l ≡ last_place 0 (items_of (map line_of lines.now)) places.now l) }
{
    let mut labels = LabelPlaces {
        places: Vec::new(alloc),
    };
    for (line, place) in lines.iter().zip(places) {
        labels.pass(line.item, *place)?;
    }
    Ok(labels)
}
