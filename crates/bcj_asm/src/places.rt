// The places that labels name.
ghost use Rattle.std.specs.Prelude.{◌≡◌, ℕ, ◌+◌, ◌*◌, ◌≤◌, length, IfOk, OnOk};
ghost use Rattle.std.specs.Ordering.{nat_cmp};
ghost use Rattle.std.specs.BTreeMap.{get};
ghost use Rattle.bcj_asm.specs.Forms.{last_of, own_place, place_in, places_in, size, sizes};
ghost use Rattle.bcj_asm.specs.Lists.{max_list_length};
ghost use Rattle.bcj_asm.specs.function.Places.{named_place};

use crate::forms::Formed;
use crate::item::{Item, Label, Places};
use std::alloc::{AllocError, Global};
use std::collections::BTreeMap;

/// Each label with its place, and the number of all words.
#[derive(Drop)]
pub struct Labels {
    pub named: BTreeMap<u32, usize>,
    pub words: usize,
}

impl Labels {
    /// The place of a label, and 0 for a label that has none.
    pub fn target(&self, label: Label) -> usize
        ensures { result ≡ named_place self.now.named label.0 }
    {
        self.named.get(&label.0).copied().unwrap_or(0)
    }

    /// Passes over an item behind the words so far.
    fn pass(&mut self, formed: &Formed) -> Result<(), AllocError>
        requires { self.old.words ≤ 2 * max_list_length }
        ensures named { OnOk result ((l : ℕ) → get nat_cmp self.new.named l
            ≡ last_of (get nat_cmp self.old.named l) (own_place self.old.words formed.now.item l)) }
        ensures words { OnOk result (self.new.words ≡ self.old.words + size formed.now.form formed.now.item) }
    {
        if let Item::Place(label) = formed.item {
            self.named.insert(label.0, self.words)?;
        }
        self.words += formed.size();
        Ok(())
    }
}

/// The places of all labels.
pub fn find_places(alloc: Global, forms: &[Formed]) -> Result<Labels, AllocError>
    requires { length forms.now ≤ max_list_length }
    ensures named { IfOk result (λ p. (l : ℕ) → get nat_cmp p.named l ≡ place_in 0 forms.now l) }
    ensures words { IfOk result (λ p. p.words ≡ sizes forms.now) }
{
    let mut labels = Labels {
        named: BTreeMap::new(alloc),
        words: 0,
    };
    for formed in forms {
        labels.pass(formed)?;
    }
    Ok(labels)
}

/// The place of each item.
pub fn item_places(alloc: Global, forms: &[Formed]) -> Result<Places, AllocError>
    requires { length forms.now ≤ max_list_length }
    ensures { IfOk result (λ places. places ≡ places_in 0 forms.now) }
{
    let mut places = Places::new(alloc);
    let mut here = 0;
    for formed in forms {
        places.push(here)?;
        here += formed.size();
    }
    Ok(places)
}
