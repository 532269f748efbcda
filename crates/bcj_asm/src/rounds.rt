// The rounds in which branches become short.
ghost use Rattle.std.specs.Prelude.{◌≡◌, ℕ, ◌+◌, ◌*◌, ◌≤◌, ◌<◌, false, List, [], ◌∷◌, ◌++◌, length, IfOk, OnOk};
ghost use Rattle.bcj_asm.specs.Forms.{all_long, branch_size, distance, formed, in_form, next_forms, reaches, size};
ghost use Rattle.bcj_asm.specs.Lists.{max_list_length};
ghost use Rattle.bcj_asm.specs.function.Places.{as_one, form_at, named_place};

use crate::forms::{Form, Formed};
use crate::item::Item;
use crate::places::{Labels, find_places};
use std::alloc::{AllocError, Global};

/// How many words a branch reaches forward: 4,094 bytes.
const FORWARD: usize = 1_023;

/// How many words a branch reaches back: 4,096 bytes.
const BACK: usize = 1_024;

/// What a round gave for the items so far.
#[derive(Drop)]
struct Round {
    forms: Vec<Formed>,
    /// Whether a form isn't what it was.
    changed: bool,
    /// The words of these items before the round.
    words: usize,
}

impl Round {
    /// Passes over the next item.
    fn pass(&mut self, labels: &Labels, formed: &Formed) -> Result<(), AllocError>
        requires { self.old.words ≤ 2 * max_list_length }
        ensures forms { OnOk result (self.new.forms.items ≡ self.old.forms.items
            ++ in_form
            (form_at (named_place labels.now.named) self.old.words formed.now.form formed.now.item)
            formed.now.item ∷ []) }
        ensures words { OnOk result (self.new.words ≡ self.old.words + size formed.now.form formed.now.item) }
        ensures before { OnOk result (self.new.changed ≡ false → self.old.changed ≡ false) }
        ensures same { OnOk result (self.new.changed ≡ false
            → form_at (named_place labels.now.named) self.old.words formed.now.form formed.now.item ≡ formed.now.form) }
    {
        let form = next_form(labels, self.words, formed);
        self.changed = self.changed || differs(formed.form, form);
        self.words += formed.size();
        self.forms.push(Formed {
            form,
            item: formed.item,
        })?;
        Ok(())
    }
}

fn differs(old: Form, new: Form) -> bool
    ensures { result ≡ false → new ≡ old }
{
    match (old, new) {
        (Form::Short, Form::Short) | (Form::Long, Form::Long) => false,
        _ => true,
    }
}

/// The form of an item at a place in the next round.
fn next_form(labels: &Labels, here: usize, formed: &Formed) -> Form
    ensures { result ≡ form_at (named_place labels.now.named) here formed.now.form formed.now.item }
{
    match formed.item {
        Item::Branch { instr: _, to } => {
            let to = as_one(here, formed.form, labels.target(to));
            if is_near(here, to) {
                Form::Short
            } else {
                Form::Long
            }
        }
        _ => Form::Long,
    }
}

/// Where a place lies when a branch counts as one word.
fn as_one(here: usize, form: Form, to: usize) -> usize
    ensures { result ≡ as_one here (branch_size form) to }
{
    if here < to {
        to - (form.size() - 1)
    } else {
        to
    }
}

/// Whether a branch reaches from one place to another.
fn is_near(here: usize, to: usize) -> bool
    ensures { result ≡ reaches (distance here to) }
{
    if here <= to {
        to - here <= FORWARD
    } else {
        here - to <= BACK
    }
}

/// One round over all items.
fn next_round(alloc: Global, forms: &[Formed]) -> Result<Round, AllocError>
    requires { length forms.now ≤ max_list_length }
    ensures forms { IfOk result (λ r. r.forms.items ≡ next_forms forms.now) }
    ensures same { IfOk result (λ r. r.changed ≡ false → r.forms.items ≡ forms.now) }
{
    let labels = find_places(alloc, forms)?;
    let mut round = Round {
        forms: Vec::new(alloc),
        changed: false,
        words: 0,
    };
    for formed in forms {
        round.pass(&labels, formed)?;
    }
    Ok(round)
}

fn all_long(alloc: Global, items: &[Item]) -> Result<Vec<Formed>, AllocError>
    ensures { IfOk result (λ forms. forms.items ≡ all_long items.now) }
{
    let mut forms = Vec::new(alloc);
    for item in items {
        forms.push(Formed {
            form: Form::Long,
            item: *item,
        })?;
    }
    Ok(forms)
}

/// The items in the forms that they take: rounds until one changes nothing.
pub fn form_all(alloc: Global, items: &[Item]) -> Result<Vec<Formed>, AllocError>
    requires { length items.now ≤ max_list_length }
    ensures { IfOk result (λ forms. forms.items ≡ formed items.now) }
{
    let mut forms = all_long(alloc, items)?;
    for _turn in 0..items.len() {
        let round = next_round(alloc, forms.as_slice())?;
        forms = round.forms;
        if !round.changed {
            return Ok(forms);
        }
    }
    Ok(forms)
}
