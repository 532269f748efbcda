// What is assembled, and what it is assembled to.
ghost use Rattle.std.specs.Prelude.{◌≡◌, ◌+◌, ◌<◌, ◌≤◌, ◌↔◌, [], ◌∷◌, ◌++◌, length, OnOk, OnErr, IsSome, slice_get};
ghost use Rattle.std.specs.Option.{option_copied};
ghost use Rattle.bcj_asm.specs.Lists.{max_list_length};

use rv_isa::Instr;
use std::alloc::{AllocError, Global};
use std::marker::Model;

/// A name for a place among the words; any number serves.
#[derive(Clone, Copy)]
pub struct Label(pub u32);

/// A part of the code before labels are resolved. RISC-V Instruction Set Manual, volume I, "Control Transfer Instructions".
#[derive(Clone, Copy)]
pub enum Item {
    /// An instruction as it stands.
    Word(Instr),
    /// A JAL to a label, which writes the address behind it to the register `rd`.
    Jump { rd: u8, to: Label },
    /// A conditional branch to a label, whose own immediate is replaced.
    Branch { instr: Instr, to: Label },
    /// The label names the place of the next word.
    Place(Label),
}

/// A list of at most 4,294,967,295 items.
#[derive(Drop)]
pub struct Items {
    items: Vec<Item>,
}

impl Model for Items {
    ghost use Rattle.std.specs.Prelude.{List, ◌≤◌, length};
    ghost use Rattle.bcj_asm.specs.Lists.{max_list_length};
    ghost use Rattle.bcj_asm.specs.declared.item.Item.{Item};

    ghost Value = { List Item };

    ghost view = { λ l. l.items.items };

    ghost invariant = { λ l. length l.items.items ≤ max_list_length };
}

impl Items {
    pub fn new(alloc: Global) -> Items
        ensures { result ≡ [] }
    {
        Items {
            items: Vec::new(alloc),
        }
    }

    /// Adds an item at the end. Refused, it changes nothing.
    pub fn push(&mut self, item: Item) -> Result<(), AllocError>
        requires { length self.old < max_list_length }
        ensures ok { OnOk result (self.new ≡ self.old ++ item ∷ []) }
        ensures err { OnErr result (self.new ≡ self.old) }
    {
        self.items.push(item)?;
        Ok(())
    }

    pub fn len(&self) -> usize
        ensures { result ≡ length self.now }
    {
        self.items.len()
    }

    /// The item at a place counted from 0.
    pub fn get(&self, at: usize) -> Option<&Item>
        ensures found { IsSome result ↔ (at < length self.now) }
        ensures value { option_copied result ≡ slice_get self.now at }
    {
        self.items.get(at)
    }

    /// The items in order.
    pub(crate) fn as_slice(&self) -> &[Item]
        ensures items { result.now ≡ self.now }
        ensures count { length result.now ≤ max_list_length }
    {
        self.items.as_slice()
    }
}

/// A list of words.
#[derive(Drop)]
pub struct Code {
    words: Vec<u32>,
}

impl Model for Code {
    ghost use Rattle.std.specs.Prelude.{ℕ, List};

    ghost Value = { List ℕ };

    ghost view = { λ c. c.words.items };
}

impl Code {
    pub fn new(alloc: Global) -> Code
        ensures { result ≡ [] }
    {
        Code {
            words: Vec::new(alloc),
        }
    }

    /// Adds a word at the end. Refused, it changes nothing.
    pub fn push(&mut self, word: u32) -> Result<(), AllocError>
        requires { length self.old < max_list_length }
        ensures ok { OnOk result (self.new ≡ self.old ++ word ∷ []) }
        ensures err { OnErr result (self.new ≡ self.old) }
    {
        self.words.push(word)?;
        Ok(())
    }

    pub fn len(&self) -> usize
        ensures { result ≡ length self.now }
    {
        self.words.len()
    }

    /// The word at a place counted from 0.
    pub fn get(&self, at: usize) -> Option<&u32>
        ensures found { IsSome result ↔ (at < length self.now) }
        ensures value { option_copied result ≡ slice_get self.now at }
    {
        self.words.get(at)
    }

    /// The words in order.
    pub fn as_slice(&self) -> &[u32]
        ensures { result.now ≡ self.now }
    {
        self.words.as_slice()
    }
}

/// The place of each item, counted in words from the first.
#[derive(Drop)]
pub struct Places {
    places: Vec<usize>,
}

impl Model for Places {
    ghost use Rattle.std.specs.Prelude.{ℕ, List};

    ghost Value = { List ℕ };

    ghost view = { λ p. p.places.items };
}

impl Places {
    pub(crate) fn new(alloc: Global) -> Places
        ensures { result ≡ [] }
    {
        Places {
            places: Vec::new(alloc),
        }
    }

    /// Adds the place of the next item.
    pub(crate) fn push(&mut self, place: usize) -> Result<(), AllocError>
        ensures ok { OnOk result (self.new ≡ self.old ++ place ∷ []) }
    {
        self.places.push(place)?;
        Ok(())
    }

    pub fn len(&self) -> usize
        ensures { result ≡ length self.now }
    {
        self.places.len()
    }

    /// The place of the item at an index counted from 0.
    pub fn get(&self, at: usize) -> Option<&usize>
        ensures found { IsSome result ↔ (at < length self.now) }
        ensures value { option_copied result ≡ slice_get self.now at }
    {
        self.places.get(at)
    }

    /// The places in the order of the items.
    pub fn as_slice(&self) -> &[usize]
        ensures { result.now ≡ self.now }
    {
        self.places.as_slice()
    }
}
