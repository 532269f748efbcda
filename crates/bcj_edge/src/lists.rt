// Lists of words and of blobs.
ghost use Rattle.std.specs.Prelude.{◌≡◌, ◌+◌, ◌<◌, ◌↔◌, List, [], ◌∷◌, ◌++◌, length, OnOk, OnErr, IsSome, IfSome};
ghost use Rattle.std.specs.List.{slice_get};
ghost use Rattle.bcj_edge.specs.Lists.{max_list_length};

use crate::byte_list::Bytes;
use std::alloc::{AllocError, Global};
use std::marker::Model;

/// A list of texts.
#[derive(Drop)]
pub struct Words {
    items: Vec<String>,
}

impl Model for Words {
    ghost use Rattle.std.specs.Prelude.{ℕ, List, map, string_bytes};

    ghost Value = { List (List ℕ) };

    ghost view = { λ w. map (λ t. string_bytes t) w.items.items };
}

impl Words {
    pub fn new(alloc: Global) -> Words
        ensures { result ≡ [] }
    {
        Words {
            items: Vec::new(alloc),
        }
    }

    /// Adds a word at the end. Refused, it changes nothing.
    pub fn push(&mut self, word: &str) -> Result<(), AllocError>
        requires { length self.old < max_list_length }
        ensures ok { OnOk result (self.new ≡ self.old ++ word.now ∷ []) }
        ensures err { OnErr result (self.new ≡ self.old) }
    {
        let text = String::from_str(*self.items.allocator(), word)?;
        self.items.push(text)?;
        Ok(())
    }

    pub fn len(&self) -> usize
        ensures { result ≡ length self.now }
    {
        self.items.len()
    }

    /// The word at a place counted from 0.
    pub fn get(&self, at: usize) -> Option<&str>
        ensures found { IsSome result ↔ (at < length self.now) }
        ensures value { IfSome result (λ word. slice_get self.now at ≡ Some word.now) }
    {
        match self.items.get(at) {
            Some(text) => Some(text.as_str()),
            None => None,
        }
    }
}

/// A list of byte lists.
#[derive(Drop)]
pub struct Blobs {
    items: Vec<Bytes>,
}

impl Model for Blobs {
    ghost use Rattle.std.specs.Prelude.{ℕ, List};

    ghost Value = { List (List ℕ) };

    ghost view = { λ b. b.items.items };
}

impl Blobs {
    pub fn new(alloc: Global) -> Blobs
        ensures { result ≡ [] }
    {
        Blobs {
            items: Vec::new(alloc),
        }
    }

    /// Adds a blob at the end. Refused, it changes nothing, and the blob is given up.
    pub fn push(&mut self, blob: Bytes) -> Result<(), AllocError>
        requires { length self.old < max_list_length }
        ensures ok { OnOk result (self.new ≡ self.old ++ blob ∷ []) }
        ensures err { OnErr result (self.new ≡ self.old) }
    {
        self.items.push(blob)?;
        Ok(())
    }

    pub fn len(&self) -> usize
        ensures { result ≡ length self.now }
    {
        self.items.len()
    }

    /// The blob at a place counted from 0.
    pub fn get(&self, at: usize) -> Option<&Bytes>
        ensures found { IsSome result ↔ (at < length self.now) }
        ensures value { IfSome result (λ blob. slice_get self.now at ≡ Some blob.now) }
    {
        self.items.get(at)
    }
}
