ghost use Rattle.std.specs.Prelude.{◌≡◌, ◌<◌, [], ◌∷◌, ◌++◌, ℕ, None, Some, length, IfOk, IfErr, IfSome, OnOk};
ghost use Rattle.bcj_hier_rules.specs.Heads.{AreDistinct};
ghost use Rattle.bcj_hier.specs.Numbers.{numbered, names_of};
ghost use Rattle.bcj_hier.specs.Stops.{IsStop, IsDuplicate};

use crate::stop::HierStop;
use bcj_names::Name;
use bcj_symbolic_trees::ClassHead;
use indexmap::IndexSet;
use std::alloc::{AllocError, Global};
use std::marker::Model;

/// Names, each once, with their numbers from 0. Contracts see the list of the names.
#[derive(Drop)]
pub struct NameTable {
    index: IndexSet<String>,
}

impl Model for NameTable {
    ghost use Rattle.std.specs.Prelude.{List, ℕ, map, string_bytes};

    ghost Value = { List (List ℕ) };

    ghost view = { λ t. map string_bytes t.index.keys };
}

impl NameTable {
    /// A table without names.
    pub fn new(alloc: Global) -> NameTable
        ensures { result ≡ [] }
    {
        NameTable {
            index: IndexSet::new(alloc),
        }
    }

    /// Puts a name behind the others, unless it is there: then its number is the answer.
    pub fn add(&mut self, alloc: Global, name: &Name) -> Result<Option<usize>, AllocError>
        ensures absent { IfOk result (λ r. r ≡ numbered self.old name.now) }
        ensures added { IfOk result (λ r. r ≡ None → self.new ≡ self.old ++ name.now ∷ []) }
    {
        let text = String::from_str(alloc, name.as_str())?;
        let (number, added) = self.index.insert_full(text)?;
        Ok(if added { None } else { Some(number) })
    }

    /// The number of a name. It takes no memory.
    pub fn find(&self, name: &Name) -> Option<usize>
        ensures number { result ≡ numbered self.now name.now }
        ensures within { IfSome result (λ k. k < length self.now) }
    {
        self.index.get_index_of(name.as_str())
    }
}

fn duplicate(
    alloc: Global,
    name: &Name,
    first: usize,
    second: usize,
) -> Result<HierStop, AllocError>
    ensures { IfOk result (λ e. IsDuplicate name.now first second e) }
{
    let name = name.copy(alloc)?;
    match u32::try_from(second) {
        Err(_) => Ok(HierStop::NoMemory),
        Ok(later) => match u32::try_from(first) {
            Err(_) => Ok(HierStop::NoMemory),
            Ok(earlier) => Ok(HierStop::Duplicate {
                name,
                first: earlier,
                second: later,
            }),
        },
    }
}

/// The names of these heads, where none stands twice.
pub fn number_names(alloc: Global, heads: &[ClassHead]) -> Result<NameTable, HierStop>
    ensures named { IfOk result (λ names. names ≡ names_of heads.now) }
    ensures distinct { OnOk result (AreDistinct heads.now) }
    ensures err { IfErr result (λ e. IsStop heads.now e) }
{
    let mut names = NameTable::new(alloc);
    for (second, head) in heads.iter().enumerate() {
        match names.add(alloc, &head.name)? {
            None => {}
            Some(first) => return Err(duplicate(alloc, &head.name, first, second)?),
        }
    }
    Ok(names)
}
