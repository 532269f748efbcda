//! The tree of the classes that load, line by line.

ghost use Rattle.std.specs.Prelude.{◌≡◌, ◌++◌, None, OnOk, length, suc};
ghost use Rattle.bcj_hier_rules.specs.Loading.{load_error};
ghost use Rattle.bcj_hier_rules.specs.Heads.{of_heads, IsIn, name_of};
ghost use Rattle.bcj_cli_showing.specs.Lines.{steps_below_object, tree_line};
ghost use Rattle.bcj_cli_showing.specs.Trees.{HaveTree};
ghost use Rattle.bcj_cli_showing.specs.Text.{heads_of_records, tree_lines};

use crate::writer::Writer;
use bcj_hier::{ClassId, Hier};
use bcj_names::Name;
use bcj_symbolic_trees::OBJECT;
use bcj_tables_rules::ClassRecord;
use std::alloc::{AllocError, Global};

/// The steps from a class to Object.
fn steps_below_object(hier: &Hier, class: ClassId, turns: usize) -> usize
    requires tree { HaveTree hier.now }
    requires turns { turns ≡ suc (length hier.now) }
    requires there { IsIn hier.now class }
    requires loads { load_error (of_heads hier.now) (name_of hier.now class) ≡ None }
    ensures { result ≡ steps_below_object (of_heads hier.now) (name_of hier.now class) }
{
    let mut at = class;
    for steps in 0..turns {
        match hier.parent(at) {
            Some(parent) => at = parent,
            None => return steps,
        }
    }
    turns
}

/// The name of a type.
fn name_at(types: &[ClassRecord], class: ClassId) -> &str
    requires { IsIn (heads_of_records types.now) class }
    ensures { result.now ≡ name_of (heads_of_records types.now) class }
{
    types[class.0 as usize].head.name.as_str()
}

impl Writer {
    #[tactic(auto, using(crate::proofs::Rules::line_rules), unfolding(crate::specs::Lines::tree_line))]
    fn tree_class(
        &mut self,
        hier: &Hier,
        types: &[ClassRecord],
        class: ClassId,
        turns: usize,
    ) -> Result<(), AllocError>
        requires tree { HaveTree hier.now }
        requires turns { turns ≡ suc (length hier.now) }
        requires types { heads_of_records types.now ≡ hier.now }
        requires there { IsIn hier.now class }
        requires loads { load_error (of_heads hier.now) (name_of hier.now class) ≡ None }
        ensures { OnOk result (self.new ≡ self.old ++ tree_line (of_heads hier.now) (name_of hier.now class)) }
    {
        self.word("tree")?;
        self.indent(steps_below_object(hier, class, turns))?;
        self.last(name_at(types, class))
    }

    /// Adds the lines of all classes that load, in preorder. `types` has the names.
    pub(crate) fn tree(
        &mut self,
        alloc: Global,
        hier: &Hier,
        types: &[ClassRecord],
    ) -> Result<(), AllocError>
        requires { heads_of_records types.now ≡ hier.now }
        ensures { OnOk result (self.new ≡ self.old ++ tree_lines (of_heads hier.now)) }
    {
        let turns = hier.len() + 1;
        let object = Name::from_str(alloc, OBJECT)?;
        let mut next = hier.find(&object);
        while let Some(class) = next {
            self.tree_class(hier, types, class, turns)?;
            next = hier.next_in_tree(class);
        }
        Ok(())
    }
}
