// Items and the forms that they take.
ghost use Rattle.std.specs.Prelude.{◌≡◌, ◌≤◌};
ghost use Rattle.bcj_asm.specs.Forms.{size};

use crate::item::Item;

/// How a branch is written. RISC-V Instruction Set Manual, volume I, "Conditional Branches".
#[derive(Clone, Copy)]
pub enum Form {
    /// The branch itself.
    Short,
    /// The opposite branch over a jump.
    Long,
}

/// An item with its form, which matters for a branch alone.
#[derive(Clone, Copy)]
pub struct Formed {
    pub form: Form,
    pub item: Item,
}

impl Formed {
    /// How many words the item takes.
    pub fn size(&self) -> usize
        ensures exact { result ≡ size self.now.form self.now.item }
        ensures few { result ≤ 2 }
    {
        match self.item {
            Item::Word(_) | Item::Jump { rd: _, to: _ } => 1,
            Item::Branch { instr: _, to: _ } => self.form.size(),
            Item::Place(_) => 0,
        }
    }
}

impl Form {
    ghost use Rattle.std.specs.Prelude.{◌≡◌, ◌≤◌};
    ghost use Rattle.bcj_asm.specs.Forms.{branch_size};

    /// How many words a branch takes.
    pub fn size(self) -> usize
        ensures exact { result ≡ branch_size self }
        ensures some { 1 ≤ result }
        ensures few { result ≤ 2 }
    {
        match self {
            Form::Short => 1,
            Form::Long => 2,
        }
    }
}
