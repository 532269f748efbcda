//! The numbers of the classes that load, by a walk over their tree.

ghost use Rattle.std.specs.Prelude.{◌≡◌, ◌<◌, ◌≤◌, [], ◌∷◌, ◌++◌, length, IfOk, OnOk};
ghost use Rattle.bcj_hier_rules.specs.Heads.{AreDistinct, IsRooted};
ghost use Rattle.bcj_hier.specs.Numbers as numbers;
ghost use Rattle.bcj_hier.specs.Walks as spec;

use crate::parts::{Part, Parts, parts_at, superclass_place};
use crate::visits::{Visit, Visits};
use bcj_hier_rules::LinkError;
use bcj_symbolic_trees::ClassHead;
use std::alloc::{AllocError, Global};

/// Whether a type is a class that loads and whose superclass has this number.
fn is_child_of(head: &ClassHead, error: Option<LinkError>, parts: &[Part], parent: usize) -> bool
    ensures { result ≡ spec.is_child_by head.now.interface error (numbers.superclass_place parts.now) parent }
{
    if head.interface || error.is_some() {
        return false;
    }
    match superclass_place(parts) {
        None => false,
        Some(place) => place == parent,
    }
}

/// Why a type doesn't load.
pub fn error_at(errors: &[Option<LinkError>], number: usize) -> Option<LinkError>
    ensures { result ≡ spec.error_at errors.now number }
{
    match errors.get(number).copied() {
        None => None,
        Some(error) => error,
    }
}

fn is_child_at(
    heads: &[ClassHead],
    parts: &[Parts],
    errors: &[Option<LinkError>],
    parent: usize,
    number: usize,
) -> bool
    ensures { result ≡ spec.is_child_at heads.now parts.now errors.now parent number }
{
    match heads.get(number) {
        None => false,
        Some(head) => is_child_of(
            head,
            error_at(errors, number),
            parts_at(parts, number),
            parent,
        ),
    }
}

/// Puts the children of a class on the stack, so that the first in the list comes next.
fn push_children(
    stack: &mut Visits,
    heads: &[ClassHead],
    parts: &[Parts],
    errors: &[Option<LinkError>],
    parent: usize,
) -> Result<(), AllocError>
    requires distinct { AreDistinct heads.now }
    requires parts { parts.now ≡ numbers.all_parts heads.now }
    requires errors { spec.AreErrors heads.now errors.now }
    requires parent { parent < length heads.now }
    ensures { OnOk result (spec.HasChildrenFrom heads.now 0 parent stack.old stack.new) }
{
    let mut number = heads.len();
    while number > 0 {
        number -= 1;
        if is_child_at(heads, parts, errors, parent, number) {
            stack.push(Visit::Enter(number))?;
        }
    }
    Ok(())
}

/// The numbers of classes in preorder: the classes in their order, and for each type its first number and the one behind its last.
#[derive(Drop)]
pub struct Tree {
    pub order: Vec<usize>,
    pub lows: Vec<u32>,
    pub highs: Vec<u32>,
}

impl Tree {
    fn new(alloc: Global, count: usize) -> Result<Tree, AllocError>
        ensures order { IfOk result (λ t. t.order.items ≡ []) }
        ensures lows { IfOk result (λ t. spec.AreNoNumbers count t.lows.items) }
        ensures highs { IfOk result (λ t. length t.highs.items ≡ count) }
    {
        Ok(Tree {
            order: Vec::new(alloc),
            lows: vec![in alloc; 0; count]?,
            highs: vec![in alloc; 0; count]?,
        })
    }

    /// Gives a class its number.
    fn meet(&mut self, class: usize) -> Result<(), AllocError>
        requires few { length self.old.order.items < 4096 }
        requires within { class < length self.old.lows.items }
        ensures order { OnOk result (self.new.order.items ≡ self.old.order.items ++ class ∷ []) }
        ensures lows { OnOk result (spec.IsNoted self.old.lows.items class (length self.old.order.items) self.new.lows.items) }
        ensures highs { OnOk result (self.new.highs ≡ self.old.highs) }
    {
        self.order.push(class)?;
        self.lows[class] = self.order.len() as u32;
        Ok(())
    }

    fn enter(
        &mut self,
        stack: &mut Visits,
        heads: &[ClassHead],
        parts: &[Parts],
        errors: &[Option<LinkError>],
        class: usize,
    ) -> Result<(), AllocError>
        requires distinct { AreDistinct heads.now }
        requires rooted { IsRooted heads.now }
        requires few { length heads.now ≤ 4096 }
        requires parts { parts.now ≡ numbers.all_parts heads.now }
        requires errors { spec.AreErrors heads.now errors.now }
        requires walk { spec.IsWalk heads.now self.old.order.items self.old.lows.items self.old.highs.items (Visit.Enter class ∷ stack.old) }
        ensures walk { OnOk result (spec.IsWalk heads.now self.new.order.items self.new.lows.items self.new.highs.items stack.new) }
        ensures fewer { OnOk result (spec.work heads.now stack.new < spec.work heads.now (Visit.Enter class ∷ stack.old)) }
    {
        self.meet(class)?;
        stack.push(Visit::Leave(class))?;
        push_children(stack, heads, parts, errors, class)?;
        Ok(())
    }

    fn leave(&mut self, class: usize)
        requires few { length self.old.order.items ≤ 4096 }
        requires within { class < length self.old.highs.items }
        ensures order { self.new.order ≡ self.old.order }
        ensures lows { self.new.lows ≡ self.old.lows }
        ensures highs { spec.IsNoted self.old.highs.items class (length self.old.order.items) self.new.highs.items }
    {
        self.highs[class] = self.order.len() as u32 + 1;
    }

    /// Makes one step of the walk.
    fn visit(
        &mut self,
        stack: &mut Visits,
        heads: &[ClassHead],
        parts: &[Parts],
        errors: &[Option<LinkError>],
        visit: Visit,
    ) -> Result<(), AllocError>
        requires distinct { AreDistinct heads.now }
        requires rooted { IsRooted heads.now }
        requires few { length heads.now ≤ 4096 }
        requires parts { parts.now ≡ numbers.all_parts heads.now }
        requires errors { spec.AreErrors heads.now errors.now }
        requires walk { spec.IsWalk heads.now self.old.order.items self.old.lows.items self.old.highs.items (visit ∷ stack.old) }
        ensures walk { OnOk result (spec.IsWalk heads.now self.new.order.items self.new.lows.items self.new.highs.items stack.new) }
        ensures fewer { OnOk result (spec.work heads.now stack.new < spec.work heads.now (visit ∷ stack.old)) }
    {
        match visit {
            Visit::Enter(class) => self.enter(stack, heads, parts, errors, class),
            Visit::Leave(class) => {
                self.leave(class);
                Ok(())
            }
        }
    }
}

/// The numbers of the classes that load.
pub fn number_classes(
    alloc: Global,
    heads: &[ClassHead],
    parts: &[Parts],
    errors: &[Option<LinkError>],
) -> Result<Tree, AllocError>
    requires distinct { AreDistinct heads.now }
    requires rooted { IsRooted heads.now }
    requires few { length heads.now ≤ 4096 }
    requires parts { parts.now ≡ numbers.all_parts heads.now }
    requires errors { spec.AreErrors heads.now errors.now }
    ensures { IfOk result (λ t. spec.IsTree heads.now t.order.items t.lows.items t.highs.items) }
{
    let mut tree = Tree::new(alloc, heads.len())?;
    let mut stack = Visits::new(alloc);
    stack.push(Visit::Enter(0))?;
    while let Some(visit) = stack.pop() {
        tree.visit(&mut stack, heads, parts, errors, visit)?;
    }
    Ok(tree)
}
