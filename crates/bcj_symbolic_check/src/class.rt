//! A walk over the nodes of a class.
#![tactic(auto, using(crate::proofs::Rulesets::walk_rules))]

ghost use Rattle.std.specs.Prelude.{◌≡◌, map};
ghost use Rattle.bcj_symbolic_trees.specs.Units.{method_of, class_of};
ghost use Rattle.bcj_symbolic_check.specs.Classes as spec;
ghost use Rattle.bcj_symbolic_check.specs.function.Views.{frame_of};
ghost use Rattle.bcj_symbolic_check.specs.function.Walks.{noted};

use crate::members::{class_holds, has_this};
use crate::statement::statements;
use crate::surroundings::Body;
use crate::walk::Walk;
use bcj_symbolic_trees::{SymClass, SymMethod};

#[tactic(auto, using(crate::proofs::Rulesets::walk_rules), unfolding(crate::specs::Classes::init_frame, crate::specs::function::Views::frame_of))]
/// What the class initialiser is typed in.
pub fn init_body<'a>(class: &'a SymClass) -> Body<'a>
    ensures { frame_of result ≡ spec.init_frame (class_of class.entry.now) }
{
    Body {
        class,
        locals: &class.init.locals,
        has_this: false,
        result: None,
    }
}

#[tactic(auto, using(crate::proofs::Rulesets::walk_rules), unfolding(crate::specs::Classes::method_frame, crate::specs::function::Views::frame_of))]
/// What a method's body is typed in.
pub fn method_body<'a>(class: &'a SymClass, method: &'a SymMethod) -> Body<'a>
    ensures { frame_of result ≡ spec.method_frame (class_of class.entry.now) (method_of method.entry.now) }
{
    Body {
        class,
        locals: &method.locals,
        has_this: has_this(method.kind),
        result: Some(&method.result),
    }
}

fn methods<'a>(all: &'a [SymMethod], class: &'a SymClass, walk: &mut Walk)
    ensures { walk.new ≡ noted walk.old (spec.methods_marks (class_of class.now) (map method_of all.now)) }
{
    for method in all {
        let body = method_body(class, method);
        statements(method.body.as_slice(), &body, false, walk);
    }
}

/// The place of the first node of a class that has no rule.
#[tactic(auto, using(crate::proofs::Rulesets::walk_rules, crate::proofs::Rulesets::fault_rules), unfolding(crate::specs::Classes::class_marks))]
pub fn class_fault<'a>(number: usize, before: &'a [SymClass], class: &'a SymClass) -> Option<u32>
    ensures { result ≡ spec.first_fault (spec.class_marks number (map class_of before.now) (class_of class.now)) }
{
    let mut walk = Walk::start();
    let entered = walk.enter();
    let init = init_body(class);
    statements(class.init.body.as_slice(), &init, false, &mut walk);
    methods(class.methods.as_slice(), class, &mut walk);
    walk.settle(entered, class_holds(number, before, class));
    walk.fault
}
