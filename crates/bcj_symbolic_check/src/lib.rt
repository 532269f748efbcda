//! The typing of symbolic units.
#![tactic(auto)]

mod class;
mod expression;
mod kind;
mod members;
mod rules;
mod spelling;
mod statement;
mod surroundings;
mod types;
mod walk;

ghost use Rattle.std.specs.Prelude.{◌≡◌, OnOk, IfErr, Some, None};
ghost use Rattle.bcj_symbolic_trees.specs.Units.{plain_of};
ghost use Rattle.bcj_symbolic_check.specs.Classes.{fault_of, WellTypedLaw};

use crate::class::class_fault;
pub use crate::class::{init_body, method_body};
pub use crate::expression::type_of;
pub use crate::kind::Kind;
pub use crate::surroundings::Body;
use bcj_symbolic_trees::SymUnit;

/// The first node of a unit that has no rule: its class, counted from 0, and its place among the nodes of that class in
/// preorder. The class itself is node 0. A place stands at the last value of its type where the count passes it.
#[derive(Debug, Drop)]
pub struct IllTyped {
    pub class: u32,
    pub place: u32,
}

/// Whether each node of a unit has a rule (after JVMS 4.10.1). It takes no memory.
pub fn check(u: &SymUnit) -> Result<(), IllTyped>
    ensures ok { OnOk result (fault_of (plain_of u.now) ≡ None) }
    ensures fault { IfErr result (λ e. fault_of (plain_of u.now) ≡ Some (record { class = e.class; place = e.place })) }
{
    let classes = u.classes.as_slice();
    for number in 0..classes.len() {
        let (before, _) = classes.split_at(number);
        let found = class_fault(number, before, &classes[number]);
        match found {
            None => {}
            Some(place) => {
                return Err(IllTyped {
                    class: number as u32,
                    place,
                });
            }
        }
    }
    Ok(())
}

/// A unit passes `check` exactly where each node of each class has a rule.
pub fn well_typed_law()
    ensures { WellTypedLaw }
{}
