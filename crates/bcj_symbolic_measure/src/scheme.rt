//! How many words the parts of code have that recur.
#![tactic(auto, using(crate::proofs::Rules::entry_rules))]

ghost use Rattle.std.specs.Prelude.{◌≡◌};
ghost use Rattle.bcj_symbolic_trees.specs.Types.{ty_of};
ghost use Rattle.bcj_symbolic_trees.specs.Plain.{expr_of};
ghost use Rattle.bcj_symbolic_check.specs.Steps as steps;
ghost use Rattle.bcj_symbolic_check.specs.Judgements.{sort};
ghost use Rattle.bcj_symbolic_check.specs.function.Views.{frame_of, known_of};
ghost use Rattle.bcj_symbolic_measure.specs.Scheme as spec;

use bcj_symbolic_check::{Body, Kind, type_of};
use bcj_symbolic_trees::{BinaryOp, Name, SymExpr, Ty};

/// An instruction on registers alone.
pub const COMPUTE: u64 = 1;

pub const LOAD: u64 = 1;

pub const STORE: u64 = 1;

pub const BRANCH: u64 = 1;

pub const JUMP: u64 = 1;

/// A call or a return.
pub const CALL: u64 = 1;

pub const SAVE: u64 = 1;

pub const ADDRESS: u64 = 2;

pub const FAR_BRANCH: u64 = 2;

pub const SERVICE: u64 = 2;

pub const FAIL: u64 = 3;

pub const NULL_TEST: u64 = 3;

pub const INITIALISE: u64 = 4;

pub const TURN: u64 = 5;

pub const ENTRY: u64 = 12;

pub const EXIT: u64 = 4;

pub const ELEMENT_ADDRESS: u64 = 10;

/// Of a method that is selected by class.
pub const METHOD_LOOKUP: u64 = 7;

/// Of a method that is selected by interface.
pub const INTERFACE_LOOKUP: u64 = 18;

/// Of a cast and of an instance test.
pub const INSTANCE_TEST: u64 = 16;

/// The use of a table's entry.
pub const USE: u64 = 6;

/// The load of an entry that was used.
pub const FETCH: u64 = 2;

/// Of the operands of an operator.
const OPERANDS: u64 = 2;

/// The operands and the operator.
pub fn operation(op: BinaryOp) -> u64
    ensures { result ≡ spec.operation op }
{
    match op {
        BinaryOp::Eq | BinaryOp::Ne | BinaryOp::Le | BinaryOp::Ge => OPERANDS + COMPUTE + COMPUTE,
        BinaryOp::Div | BinaryOp::Rem => OPERANDS + BRANCH + FAIL + COMPUTE,
        BinaryOp::Or
        | BinaryOp::Xor
        | BinaryOp::And
        | BinaryOp::Lt
        | BinaryOp::Gt
        | BinaryOp::Shl
        | BinaryOp::Shr
        | BinaryOp::Ushr
        | BinaryOp::Add
        | BinaryOp::Sub
        | BinaryOp::Mul => OPERANDS + COMPUTE,
    }
}

/// A null test where it is said.
pub fn tested(said: bool) -> u64
    ensures { result ≡ spec.tested said }
{
    if said { NULL_TEST } else { 0 }
}

/// The old value, loaded again where an update gives it.
pub fn old_value(post: bool) -> u64
    ensures { result ≡ spec.old_value post }
{
    if post { LOAD } else { 0 }
}

/// Whether a class is Object, which is made without a constructor.
#[tactic(auto, unfolding(crate::specs::Scheme::is_object_class))]
pub fn is_object(class: &Name) -> bool
    ensures { result ≡ spec.is_object_class class.now }
{
    class.as_str() == "Object"
}

fn is_reference(ty: &Ty) -> bool
    ensures { result ≡ steps.is_reference (ty_of ty.now) }
{
    match ty {
        Ty::Class(_) | Ty::Array(_) => true,
        Ty::Int | Ty::Bool | Ty::Void => false,
    }
}

fn kind_holds_references<'a>(array: Option<Kind<'a>>) -> bool
    ensures { result ≡ spec.holds_references (known_of array.entry) }
{
    match array {
        None => false,
        Some(kind) => match kind {
            Kind::Array(component) => is_reference(component),
            Kind::Int | Kind::Bool | Kind::Void | Kind::Class(_) | Kind::Null => false,
        },
    }
}

/// Whether the elements of an array, given by an expression of this body, are references.
pub fn holds_references<'a>(array: &'a SymExpr, body: &Body<'a>) -> bool
    ensures { result ≡ spec.holds_references (sort (frame_of body.now) (expr_of array.now)) }
{
    kind_holds_references(type_of(array, body))
}

/// The check of a store into an array of references.
pub fn store_check<'a>(array: &'a SymExpr, body: &Body<'a>) -> u64
    ensures { result ≡ spec.store_check (sort (frame_of body.now) (expr_of array.now)) }
{
    if holds_references(array, body) {
        LOAD + LOAD + SERVICE
    } else {
        0
    }
}
