//! Conversions between types (JLS 5.2, 5.5, 15.25).

ghost use Rattle.std.specs.Prelude.{◌≡◌};
ghost use Rattle.bcj_symbolic_trees.specs.Types.{given, ty_of, arg_of};
ghost use Rattle.bcj_typing_rules.specs.Context.{Context};
ghost use Rattle.bcj_typing_rules.specs.function.Expressions as spec;
ghost use Rattle.bcj_typing_rules.specs.function.Expressions.{Answers};
ghost use Rattle.bcj_typing_node.specs.Forms.{cast_form_of, join_of};
ghost use Rattle.bcj_typing_scope.specs.Scopes.{answers_in, context_of};

use crate::scope::Scope;
use crate::sort::{compares_objects, is_object, is_reference, is_value};
use bcj_parser_trees::BinOp;
use bcj_symbolic_trees::{Arg, Ty};
use bcj_typing_node::{CastForm, Join};

fn is_same(arg: &Arg, ty: &Ty) -> bool
    ensures { (a : Answers) (c : Context) → result ≡ spec.is_same a c (arg_of arg.now) (ty_of ty.now) }
{
    match arg {
        Arg::Given(given) => given.same(ty),
        Arg::Null => false,
    }
}

fn either_way(scope: &Scope<'_>, s: &Ty, t: &Ty) -> bool
    ensures { result ≡ spec.either_way (answers_in scope.now) (ty_of s.now) (ty_of t.now) }
{
    (is_reference(s) && scope.world.subtype(s, t)) || (is_reference(t) && scope.world.subtype(t, s))
}

/// Whether one type can be cast to the other (JLS 5.5.1).
#[tactic(auto, using(bcj_symbolic_trees::proofs::PlainLemmas::tree_rules))]
fn castable(scope: &Scope<'_>, s: &Ty, t: &Ty) -> bool
    ensures { result ≡ spec.castable (answers_in scope.now) (context_of scope.now) (ty_of s.now) (ty_of t.now) }
{
    match s {
        Ty::Class(from) => match t {
            Ty::Class(to) => either_way(scope, s, t)
                || scope.is_interface(to)
                || scope.is_interface(from),
            Ty::Int | Ty::Bool | Ty::Void | Ty::Array(_) => either_way(scope, s, t),
        },
        Ty::Array(from) => match t {
            Ty::Array(to) => either_way(scope, s, t) || castable(scope, from.get(), to.get()),
            Ty::Int | Ty::Bool | Ty::Void | Ty::Class(_) => either_way(scope, s, t),
        },
        Ty::Int | Ty::Bool | Ty::Void => either_way(scope, s, t),
    }
}

fn steps(scope: &Scope<'_>, s: &Arg, t: &Arg) -> bool
    ensures { result ≡ spec.steps (answers_in scope.now) (arg_of s.now) (arg_of t.now) }
{
    match t {
        Arg::Given(ty) => scope.fits(s, ty),
        Arg::Null => match s {
            Arg::Null => true,
            Arg::Given(_) => false,
        },
    }
}

fn goes_with(scope: &Scope<'_>, s: &Arg, t: &Ty) -> bool
    ensures { result ≡ spec.go_together (answers_in scope.now) (context_of scope.now) (arg_of s.now) (given (ty_of t.now)) }
{
    match s {
        Arg::Given(ty) => castable(scope, ty, t),
        Arg::Null => is_reference(t),
    }
}

impl Scope<'_> {
    /// Whether a value of one type can be assigned to a variable of the other (JLS 5.2, by subtyping alone). It takes no memory.
    pub fn fits(&self, s: &Arg, t: &Ty) -> bool
        ensures { result ≡ spec.fits (answers_in self.now) (arg_of s.now) (ty_of t.now) }
    {
        match s {
            Arg::Given(ty) => self.world.subtype(ty, t),
            Arg::Null => is_reference(t),
        }
    }

    /// Whether a value can have both types (JLS 5.5.1, 15.21.3); that of null goes with every reference. It takes no memory.
    pub fn go_together(&self, s: &Arg, t: &Arg) -> bool
        ensures { result ≡ spec.go_together (answers_in self.now) (context_of self.now) (arg_of s.now) (arg_of t.now) }
    {
        match t {
            Arg::Given(ty) => goes_with(self, s, ty),
            Arg::Null => is_object(s),
        }
    }

    /// Whether the operands of an operator go together, where it compares references (JLS 15.21.3). It takes no memory.
    pub fn together(&self, op: BinOp, s: &Arg, t: &Arg) -> bool
        ensures { result ≡ spec.together (answers_in self.now) (context_of self.now) op (arg_of s.now) (arg_of t.now) }
    {
        if compares_objects(op, s, t) {
            self.go_together(s, t)
        } else {
            true
        }
    }

    /// What a cast of a value of one type to another is (JLS 15.16). It takes no memory.
    pub fn cast_form(&self, s: &Arg, t: &Ty) -> CastForm
        ensures { cast_form_of result ≡ spec.cast_form (answers_in self.now) (context_of self.now) (arg_of s.now) (ty_of t.now) }
    {
        if is_same(s, t) {
            CastForm::Same
        } else if self.fits(s, t) {
            CastForm::Supertype
        } else if goes_with(self, s, t) {
            CastForm::Other
        } else {
            CastForm::Not
        }
    }

    /// Which operand of a conditional expression has its type (JLS 15.25). It takes no memory.
    pub fn join(&self, s: &Arg, t: &Arg) -> Join
        ensures { join_of result ≡ spec.join_of (answers_in self.now) (arg_of s.now) (arg_of t.now) }
    {
        if steps(self, s, t) {
            if is_value(s) {
                Join::Second
            } else {
                Join::Apart
            }
        } else if steps(self, t, s) {
            Join::First
        } else {
            Join::Apart
        }
    }
}
