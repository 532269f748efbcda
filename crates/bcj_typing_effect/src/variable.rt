//! Declarations of local variables (JLS 14.4).
#![tactic(auto, using(bcj_symbolic_trees::proofs::PlainLemmas::tree_rules))]

ghost use Rattle.std.specs.Prelude.{[], ◌∷◌, ◌++◌, ◌≡◌};
ghost use Rattle.bcj_symbolic_trees.specs.Trees as tree;
ghost use Rattle.bcj_symbolic_trees.specs.Types.{ty_of, arg_of};
ghost use Rattle.bcj_symbolic_trees.specs.Plain.{expr_of};
ghost use Rattle.bcj_typing_rules.specs.declared.kind.Kind.TheVariants as kind;
ghost use Rattle.bcj_typing_rules.specs.Premises.{need};
ghost use Rattle.bcj_typing_rules.specs.Casting as casting;
ghost use Rattle.bcj_typing_rules.specs.Statements as spec;
ghost use Rattle.bcj_typing_node.specs.Typings.{pairs_of};
ghost use Rattle.bcj_typing_effect.specs.Acts.{Acts, Makes};

use crate::act::Acted;
use crate::parts::made;
use bcj_symbolic_trees::{Pairs, Sequence, SymExpr, SymStmt, Ty};
use bcj_typing_node::{Miss, Typing, earlier, push_uses, unless};
use bcj_typing_rules::Kind;
use sqlite_items::Boxed;
use std::alloc::Global;

/// What a local without an initialiser starts as.
fn first_value(ty: &Ty) -> SymExpr
    ensures { expr_of result ≡ spec.first_value (ty_of ty.now) }
{
    match ty {
        Ty::Int => SymExpr::Int(0),
        Ty::Bool => SymExpr::Bool(false),
        Ty::Void | Ty::Class(_) | Ty::Array(_) => SymExpr::Null,
    }
}

/// The statement that gives a local its first value.
fn stored(alloc: Global, number: u32, value: Boxed<SymExpr>, steps: Pairs) -> Result<Acted, Miss>
    ensures { Makes (tree.evaluate (tree.set_local number (expr_of value))) (pairs_of steps) result }
{
    made(
        alloc,
        SymStmt::Expr(SymExpr::SetLocal(number, value)),
        steps,
    )
}

/// A declaration of a local variable: its first byte, the variable's number and type, whether the types that this names are there, and
/// whether no local in scope has the variable's name.
#[derive(Clone, Copy)]
pub struct Declaration<'a> {
    pub at: u32,
    pub number: u32,
    pub ty: &'a Ty,
    pub is_known: bool,
    pub is_new: bool,
}

/// A local variable with an initialiser; `fits` says whether its value goes into the variable (JLS 5.2).
pub fn local(
    alloc: Global,
    declaration: Declaration<'_>,
    fits: bool,
    value: Typing,
) -> Result<Acted, Miss>
    ensures { let d = declaration.entry in Acts d.at (need kind.Name d.is_known ∷ need kind.Assign fits ∷ need kind.Local d.is_new ∷ [])
        (tree.evaluate (tree.set_local d.number (expr_of value.tree)))
        (pairs_of value.steps ++ casting.uses (arg_of value.ty) (ty_of d.ty.now)) result }
{
    let Declaration {
        at,
        number,
        ty,
        is_known,
        is_new,
    } = declaration;
    let missing = earlier(Kind::Assign, fits, unless(Kind::Local, is_new));
    match earlier(Kind::Name, is_known, missing) {
        Some(kind) => Err(Miss::Untyped { at, kind }),
        None => {
            let Typing {
                tree,
                ty: from,
                mut steps,
                value: _,
            } = value;
            push_uses(alloc, &from, ty, &mut steps)?;
            stored(alloc, number, tree, steps)
        }
    }
}

/// A local variable without an initialiser.
pub fn bare_local(alloc: Global, declaration: Declaration<'_>) -> Result<Acted, Miss>
    ensures { let d = declaration.entry in Acts d.at (need kind.Name d.is_known ∷ need kind.Local d.is_new ∷ [])
        (tree.evaluate (tree.set_local d.number (spec.first_value (ty_of d.ty.now)))) [] result }
{
    let Declaration {
        at,
        number,
        ty,
        is_known,
        is_new,
    } = declaration;
    match earlier(Kind::Name, is_known, unless(Kind::Local, is_new)) {
        Some(kind) => Err(Miss::Untyped { at, kind }),
        None => {
            let value = Boxed::new(alloc, first_value(ty))?;
            stored(alloc, number, value, Sequence::new(alloc))
        }
    }
}
