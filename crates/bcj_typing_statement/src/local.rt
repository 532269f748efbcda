//! Local variables, which enter the scope and leave it (JLS 6.3, 14.4).

ghost use Rattle.std.specs.Prelude.{◌≡◌, [], ◌∷◌, ◌++◌, take, length, IfOk, OnOk, IfErr};
ghost use Rattle.bcj_typing_node.specs.declared.miss.Miss.TheVariants.{NoMemory};
ghost use Rattle.bcj_parser_trees.specs.Trees as source;
ghost use Rattle.bcj_parser_trees.specs.Plain.{expr_of, option_of};
ghost use Rattle.bcj_symbolic_trees.specs.Types.{types_of};
ghost use Rattle.bcj_typing_rules.specs.function.Statements as spec;
ghost use Rattle.bcj_typing_scope.specs.Scopes.{answers_in, context_of};
ghost use Rattle.bcj_typing_statement.specs.Scoped.{Keeps};
ghost use Rattle.bcj_typing_statement.specs.Told.{TellsEffect};

use crate::asks::is_known;
use bcj_decl_table::type_of;
use bcj_names::Name;
use bcj_parser_trees::{Expr, TypeName};
use bcj_symbolic_trees::{Sequence, Ty};
use bcj_typing_effect::{Acted, Declaration, bare_local, local};
use bcj_typing_expression::expression;
use bcj_typing_node::{Miss, Variable, Variables};
use bcj_typing_scope::Scope;
use std::alloc::Global;
use std::mem;

/// A local comes into scope, with the number behind those of all locals so far.
pub fn enter(alloc: Global, scope: &mut Scope<'_>, name: &Name, ty: &Ty) -> Result<u32, Miss>
    ensures number { IfOk result (λ number. number ≡ length scope.old.types) }
    ensures scope { IfOk result (λ number. scope.new ≡ record scope.old { locals = scope.old.locals ++ (record { name = name.now; ty = ty.now; number = number }) ∷ [] }) }
    ensures no_fault { IfErr result (λ e. e ≡ NoMemory) }
{
    let Ok(number) = u32::try_from(scope.types.len()) else {
        return Err(Miss::NoMemory);
    };
    let name = name.copy(alloc)?;
    let ty = ty.copy(alloc)?;
    scope.locals.push(Variable { name, ty, number })?;
    Ok(number)
}

fn shortened(locals: Variables, count: usize) -> Variables
    ensures { result ≡ take count locals }
{
    let mut kept = locals.into_vec();
    kept.truncate(count);
    Sequence::of(kept)
}

/// The locals behind the first `count` leave the scope.
pub fn leave(alloc: Global, scope: &mut Scope<'_>, count: usize)
    ensures { scope.new ≡ record scope.old { locals = take count scope.old.locals } }
{
    let locals = mem::replace(&mut scope.locals, Sequence::new(alloc));
    scope.locals = shortened(locals, count);
}

/// A local variable with an initialiser, which is in its own scope (JLS 6.3).
fn initialised(
    alloc: Global,
    scope: &mut Scope<'_>,
    at: u32,
    written: &TypeName,
    name: &Name,
    init: &Expr,
) -> Result<Acted, Miss>
    ensures told { TellsEffect (spec.run (answers_in scope.old) (context_of scope.old) (types_of scope.old.types) (source.local_variable at written.now name.now (source.present (expr_of init.now)))) result scope.new }
    ensures keeps { OnOk result (Keeps scope.old scope.new) }
{
    let ty = type_of(alloc, written)?;
    let is_known = is_known(scope, written);
    let is_new = scope.is_new_local(name);
    let number = enter(alloc, scope, name, &ty)?;
    let value = expression(alloc, scope, init)?;
    let fits = scope.fits(&value.ty, &ty);
    let declaration = Declaration {
        at,
        number,
        ty: &ty,
        is_known,
        is_new,
    };
    let made = local(alloc, declaration, fits, value)?;
    scope.types.push(ty)?;
    Ok(made)
}

/// A local variable without an initialiser.
fn bare(
    alloc: Global,
    scope: &mut Scope<'_>,
    at: u32,
    written: &TypeName,
    name: &Name,
) -> Result<Acted, Miss>
    ensures told { TellsEffect (spec.run (answers_in scope.old) (context_of scope.old) (types_of scope.old.types) (source.local_variable at written.now name.now source.absent)) result scope.new }
    ensures keeps { OnOk result (Keeps scope.old scope.new) }
{
    let ty = type_of(alloc, written)?;
    let is_known = is_known(scope, written);
    let is_new = scope.is_new_local(name);
    let number = enter(alloc, scope, name, &ty)?;
    let declaration = Declaration {
        at,
        number,
        ty: &ty,
        is_known,
        is_new,
    };
    let made = bare_local(alloc, declaration)?;
    scope.types.push(ty)?;
    Ok(made)
}

/// A declaration of a local variable (JLS 14.4).
pub fn declared(
    alloc: Global,
    scope: &mut Scope<'_>,
    at: u32,
    written: &TypeName,
    name: &Name,
    init: &Option<Expr>,
) -> Result<Acted, Miss>
    ensures told { TellsEffect (spec.run (answers_in scope.old) (context_of scope.old) (types_of scope.old.types) (source.local_variable at written.now name.now (option_of init.now))) result scope.new }
    ensures keeps { OnOk result (Keeps scope.old scope.new) }
{
    match init {
        None => bare(alloc, scope, at, written, name),
        Some(init) => initialised(alloc, scope, at, written, name, init),
    }
}
