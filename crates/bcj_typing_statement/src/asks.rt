//! What declarations of locals ask of the scope.

ghost use Rattle.std.specs.Prelude.{◌≡◌, IfOk};
ghost use Rattle.bcj_symbolic_trees.specs.Types.{ty_of};
ghost use Rattle.bcj_typing_rules.specs.Context as context;
ghost use Rattle.bcj_typing_rules.specs.Premises.{earliest_missing};
ghost use Rattle.bcj_typing_rules.specs.Statements.{throwable};
ghost use Rattle.bcj_typing_scope.specs.Scopes.{answers_in, context_of};
ghost use Rattle.bcj_typing_statement.specs.Catches.{catch_needs};

use bcj_parser_trees::{Catch, TypeName};
use bcj_symbolic_trees::{Arg, Ty};
use bcj_typing_effect::lacks_catch;
use bcj_typing_rules::Kind;
use bcj_typing_scope::Scope;
use std::alloc::{AllocError, Global};

/// Whether the types that a type's name names are there.
pub fn is_known(scope: &Scope<'_>, ty: &TypeName) -> bool
    ensures { result ≡ context.is_known (context_of scope.now) ty.now }
{
    scope.is_known(&ty.base)
}

/// The earliest kind that a catch lacks, its block aside.
pub fn lacking(
    alloc: Global,
    scope: &Scope<'_>,
    one: &Catch,
    to: &Ty,
) -> Result<Option<Kind>, AllocError>
    requires { ty_of to.now ≡ throwable }
    ensures { IfOk result (λ missing. missing ≡ earliest_missing (catch_needs (answers_in scope.now) (context_of scope.now) one.now.class one.now.name)) }
{
    let class = Arg::Given(Ty::Class(one.class.copy(alloc)?));
    let is_there = scope.has_type(&one.class);
    let is_new = scope.is_new_local(&one.name);
    let fits = scope.fits(&class, to);
    Ok(lacks_catch(is_there, is_new, fits))
}
