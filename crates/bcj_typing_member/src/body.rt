//! Bodies, each in the scope with which it begins.
#![tactic(auto, using(crate::proofs::Rules::member_rules))]

ghost use Rattle.std.specs.Prelude.{◌≡◌, Some, IfOk};
ghost use Rattle.bcj_parser_trees.specs.Plain.{stmts_of};
ghost use Rattle.bcj_symbolic_trees.specs.Types.{ty_of, types_of};
ghost use Rattle.bcj_decl_rules.specs.World.{param_types};
ghost use Rattle.bcj_typing_rules.specs.Members as spec;
ghost use Rattle.bcj_typing_rules.specs.function.Statements.{run_all};
ghost use Rattle.bcj_typing_node.specs.Forms.{finals_of, locals_of};
ghost use Rattle.bcj_typing_node.specs.Outcomes.{Tells};
ghost use Rattle.bcj_typing_node.specs.Typings.{pairs_of};
ghost use Rattle.bcj_typing_scope.specs.Scopes.{answers_in, context_of};
ghost use Rattle.bcj_typing_scope.specs.Surroundings.{units_at};
ghost use Rattle.bcj_typing_member.specs.Typed.{effects_of, trees_of};

use crate::params::{first_types, param_locals};
use crate::typed::Body;
use bcj_parser_trees::{Param, Stmt};
use bcj_symbolic_trees::{Sequence, Ty, Types};
use bcj_typing_effect::Acting;
use bcj_typing_node::{Finals, Miss};
use bcj_typing_scope::{Scope, World};
use bcj_typing_statement::statements;
use std::alloc::{AllocError, Global};

/// The scope of an initialiser behind locals of these types (JLS 8.3.2, 8.7).
pub fn initialiser_scope<'a>(
    alloc: Global,
    world: &'a World<'a>,
    is_static: bool,
    types: Types,
) -> Scope<'a>
    ensures world { result.world.now ≡ world.entry.now }
    ensures context { context_of result ≡ spec.initialiser_context (units_at world.entry.now) world.entry.now.decl.name is_static }
    ensures types { types_of result.types ≡ types_of types }
{
    let finals = if is_static {
        Finals::Static
    } else {
        Finals::Instance
    };
    Scope {
        world,
        is_static,
        result: None,
        in_loop: false,
        finals,
        locals: Sequence::new(alloc),
        types,
    }
}

fn first_number(is_static: bool) -> u32
    ensures { result ≡ spec.first_param is_static }
{
    if is_static { 0 } else { 1 }
}

/// The scope of a method or constructor (JLS 8.4, 8.8).
pub fn body_scope<'a>(
    alloc: Global,
    world: &'a World<'a>,
    is_static: bool,
    outcome: Ty,
    finals: Finals,
    params: &[Param],
) -> Result<Scope<'a>, AllocError>
    ensures world { IfOk result (λ s. s.world.now ≡ world.entry.now) }
    ensures context { IfOk result (λ s. context_of s ≡
        spec.body_of (units_at world.entry.now) world.entry.now.decl.name is_static (Some (ty_of outcome)) (finals_of finals)
        (spec.params_from (spec.first_param is_static) params.now)) }
    ensures types { IfOk result (λ s. types_of s.types ≡ spec.first_types world.entry.now.decl.name is_static (param_types params.now)) }
{
    let locals = param_locals(alloc, first_number(is_static), params)?;
    let types = first_types(alloc, &world.decl().name, is_static, params)?;
    Ok(Scope {
        world,
        is_static,
        result: Some(outcome),
        in_loop: false,
        finals,
        locals,
        types,
    })
}

fn ended(scope: Scope<'_>, acting: Acting) -> Body
    ensures { effects_of result ≡
        record { locals = locals_of scope.entry.locals; types = types_of scope.entry.types; trees = trees_of acting.trees; steps = pairs_of acting.steps } }
{
    let Scope {
        world: _,
        is_static: _,
        result: _,
        in_loop: _,
        finals: _,
        locals,
        types,
    } = scope;
    let Acting { trees, steps } = acting;
    Body {
        locals,
        types,
        trees,
        steps,
    }
}

/// Types the statements of a body.
pub fn run(alloc: Global, scope: Scope<'_>, body: &[Stmt]) -> Result<Body, Miss>
    ensures { Tells effects_of (run_all (answers_in scope.entry) (context_of scope.entry) (types_of scope.entry.types) (stmts_of body.now)) result }
{
    let mut scope = scope;
    let acting = statements(alloc, &mut scope, body)?;
    Ok(ended(scope, acting))
}
