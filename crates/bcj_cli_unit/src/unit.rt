//! The first node of a unit that the language that runs lacks, and the program of a unit without one.
#![tactic(auto, using(bcj_parser_trees::proofs::PlainLemmas::tree_rules))]

ghost use Rattle.std.specs.Prelude.{◌≡◌, IfOk, map};
ghost use Rattle.std.specs.Result.{IfErr};
ghost use Rattle.bcj_cli_language.specs.Bounds.{IsBounded};
ghost use Rattle.bcj_cli_language.specs.Plain.{acts_of};
ghost use Rattle.bcj_parser_trees.specs.Plain.{body_of, first_of_constructor, member_of, type_of, unit_of};
ghost use Rattle.bcj_cli_unit.specs.function.Outcomes.{Finds};
ghost use Rattle.bcj_cli_unit.specs.Lacking as spec;
ghost use Rattle.bcj_cli_unit.specs.Program.{IsProgramOf};
ghost use Rattle.bcj_cli_unit.specs.Stops.{IsLack};

use crate::build::program;
use crate::expression::{check, expressions, lack, optional};
use crate::kind::{is_main, is_main_class};
use crate::scope::Scope;
use crate::statement::body;
use crate::stop::{Miss, UnitStop};
use bcj_cli_language::Statement;
use bcj_parser_trees::{First, Member, Stmt, TypeDecl, Unit};
use sqlite_items::Items;
use std::alloc::Global;

/// The program of the class `main`, which is all that the unit may declare: the statements of its `main`.
///
/// # Errors
/// `NotBuilt` with the first node, in text order with parts before the whole, that the language lacks or that breaks one of
/// its rules, `NoMemory` where an allocation fails.
pub fn convert(alloc: Global, main: &str, unit: &Unit) -> Result<Items<Statement>, UnitStop>
    ensures ok { IfOk result (λ ss. IsProgramOf main.now (unit_of unit.now) (acts_of ss)) }
    ensures bounded { IfOk result (λ ss. IsBounded (acts_of ss)) }
    ensures not_built { IfErr result (λ stop. IsLack (spec.first_lacking main.now (unit_of unit.now)) stop) }
{
    walk(alloc, main, unit.types.as_slice())?;
    match program(alloc, unit) {
        Ok(body) => Ok(body),
        Err(Miss::NoForm) => Err(UnitStop::NotBuilt { at: 0 }),
        Err(Miss::NoMemory) => Err(UnitStop::NoMemory),
    }
}

fn walk(alloc: Global, main: &str, types: &[TypeDecl]) -> Result<(), UnitStop>
    ensures { Finds (spec.first_lacking main.now (map type_of types.now)) result }
{
    match types {
        [] => lack(0),
        [class, others @ ..] => {
            members(alloc, class.members.as_slice())?;
            check(is_main_class(main, class), class.at)?;
            refuse_others(alloc, others)
        }
    }
}

/// There is no second type.
fn refuse_others(alloc: Global, types: &[TypeDecl]) -> Result<(), UnitStop>
    ensures { Finds (spec.others_lack (map type_of types.now)) result }
{
    match types {
        [] => Ok(()),
        [class, ..] => {
            members(alloc, class.members.as_slice())?;
            lack(class.at)
        }
    }
}

fn members(alloc: Global, all: &[Member]) -> Result<(), UnitStop>
    ensures { Finds (spec.members_lack (map member_of all.now)) result }
{
    for one in all {
        member(alloc, one)?;
    }
    Ok(())
}

fn method_body(alloc: Global, statements: &Option<Items<Stmt>>) -> Result<(), UnitStop>
    ensures { Finds (spec.method_lacks (body_of statements.now)) result }
{
    match statements {
        None => Ok(()),
        Some(all) => body(alloc, all.as_slice()),
    }
}

fn first_call(alloc: Global, first: &Option<First>) -> Result<(), UnitStop>
    ensures { Finds (spec.first_lacks (first_of_constructor first.now)) result }
{
    match first {
        None => Ok(()),
        Some(call) => {
            expressions(call.args.as_slice(), &Scope::new(alloc))?;
            lack(call.at)
        }
    }
}

fn member(alloc: Global, one: &Member) -> Result<(), UnitStop>
    ensures { Finds (spec.member_lacks (member_of one.now)) result }
{
    match one {
        Member::Field { at, init, .. } => {
            optional(init, &Scope::new(alloc))?;
            lack(*at)
        }
        Member::Method {
            at,
            mods,
            result: ty,
            name,
            params,
            throws,
            body: statements,
        } => {
            method_body(alloc, statements)?;
            check(
                is_main(
                    mods,
                    ty,
                    name,
                    params.as_slice(),
                    throws.as_slice(),
                    statements,
                ),
                *at,
            )
        }
        Member::Constructor {
            at,
            first,
            body: statements,
            ..
        } => {
            first_call(alloc, first)?;
            body(alloc, statements.as_slice())?;
            lack(*at)
        }
        Member::Static {
            at,
            body: statements,
        } => {
            body(alloc, statements.as_slice())?;
            lack(*at)
        }
    }
}
