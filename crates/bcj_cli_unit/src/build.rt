//! Builds the program of a unit by the forms of its nodes alone.
#![tactic(auto, using(crate::proofs::Rulesets::build_rules))]

ghost use Rattle.std.specs.Prelude.{◌≡◌, map};
ghost use Rattle.bcj_cli_language.specs.Plain.{sum_of, test_of, act_of, acts_of};
ghost use Rattle.bcj_parser_trees.specs.Plain.{expr_of, exprs_of, option_of, stmt_of, stmts_of, else_of, member_of, unit_of};
ghost use Rattle.bcj_cli_unit.specs.function.Outcomes.{Builds, Copies};
ghost use Rattle.bcj_cli_unit.specs.function.Built as spec;

use crate::expression::MAX_INT;
use crate::kind::{comparison, operator};
use crate::stop::Miss;
use bcj_cli_language::{Condition, Expression, Name, Statement};
use bcj_parser_trees::{Expr, Member, Stmt, Unit};
use sqlite_items::{Boxed, Items};
use std::alloc::Global;

/// A local's name.
fn name_of(alloc: Global, name: &bcj_names::Name) -> Result<Name, Miss>
    ensures { Copies name.now result }
{
    Ok(Name::of(Vec::from_slice(alloc, name.as_str().as_bytes())?))
}

fn sum(alloc: Global, e: &Expr) -> Result<Expression, Miss>
    ensures { Builds sum_of (spec.sum_built (expr_of e.now)) result }
{
    match e {
        Expr::Int { value, .. } => {
            if *value <= MAX_INT {
                Ok(Expression::Number(*value as u32))
            } else {
                Err(Miss::NoForm)
            }
        }
        Expr::Name { name, .. } => Ok(Expression::Local(name_of(alloc, name)?)),
        Expr::Paren { part, .. } => sum(alloc, part.get()),
        Expr::Binary {
            op,
            left,
            right,
            ..
        } => {
            let left = sum(alloc, left.get())?;
            let right = sum(alloc, right.get())?;
            let Some(operator) = operator(*op) else {
                return Err(Miss::NoForm);
            };
            let left = Boxed::new(alloc, left)?;
            Ok(Expression::Binary(operator, left, Boxed::new(alloc, right)?))
        }
        Expr::Bool { .. }
        | Expr::Null { .. }
        | Expr::This { .. }
        | Expr::Dot { .. }
        | Expr::SuperField { .. }
        | Expr::Call { .. }
        | Expr::DotCall { .. }
        | Expr::SuperCall { .. }
        | Expr::New { .. }
        | Expr::NewArray { .. }
        | Expr::Elem { .. }
        | Expr::Unary { .. }
        | Expr::Step { .. }
        | Expr::Cast { .. }
        | Expr::InstanceOf { .. }
        | Expr::Cond { .. }
        | Expr::Assign { .. } => Err(Miss::NoForm),
    }
}

fn test(alloc: Global, e: &Expr) -> Result<Condition, Miss>
    ensures { Builds test_of (spec.test_built (expr_of e.now)) result }
{
    match e {
        Expr::Binary {
            op,
            left,
            right,
            ..
        } => {
            let left = sum(alloc, left.get())?;
            let right = sum(alloc, right.get())?;
            let Some(comparison) = comparison(*op) else {
                return Err(Miss::NoForm);
            };
            Ok(Condition {
                comparison,
                left,
                right,
            })
        }
        Expr::Int { .. }
        | Expr::Bool { .. }
        | Expr::Null { .. }
        | Expr::This { .. }
        | Expr::Name { .. }
        | Expr::Paren { .. }
        | Expr::Dot { .. }
        | Expr::SuperField { .. }
        | Expr::Call { .. }
        | Expr::DotCall { .. }
        | Expr::SuperCall { .. }
        | Expr::New { .. }
        | Expr::NewArray { .. }
        | Expr::Elem { .. }
        | Expr::Unary { .. }
        | Expr::Step { .. }
        | Expr::Cast { .. }
        | Expr::InstanceOf { .. }
        | Expr::Cond { .. }
        | Expr::Assign { .. } => Err(Miss::NoForm),
    }
}

fn print(alloc: Global, args: &[Expr]) -> Result<Statement, Miss>
    ensures { Builds act_of (spec.print_built (exprs_of args.now)) result }
{
    match args {
        [] => Err(Miss::NoForm),
        [value] => Ok(Statement::Print(sum(alloc, value)?)),
        [_, _, ..] => Err(Miss::NoForm),
    }
}

fn assignment(alloc: Global, place: &Expr, value: &Expr) -> Result<Statement, Miss>
    ensures { Builds act_of (spec.assign_built (expr_of place.now) (expr_of value.now)) result }
{
    match place {
        Expr::Name { name, .. } => {
            let value = sum(alloc, value)?;
            Ok(Statement::Assign(name_of(alloc, name)?, value))
        }
        Expr::Int { .. }
        | Expr::Bool { .. }
        | Expr::Null { .. }
        | Expr::This { .. }
        | Expr::Paren { .. }
        | Expr::Dot { .. }
        | Expr::SuperField { .. }
        | Expr::Call { .. }
        | Expr::DotCall { .. }
        | Expr::SuperCall { .. }
        | Expr::New { .. }
        | Expr::NewArray { .. }
        | Expr::Elem { .. }
        | Expr::Unary { .. }
        | Expr::Step { .. }
        | Expr::Cast { .. }
        | Expr::Binary { .. }
        | Expr::InstanceOf { .. }
        | Expr::Cond { .. }
        | Expr::Assign { .. } => Err(Miss::NoForm),
    }
}

fn evaluation(alloc: Global, e: &Expr) -> Result<Statement, Miss>
    ensures { Builds act_of (spec.evaluation_built (expr_of e.now)) result }
{
    match e {
        Expr::DotCall { args, .. } => print(alloc, args.as_slice()),
        Expr::Assign { place, value, .. } => assignment(alloc, place.get(), value.get()),
        Expr::Int { .. }
        | Expr::Bool { .. }
        | Expr::Null { .. }
        | Expr::This { .. }
        | Expr::Name { .. }
        | Expr::Paren { .. }
        | Expr::Dot { .. }
        | Expr::SuperField { .. }
        | Expr::Call { .. }
        | Expr::SuperCall { .. }
        | Expr::New { .. }
        | Expr::NewArray { .. }
        | Expr::Elem { .. }
        | Expr::Unary { .. }
        | Expr::Step { .. }
        | Expr::Cast { .. }
        | Expr::Binary { .. }
        | Expr::InstanceOf { .. }
        | Expr::Cond { .. } => Err(Miss::NoForm),
    }
}

fn declaration(
    alloc: Global,
    name: &bcj_names::Name,
    init: &Option<Expr>,
) -> Result<Statement, Miss>
    ensures { Builds act_of (spec.declaration_built name.now (option_of init.now)) result }
{
    match init {
        None => Err(Miss::NoForm),
        Some(e) => {
            let value = sum(alloc, e)?;
            Ok(Statement::Declare(name_of(alloc, name)?, value))
        }
    }
}

#[cycle(statement)]
fn statement(alloc: Global, s: &Stmt) -> Result<Statement, Miss>
    ensures { Builds act_of (spec.act_built (stmt_of s.now)) result }
{
    match s {
        Stmt::Local { name, init, .. } => declaration(alloc, name, init),
        Stmt::Eval { value, .. } => evaluation(alloc, value),
        Stmt::If {
            cond,
            first,
            second,
            ..
        } => {
            let condition = test(alloc, cond)?;
            let first = block(alloc, first.get())?;
            Ok(Statement::If(condition, first, otherwise(alloc, second)?))
        }
        Stmt::While { cond, body, .. } => {
            let condition = test(alloc, cond)?;
            Ok(Statement::While(condition, block(alloc, body.get())?))
        }
        Stmt::Block { .. }
        | Stmt::Empty { .. }
        | Stmt::Do { .. }
        | Stmt::For { .. }
        | Stmt::Return { .. }
        | Stmt::Throw { .. }
        | Stmt::Break { .. }
        | Stmt::Continue { .. }
        | Stmt::Try { .. } => Err(Miss::NoForm),
    }
}

#[cycle(statement)]
fn statements(alloc: Global, all: &[Stmt]) -> Result<Items<Statement>, Miss>
    ensures { Builds acts_of (spec.acts_built (stmts_of all.now)) result }
{
    let mut built = Items::new(alloc);
    for one in all {
        built.push(statement(alloc, one)?)?;
    }
    Ok(built)
}

#[cycle(statement)]
fn block(alloc: Global, s: &Stmt) -> Result<Items<Statement>, Miss>
    ensures { Builds acts_of (spec.block_built (stmt_of s.now)) result }
{
    match s {
        Stmt::Block { body, .. } => statements(alloc, body.as_slice()),
        Stmt::Local { .. }
        | Stmt::Empty { .. }
        | Stmt::Eval { .. }
        | Stmt::If { .. }
        | Stmt::While { .. }
        | Stmt::Do { .. }
        | Stmt::For { .. }
        | Stmt::Return { .. }
        | Stmt::Throw { .. }
        | Stmt::Break { .. }
        | Stmt::Continue { .. }
        | Stmt::Try { .. } => Err(Miss::NoForm),
    }
}

#[cycle(statement)]
fn otherwise(alloc: Global, second: &Option<Boxed<Stmt>>) -> Result<Items<Statement>, Miss>
    ensures { Builds acts_of (spec.else_built (else_of second.now)) result }
{
    match second {
        None => Ok(Items::new(alloc)),
        Some(s) => block(alloc, s.get()),
    }
}

fn member(alloc: Global, m: &Member) -> Result<Items<Statement>, Miss>
    ensures { Builds acts_of (spec.member_built (member_of m.now)) result }
{
    match m {
        Member::Method { body, .. } => match body {
            None => Err(Miss::NoForm),
            Some(all) => statements(alloc, all.as_slice()),
        },
        Member::Field { .. } | Member::Constructor { .. } | Member::Static { .. } => Err(
            Miss::NoForm,
        ),
    }
}

fn members(alloc: Global, all: &[Member]) -> Result<Items<Statement>, Miss>
    ensures { Builds acts_of (spec.members_built (map member_of all.now)) result }
{
    match all {
        [only] => member(alloc, only),
        [] | [_, _, ..] => Err(Miss::NoForm),
    }
}

/// The program of a unit, where its nodes have the forms for it.
pub fn program(alloc: Global, unit: &Unit) -> Result<Items<Statement>, Miss>
    ensures { Builds acts_of (spec.program_built (unit_of unit.now)) result }
{
    match unit.types.as_slice() {
        [class] => members(alloc, class.members.as_slice()),
        [] | [_, _, ..] => Err(Miss::NoForm),
    }
}
