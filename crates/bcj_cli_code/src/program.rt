//! From a program to its words.

ghost use Rattle.std.specs.Prelude.{◌≡◌, ◌+◌, ◌<◌, ◌≤◌, ◌++◌, length, map, IfOk, OnOk, IsErrOf, All};
ghost use Rattle.rv_isa.specs.Words.{InRange};
ghost use Rattle.bcj_cli_language.specs.Plain.{sum_of, test_of, act_of, acts_of};
ghost use Rattle.bcj_cli_language.specs.Bounds.{max_temporaries, temporaries_of, IsSmallTest, IsBounded};
ghost use Rattle.bcj_cli_language.specs.Scopes.{declared_in};
ghost use Rattle.bcj_cli_code.specs.function.Slots.{frame_after};
ghost use Rattle.bcj_cli_code.specs.function.Room.{Fits, FitsOne};
ghost use Rattle.bcj_cli_code.specs.Sizes.{count_words, max_words};
ghost use Rattle.bcj_cli_code.specs.function.Code.{sum_code, test_code, act_code, acts_code, program_code, program_words, instruction_word};

use crate::instructions::{
    here, jump_back, jump_to, load, operate, put, put_comparison, put_joined, put_jump, put_number,
    put_print, put_service, put_skip, put_turn, save, store,
};
use crate::scope::Scope;
use crate::size::is_too_long;
use bcj_cli_language::{Condition, Expression, Statement};
use rv_isa::{Instr, encode};
use rv_steps::services;
use std::alloc::{AllocError, Global};

/// Why a program has no words.
#[derive(Debug, Drop)]
pub enum CompileStop {
    /// It would have more than 200,000.
    TooLong,
    NoMemory,
}

impl From<AllocError> for CompileStop {
    ghost use Rattle.std.specs.Prelude.{◌≡◌};
    ghost use Rattle.bcj_cli_code.specs.declared.program.CompileStop.TheVariants.{NoMemory};

    ghost from_gives = { λ x r. r ≡ NoMemory };

    fn from(_error: AllocError) -> CompileStop {
        CompileStop::NoMemory
    }
}

/// The words of a program's code.
///
/// # Errors
/// `TooLong` where there are more than 200,000, `NoMemory` where an allocation fails.
pub fn compile(alloc: Global, body: &[Statement]) -> Result<Vec<u32>, CompileStop>
    requires { IsBounded (acts_of body.now) }
    ensures ok { IfOk result (λ words. words.items ≡ program_words (acts_of body.now)) }
    ensures short { IfOk result (λ words. length (program_words (acts_of body.now)) ≤ max_words) }
    ensures too_long { IsErrOf result CompileStop.TooLong → max_words < length (program_words (acts_of body.now)) }
{
    if is_too_long(body) {
        return Err(CompileStop::TooLong);
    }
    let code = instructions(alloc, body)?;
    Ok(encoded(alloc, code.as_slice())?)
}

/// The words of instructions.
fn encoded(alloc: Global, code: &[Instr]) -> Result<Vec<u32>, AllocError>
    requires { All InRange code.now }
    ensures { IfOk result (λ words. words.items ≡ map instruction_word code.now) }
{
    let mut words = Vec::new(alloc);
    for i in code {
        words.push(encode(*i))?;
    }
    Ok(words)
}

/// The instructions of a program.
#[tactic(auto, using(crate::proofs::Rules::code_rules), unfolding(crate::specs::function::Code::program_code))]
fn instructions(alloc: Global, body: &[Statement]) -> Result<Vec<Instr>, AllocError>
    requires bounded { IsBounded (acts_of body.now) }
    requires short { count_words (acts_of body.now) ≤ max_words }
    ensures { IfOk result (λ code. code.items ≡ program_code (acts_of body.now)) }
{
    let mut code = Vec::new(alloc);
    let mut scope = Scope::new(alloc);
    put_turn(&mut code)?;
    put_turn(&mut code)?;
    put_block(body, &mut code, &mut scope, alloc)?;
    put_service(&mut code, services::EXIT)?;
    Ok(code)
}

#[tactic(auto, using(crate::proofs::Rules::code_rules))]
fn put_expression(
    e: &Expression,
    d: usize,
    code: &mut Vec<Instr>,
    scope: &Scope,
) -> Result<(), AllocError>
    requires { d + temporaries_of (sum_of e.now) ≤ max_temporaries + 1 }
    ensures { OnOk result (code.new.items ≡ code.old.items ++ sum_code scope.now.slots d (sum_of e.now)) }
{
    match e {
        Expression::Number(n) => put_number(code, *n),
        Expression::Local(name) => put(code, load(scope.number_of(name))),
        Expression::Binary(operator, left, right) => {
            put_expression(left.get(), d, code, scope)?;
            put(code, save(d))?;
            put_expression(right.get(), d + 1, code, scope)?;
            put_joined(code, d)?;
            put(code, operate(*operator))
        }
    }
}

#[tactic(auto, using(crate::proofs::Rules::code_rules))]
fn put_condition(c: &Condition, code: &mut Vec<Instr>, scope: &Scope) -> Result<(), AllocError>
    requires { IsSmallTest (test_of c.now) }
    ensures { OnOk result (code.new.items ≡ code.old.items ++ test_code scope.now.slots (test_of c.now)) }
{
    put_expression(&c.left, 0, code, scope)?;
    put(code, save(0))?;
    put_expression(&c.right, 1, code, scope)?;
    put_joined(code, 0)?;
    put_comparison(code, c.comparison)
}

/// The statements of a block, whose locals leave the scope at its end.
#[cycle(emit)]
#[tactic(auto, using(crate::proofs::Rules::code_rules))]
fn put_block(
    block: &[Statement],
    code: &mut Vec<Instr>,
    scope: &mut Scope,
    alloc: Global,
) -> Result<(), AllocError>
    requires { Fits (length code.old.items) scope.old.next (acts_of block.now) }
    ensures code { OnOk result (code.new.items ≡ code.old.items ++ acts_code scope.old (acts_of block.now)) }
    ensures scope { OnOk result (scope.new ≡ record { slots = scope.old.slots; next = scope.old.next + declared_in (acts_of block.now) }) }
{
    let outer = scope.len();
    for s in block {
        put_statement(s, code, scope, alloc)?;
    }
    scope.leave(outer);
    Ok(())
}

#[cycle(emit)]
#[tactic(auto, using(crate::proofs::Rules::code_rules))]
fn put_statement(
    s: &Statement,
    code: &mut Vec<Instr>,
    scope: &mut Scope,
    alloc: Global,
) -> Result<(), AllocError>
    requires { FitsOne (length code.old.items) scope.old.next (act_of s.now) }
    ensures code { OnOk result (code.new.items ≡ code.old.items ++ act_code scope.old (act_of s.now)) }
    ensures scope { OnOk result (scope.new ≡ frame_after scope.old (act_of s.now)) }
{
    match s {
        Statement::Print(e) => {
            put_expression(e, 0, code, scope)?;
            put_print(code)
        }
        Statement::Declare(name, e) => {
            put_expression(e, 0, code, scope)?;
            let number = scope.declare(alloc, name)?;
            put(code, store(number))
        }
        Statement::Assign(name, e) => {
            put_expression(e, 0, code, scope)?;
            put(code, store(scope.number_of(name)))
        }
        Statement::If(c, first, second) => {
            put_condition(c, code, scope)?;
            let skip = put_skip(code)?;
            put_block(first.as_slice(), code, scope, alloc)?;
            let jump = put_jump(code)?;
            put_block(second.as_slice(), code, scope, alloc)?;
            jump_to(code, skip, jump + 1);
            let end = here(code);
            jump_to(code, jump, end);
            Ok(())
        }
        Statement::While(c, body) => {
            let start = here(code);
            put_turn(code)?;
            put_condition(c, code, scope)?;
            let skip = put_skip(code)?;
            put_block(body.as_slice(), code, scope, alloc)?;
            let far = here(code);
            put(code, jump_back(far - start))?;
            let end = here(code);
            jump_to(code, skip, end);
            Ok(())
        }
    }
}
