// The object of one of several sources.
ghost use Rattle.std.specs.Prelude.{◌≡◌, ◌<◌, ◌≤◌, ◌^◌, All, IfOk, None, length, map};
ghost use Rattle.std.specs.Result.{IfErr};
ghost use Rattle.std.specs.List.{AllZip};
ghost use Rattle.bcj_lexer.specs.Answers.{max_source_bytes};
ghost use Rattle.bcj_parser_trees.specs.Plain.{unit_of};
ghost use Rattle.bcj_decl_rules.specs.Faults.{IsDeclared};
ghost use Rattle.bcj_decl.specs.Answers as decl;
ghost use Rattle.bcj_symbolic_trees.specs.Units.{plain_of};
ghost use Rattle.bcj_typing.specs.Answers as typing;
ghost use Rattle.bcj_cli_compile.specs.Accepted.{Accepted};
ghost use Rattle.bcj_cli_compile.specs.Answers.{IsCompiled, IsStop};
ghost use Rattle.bcj_cli_compile.specs.Texts.{Parses};

use crate::laws::accepted_is_carried;
use crate::names::{kind_name, limit_name};
use crate::reading::units_of;
use crate::stop::{CompileStop, refusal};
use bcj_decl::{DeclStop, declare};
use bcj_edge::{Blobs, Bytes};
use bcj_lexer::one_cutting;
use bcj_object::{ObjectStop, make};
use bcj_parser::one_unit;
use bcj_parser_trees::Unit;
use bcj_parser_wellformed::interfaces_have_no_constructors;
use bcj_symbolic_trees::SymUnit;
use bcj_typing::{TypeStop, elaborate};
use std::alloc::Global;

/// The first fault of what the units of sources declare.
fn misdeclared(
    alloc: Global,
    sources: &Blobs,
    units: &[Unit],
    own: u32,
    stop: &DeclStop,
) -> CompileStop
    requires parsed { AllZip Parses sources.now (map unit_of units.now) }
    requires cause { decl.IsCause (map unit_of units.now) stop.now }
    ensures { IsStop sources.now own result }
{
    one_cutting();
    one_unit();
    match stop {
        DeclStop::Duplicate { name, at } => {
            refusal(alloc, at.file, at.at, "duplicate ", name.as_str())
        }
        DeclStop::Unknown { name, at } => refusal(alloc, at.file, at.at, "unknown ", name.as_str()),
        DeclStop::BadHierarchy { at } => refusal(alloc, at.file, at.at, "bad hierarchy", ""),
        DeclStop::BadMember { at } => refusal(alloc, at.file, at.at, "bad member", ""),
        DeclStop::NoMemory => CompileStop::NoMemory,
    }
}

/// The first fault of a declared unit, or its first number past its limit.
fn untyped(alloc: Global, sources: &Blobs, units: &[Unit], own: u32, stop: &TypeStop) -> CompileStop
    requires own { own < length sources.now }
    requires parsed { AllZip Parses sources.now (map unit_of units.now) }
    requires declared { IsDeclared (map unit_of units.now) }
    requires cause { typing.IsCause (map unit_of units.now) own stop.now }
    requires exact { typing.IsExact (map unit_of units.now) own (Err stop.now) }
    ensures { IsStop sources.now own result }
{
    one_cutting();
    one_unit();
    match stop {
        TypeStop::Untyped { at, kind } => refusal(alloc, own, *at, "type: ", kind_name(*kind)),
        TypeStop::TooLarge { what, at } => {
            refusal(alloc, own, *at, "too large: ", limit_name(*what))
        }
        TypeStop::NoMemory => CompileStop::NoMemory,
    }
}

/// What the units of sources become.
fn symbolic(
    alloc: Global,
    sources: &Blobs,
    units: &[Unit],
    own: u32,
) -> Result<SymUnit, CompileStop>
    requires own { own < length sources.now }
    requires few { length sources.now < 2 ^ 32 }
    requires parsed { AllZip Parses sources.now (map unit_of units.now) }
    ensures ok { IfOk result (λ u. Accepted sources.now own (plain_of u)) }
    ensures stopped { IfErr result (λ stop. IsStop sources.now own stop) }
{
    interfaces_have_no_constructors();
    match declare(alloc, units, own) {
        Err(stop) => Err(misdeclared(alloc, sources, units, own, &stop)),
        Ok(decls) => {
            decls.is_declared();
            match elaborate(alloc, &decls, &units[own as usize]) {
                Ok(unit) => Ok(unit),
                Err(stop) => Err(untyped(alloc, sources, units, own, &stop)),
            }
        }
    }
}

/// The object of what sources become.
fn object(alloc: Global, sources: &Blobs, own: u32, unit: &SymUnit) -> Result<Bytes, CompileStop>
    requires { Accepted sources.now own (plain_of unit.now) }
    ensures ok { IfOk result (λ bytes. IsCompiled sources.now own bytes) }
    ensures stopped { IfErr result (λ stop. stop ≡ CompileStop.NoMemory) }
{
    accepted_is_carried();
    match make(alloc, unit) {
        Ok(bytes) => Ok(bytes),
        Err(ObjectStop::TooLarge { .. }) => unreachable!(),
        Err(ObjectStop::NoMemory) => Err(CompileStop::NoMemory),
    }
}

/// The object of the source with the number `own`, which the others are seen by; or the first cause why there is none.
pub fn compile(alloc: Global, sources: &Blobs, own: u32) -> Result<Bytes, CompileStop>
    requires own { own < length sources.now }
    requires few { length sources.now < 2 ^ 32 }
    requires short { All (λ s. length s ≤ max_source_bytes) sources.now }
    ensures ok { IfOk result (λ bytes. IsCompiled sources.now own bytes) }
    ensures stopped { IfErr result (λ stop. IsStop sources.now own stop) }
{
    let units = units_of(alloc, sources)?;
    let unit = symbolic(alloc, sources, units.as_slice(), own)?;
    object(alloc, sources, own, &unit)
}
