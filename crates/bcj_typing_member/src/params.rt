//! The parameters of methods and constructors as locals (JLS 8.4.1).
#![tactic(auto, using(crate::proofs::Rules::member_rules))]

ghost use Rattle.std.specs.Prelude.{◌≡◌, ◌+◌, [], ◌∷◌, ◌++◌, IfOk, OnOk};
ghost use Rattle.bcj_symbolic_trees.specs.Types.{types_of, ty_of};
ghost use Rattle.bcj_decl_rules.specs.World as world;
ghost use Rattle.bcj_typing_rules.specs.Members as spec;
ghost use Rattle.bcj_typing_node.specs.Forms.{local_of, locals_of};

use bcj_decl_table::type_of;
use bcj_names::Name;
use bcj_parser_trees::Param;
use bcj_symbolic_trees::{Sequence, Ty, Types};
use bcj_typing_node::{Variable, Variables};
use std::alloc::{AllocError, Global};

/// The number of a parameter; no memory holds more of them than have one.
fn number_from(first: u32, place: usize) -> Result<u32, AllocError>
    ensures { IfOk result (λ n. n ≡ first + place) }
{
    match u32::try_from(place) {
        Err(_) => Err(AllocError),
        Ok(place) => match first.checked_add(place) {
            None => Err(AllocError),
            Some(number) => Ok(number),
        },
    }
}

/// A parameter as a local of this number.
fn local_of(alloc: Global, param: &Param, number: u32) -> Result<Variable, AllocError>
    ensures { IfOk result (λ v. local_of v ≡ record { name = param.now.name; ty = world.type_of param.now.ty; number = number }) }
{
    Ok(Variable {
        name: param.name.copy(alloc)?,
        ty: type_of(alloc, &param.ty)?,
        number,
    })
}

/// Parameters as locals, with numbers from the first one on.
pub fn param_locals(alloc: Global, first: u32, params: &[Param]) -> Result<Variables, AllocError>
    ensures { IfOk result (λ vs. locals_of vs ≡ spec.params_from first params.now) }
{
    let mut locals = Sequence::new(alloc);
    let mut place = params.len();
    while place > 0 {
        place -= 1;
        let number = number_from(first, place)?;
        locals.push(local_of(alloc, &params[place], number)?)?;
    }
    Ok(locals)
}

/// `this`, where there is one.
fn this_type(alloc: Global, class: &Name, is_static: bool) -> Result<Types, AllocError>
    ensures { IfOk result (λ ts. types_of ts ≡ spec.first_types class.now is_static []) }
{
    let mut types = Sequence::new(alloc);
    if !is_static {
        types.push(Ty::Class(class.copy(alloc)?))?;
    }
    Ok(types)
}

/// The types of the locals with which a body begins: `this`, where there is one, and the parameters.
pub fn first_types(
    alloc: Global,
    class: &Name,
    is_static: bool,
    params: &[Param],
) -> Result<Types, AllocError>
    ensures { IfOk result (λ ts. types_of ts ≡ spec.first_types class.now is_static (world.param_types params.now)) }
{
    let mut types = this_type(alloc, class, is_static)?;
    for param in params {
        types.push(type_of(alloc, &param.ty)?)?;
    }
    Ok(types)
}
