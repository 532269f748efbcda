ghost use Rattle.std.specs.Prelude.{◌≡◌, IfOk, map};
ghost use Rattle.bcj_parser_trees.specs.Plain.{member_of};
ghost use Rattle.bcj_parser_rules.specs.function.Declarations as rule;
ghost use Rattle.bcj_parser_statement.specs.function.Variables.{variable_of};

use bcj_parser_statement::Variable;
use bcj_parser_trees::{Base, Member, Mods, TypeName};
use std::alloc::{AllocError, Global};

fn copy_of_base(alloc: Global, base: &Base) -> Result<Base, AllocError>
    ensures { IfOk result (λ b. b ≡ base.now) }
{
    match base {
        Base::Int => Ok(Base::Int),
        Base::Bool => Ok(Base::Bool),
        Base::Void => Ok(Base::Void),
        Base::Named(name) => Ok(Base::Named(name.copy(alloc)?)),
    }
}

fn copy_of_type(alloc: Global, ty: &TypeName) -> Result<TypeName, AllocError>
    ensures { IfOk result (λ t. t ≡ ty.now) }
{
    let base = copy_of_base(alloc, &ty.base)?;
    Ok(TypeName {
        base,
        dims: ty.dims,
    })
}

/// A field for each variable of a declaration.
pub fn fields(
    alloc: Global,
    at: u32,
    mods: Mods,
    ty: &TypeName,
    variables: Vec<Variable>,
) -> Result<Vec<Member>, AllocError>
    ensures { IfOk result (λ ms. map member_of ms.items ≡ rule.field_nodes at mods ty.now (map variable_of variables.items)) }
{
    let mut found = Vec::new(alloc);
    for variable in variables {
        let ty = copy_of_type(alloc, ty)?;
        let Variable { name, init } = variable;
        found.push(Member::Field {
            at,
            mods,
            ty,
            name,
            init,
        })?;
    }
    Ok(found)
}
