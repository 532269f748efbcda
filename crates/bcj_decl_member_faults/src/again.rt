#![tactic(auto, using(crate::proofs::Rules::fault_rules))]

ghost use Rattle.std.specs.Prelude.{◌≡◌};
ghost use Rattle.bcj_symbolic_trees.specs.Same as same;
ghost use Rattle.bcj_parser_trees.specs.Plain as tree;
ghost use Rattle.bcj_decl_rules.specs.World as spec;
ghost use Rattle.bcj_decl_member_faults.specs.Earlier as earlier;

use bcj_parser_trees::{Base, Member, Param, TypeName};

fn is_same_base(base: &Base, other: &Base) -> bool
    ensures { result ≡ same.same_type (spec.base_type base.now) (spec.base_type other.now) }
{
    match base {
        Base::Int => matches!(other, Base::Int),
        Base::Bool => matches!(other, Base::Bool),
        Base::Void => matches!(other, Base::Void),
        Base::Named(name) => match other {
            Base::Named(other_name) => name.same(other_name),
            Base::Int | Base::Bool | Base::Void => false,
        },
    }
}

fn is_same_type(ty: &TypeName, other: &TypeName) -> bool
    ensures { result ≡ same.same_type (spec.type_of ty.now) (spec.type_of other.now) }
{
    ty.dims == other.dims && is_same_base(&ty.base, &other.base)
}

/// Whether both have parameters of the same types in the same order (JLS 8.4.2). It takes no memory.
fn have_same_types(params: &[Param], others: &[Param]) -> bool
    ensures { result ≡ same.same_types (spec.param_types params.now) (spec.param_types others.now) }
{
    if params.len() != others.len() {
        return false;
    }
    for i in 0..params.len() {
        if !is_same_type(&params[i].ty, &others[i].ty) {
            return false;
        }
    }
    true
}

/// Whether the other member is the same field, method or constructor (JLS 8.3, 8.4.2, 8.8.2). It takes no memory.
pub fn is_again(member: &Member, other: &Member) -> bool
    ensures { result ≡ earlier.is_again (tree.member_of member.now) (tree.member_of other.now) }
{
    match member {
        Member::Field { name, .. } => match other {
            Member::Field {
                name: other_name,
                ..
            } => other_name.same(name),
            Member::Method { .. } | Member::Constructor { .. } | Member::Static { .. } => false,
        },
        Member::Method { name, params, .. } => match other {
            Member::Method {
                name: other_name,
                params: others,
                ..
            } => other_name.same(name) && have_same_types(others.as_slice(), params.as_slice()),
            Member::Field { .. } | Member::Constructor { .. } | Member::Static { .. } => false,
        },
        Member::Constructor { params, .. } => match other {
            Member::Constructor { params: others, .. } => {
                have_same_types(others.as_slice(), params.as_slice())
            }
            Member::Field { .. } | Member::Method { .. } | Member::Static { .. } => false,
        },
        Member::Static { .. } => false,
    }
}
