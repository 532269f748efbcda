ghost use Rattle.std.specs.Prelude.{◌≡◌};
ghost use Rattle.bcj_typing_node.specs.Forms as spec;

use bcj_decl_rules::Value;
use bcj_decl_table::FieldInfo;
use bcj_symbolic_trees::Ty;

/// The value of a field as a constant variable (JLS 4.12.4).
#[tactic(auto, using(bcj_symbolic_trees::proofs::PlainLemmas::tree_rules))]
pub fn worth(field: &FieldInfo) -> Option<Value>
    ensures { result ≡ spec.worth_of field.now }
{
    match (&field.ty, field.constant) {
        (Ty::Int, Some(number)) => Some(Value::Int(number)),
        (Ty::Bool, Some(number)) => Some(Value::Bool(number != 0)),
        (Ty::Int | Ty::Bool, None) => None,
        (Ty::Void | Ty::Class(_) | Ty::Array(_), Some(_) | None) => None,
    }
}
