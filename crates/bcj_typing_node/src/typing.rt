use bcj_decl_rules::Value;
use bcj_symbolic_trees::{Arg, Pairs, Sequence, SymExpr, Ty, UpdatePlace};
use sqlite_items::Boxed;

/// A typed expression: its symbolic tree, its type, where a call without result has `void`, the subtype steps that it uses in their
/// order (JLS 4.10), and its value where it is a constant expression (JLS 15.28).
#[derive(Drop)]
pub struct Typing {
    pub tree: Boxed<SymExpr>,
    pub ty: Arg,
    pub steps: Pairs,
    pub value: Option<Value>,
}

/// Typed expressions, as those of arguments.
pub type Typings = Sequence<Typing>;

/// A variable that is assigned (JLS 15.26): what is evaluated first where a static field stands behind an expression, the place, its
/// type, the steps that it uses, whether it may be assigned here, and whether it is open to the class.
#[derive(Drop)]
pub struct Placing {
    pub first: Option<Boxed<SymExpr>>,
    pub place: UpdatePlace,
    pub ty: Ty,
    pub steps: Pairs,
    pub is_assignable: bool,
    pub is_open: bool,
}
