use bcj_symbolic_trees::{Pairs, Sequence, SymFields, SymMethod, SymMethods, SymStmt, Types};
use bcj_typing_node::Variables;
use sqlite_items::Items;

/// Statements that are put in, with the subtype steps that they use.
#[derive(Drop)]
pub struct Added {
    pub trees: Items<SymStmt>,
    pub steps: Pairs,
}

/// A typed body: the locals in scope at its end, the types of all its locals in text order, its statements and their steps.
#[derive(Drop)]
pub struct Body {
    pub locals: Variables,
    pub types: Types,
    pub trees: Items<SymStmt>,
    pub steps: Pairs,
}

/// A method or constructor with the steps of its body.
#[derive(Drop)]
pub struct Made {
    pub method: SymMethod,
    pub steps: Pairs,
}

/// A constructor without the initialisers of objects: its first call, whether that is of the superclass, and its body.
#[derive(Drop)]
pub struct Constructor {
    pub is_private: bool,
    pub params: Types,
    pub first: Added,
    pub to_super: bool,
    pub body: Body,
}

/// What the members of a class or interface become: its fields, the types of the locals of its initialiser and what that runs, what
/// runs when an object is made, its constructors and its methods.
#[derive(Drop)]
pub struct Members {
    pub fields: SymFields,
    pub types: Types,
    pub statics: Added,
    pub instances: Added,
    pub constructors: Sequence<Constructor>,
    pub methods: Sequence<Made>,
}

/// The methods of a class with the steps of its bodies.
#[derive(Drop)]
pub struct Making {
    pub methods: SymMethods,
    pub steps: Pairs,
}
