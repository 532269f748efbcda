use bcj_symbolic_trees::{Pairs, SymStmt};
use sqlite_items::{Boxed, Items};

/// A typed statement: its symbolic tree and the subtype steps that it uses in their order (JLS 4.10).
#[derive(Drop)]
pub struct Acted {
    pub tree: Boxed<SymStmt>,
    pub steps: Pairs,
}

/// The same of statements one behind the other.
#[derive(Drop)]
pub struct Acting {
    pub trees: Items<SymStmt>,
    pub steps: Pairs,
}
