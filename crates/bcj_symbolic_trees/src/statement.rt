use crate::expression::SymExpr;
use bcj_names::Name;
use sqlite_items::{Boxed, Items};

/// A statement (JLS 14) over symbolic references.
///
/// An empty statement and a missing `else` are a `Block` of no statements.
#[cycle(statement)]
#[derive(Drop)]
pub enum SymStmt {
    Expr(SymExpr),
    If(SymExpr, Boxed<SymStmt>, Boxed<SymStmt>),
    /// `while`, `for` and, with `test_last`, `do`; `update` is what a `for` evaluates behind its body.
    Loop {
        test_last: bool,
        cond: SymExpr,
        body: Boxed<SymStmt>,
        update: Items<SymExpr>,
    },
    Break,
    Continue,
    Return(Option<SymExpr>),
    Throw(SymExpr),
    Try(Items<SymStmt>, Items<SymCatch>),
    Block(Items<SymStmt>),
}

/// A catch (JLS 14.20): the class that it takes, the local that gets the thrown object, and the block.
#[cycle(statement)]
#[derive(Drop)]
pub struct SymCatch {
    pub class: Name,
    pub local: u32,
    pub body: Items<SymStmt>,
}
