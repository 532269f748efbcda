use crate::expression::Expr;
use crate::names::TypeName;
use bcj_names::Name;
use sqlite_items::{Boxed, Items};

/// A statement (JLS 14) with its first byte.
#[cycle(statement)]
#[derive(Drop)]
pub enum Stmt {
    /// One variable of a declaration; each has the first byte of the whole declaration.
    Local {
        at: u32,
        ty: TypeName,
        name: Name,
        init: Option<Expr>,
    },
    Block {
        at: u32,
        body: Items<Stmt>,
    },
    Empty {
        at: u32,
    },
    Eval {
        at: u32,
        value: Expr,
    },
    If {
        at: u32,
        cond: Expr,
        first: Boxed<Stmt>,
        second: Option<Boxed<Stmt>>,
    },
    While {
        at: u32,
        cond: Expr,
        body: Boxed<Stmt>,
    },
    Do {
        at: u32,
        body: Boxed<Stmt>,
        cond: Expr,
    },
    /// The expressions that begin it are `Eval` statements in `init`.
    For {
        at: u32,
        init: Items<Stmt>,
        cond: Option<Expr>,
        update: Items<Expr>,
        body: Boxed<Stmt>,
    },
    Return {
        at: u32,
        value: Option<Expr>,
    },
    Throw {
        at: u32,
        value: Expr,
    },
    Break {
        at: u32,
    },
    Continue {
        at: u32,
    },
    Try {
        at: u32,
        body: Items<Stmt>,
        catches: Items<Catch>,
    },
}

/// A catch (JLS 14.20), which is a part of its `Try`.
#[cycle(statement)]
#[derive(Drop)]
pub struct Catch {
    pub class: Name,
    pub name: Name,
    pub body: Items<Stmt>,
}
