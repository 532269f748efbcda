use crate::expression::Expr;
use crate::names::{Mods, Param, TypeName};
use crate::statement::Stmt;
use bcj_names::Name;
use sqlite_items::Items;

/// The first call of a constructor (JLS 8.8.7.1): of a constructor of the superclass, or of the class itself.
#[derive(Drop)]
pub struct First {
    pub at: u32,
    pub to_super: bool,
    pub args: Items<Expr>,
}

/// A member of a class or interface (JLS 8.2, 9.1.4) with its first byte.
#[derive(Drop)]
pub enum Member {
    /// One variable of a declaration; each has the first byte of the whole declaration.
    Field {
        at: u32,
        mods: Mods,
        ty: TypeName,
        name: Name,
        init: Option<Expr>,
    },
    Method {
        at: u32,
        mods: Mods,
        result: TypeName,
        name: Name,
        params: Items<Param>,
        throws: Items<Name>,
        body: Option<Items<Stmt>>,
    },
    Constructor {
        at: u32,
        mods: Mods,
        name: Name,
        params: Items<Param>,
        throws: Items<Name>,
        first: Option<First>,
        body: Items<Stmt>,
    },
    /// A static initialiser.
    Static {
        at: u32,
        body: Items<Stmt>,
    },
}

/// A class or an interface (JLS 8.1, 9.1) with its first byte. In a class `extends` has at most one name.
#[derive(Drop)]
pub struct TypeDecl {
    pub at: u32,
    pub interface: bool,
    pub is_abstract: bool,
    pub name: Name,
    pub extends: Items<Name>,
    pub implements: Items<Name>,
    pub members: Items<Member>,
}

/// The types of one source text, in text order (JLS 7.3).
#[derive(Drop)]
pub struct Unit {
    pub types: Items<TypeDecl>,
}
