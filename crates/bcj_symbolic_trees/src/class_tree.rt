use crate::listing::{Names, Sequence};
use crate::statement::SymStmt;
use crate::type_tree::{Ty, Types};
use bcj_names::Name;
use sqlite_items::Items;

/// What a class or interface declares before its members (JLS 8.1, 9.1). Object and the interfaces have no superclass.
#[derive(Drop)]
pub struct ClassHead {
    pub name: Name,
    pub interface: bool,
    pub is_abstract: bool,
    pub superclass: Option<Name>,
    pub interfaces: Names,
}

/// A field. A static constant variable (JLS 4.12.4) has its value in `constant`, a boolean one as 0 or 1.
#[derive(Drop)]
pub struct SymField {
    pub name: Name,
    pub ty: Ty,
    pub is_static: bool,
    pub is_final: bool,
    pub is_private: bool,
    pub constant: Option<i32>,
}

#[derive(Clone, Copy)]
pub enum MethodKind {
    Static,
    Instance,
    Abstract,
    Constructor,
}

/// A method or constructor. `locals` has the types of all locals, `this` and the parameters first.
/// The body of an abstract method is empty.
#[derive(Drop)]
pub struct SymMethod {
    pub name: Name,
    pub params: Types,
    pub result: Ty,
    pub kind: MethodKind,
    pub is_private: bool,
    pub locals: Types,
    pub body: Items<SymStmt>,
}

/// The class initialiser (JLS 8.6, 8.7): the types of its locals and its statements.
#[derive(Drop)]
pub struct SymInit {
    pub locals: Types,
    pub body: Items<SymStmt>,
}

/// A subtype step that typing of a class used, tested again when the class is linked.
#[derive(Drop)]
pub struct Pair {
    pub from: Ty,
    pub to: Ty,
}

pub type SymFields = Sequence<SymField>;

pub type SymMethods = Sequence<SymMethod>;

pub type Pairs = Sequence<Pair>;

pub type SymClasses = Sequence<SymClass>;

/// A class or interface: its head, its members in text order with the constructors before the methods, and its pairs in
/// order of first use.
#[derive(Drop)]
pub struct SymClass {
    pub head: ClassHead,
    pub fields: SymFields,
    pub init: SymInit,
    pub methods: SymMethods,
    pub pairs: Pairs,
}

/// The classes of one source text.
#[derive(Drop)]
pub struct SymUnit {
    pub classes: SymClasses,
}
