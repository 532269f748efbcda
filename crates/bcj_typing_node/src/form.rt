//! Answers that decide what a node becomes.

use bcj_decl_table::{FieldInfo, MethodInfo};
use bcj_symbolic_trees::{Name, Sequence, Ty};

/// What a cast is (JLS 5.5, 15.16): nothing where the type is the same, a subtype step where it is a supertype's, or a test.
#[derive(Clone, Copy)]
pub enum CastForm {
    Same,
    Supertype,
    Other,
    Not,
}

/// Which operand of a conditional expression has its type (JLS 15.25).
#[derive(Clone, Copy)]
pub enum Join {
    Second,
    First,
    Apart,
}

/// The blank final fields of its own class that a body may assign (JLS 8.3.1.2).
#[derive(Clone, Copy)]
pub enum Finals {
    Not,
    Instance,
    Static,
}

/// How a field that is assigned is named: by its simple name, behind `this` and a dot, or in any other way.
#[derive(Clone, Copy)]
pub enum Way {
    Name,
    This,
    Other,
}

/// A local variable or parameter; its number counts the locals of the body in text order, `this` being the first where there is one.
#[derive(Drop)]
pub struct Variable {
    pub name: Name,
    pub ty: Ty,
    pub number: u32,
}

/// Local variables, the innermost last.
pub type Variables = Sequence<Variable>;

/// What a simple name means where a variable may stand (JLS 6.5.6.1).
#[derive(Clone, Copy)]
pub enum Meaning<'a> {
    Local(&'a Variable),
    Field(&'a FieldInfo),
    Nothing,
}

/// What a call takes (JLS 15.12.2).
#[derive(Clone, Copy)]
pub enum Chosen<'a> {
    One(&'a MethodInfo),
    NoneApplies,
    Ambiguous,
}
