use crate::name::Name;
use sqlite_items::{Boxed, Items};

/// `+`, `-` and `*`.
#[derive(Clone, Copy)]
pub enum Operator {
    Add,
    Sub,
    Mul,
}

/// `<`, `<=`, `>`, `>=`, `==` and `!=`.
#[derive(Clone, Copy)]
pub enum Comparison {
    Less,
    LessEqual,
    Greater,
    GreaterEqual,
    Equal,
    NotEqual,
}

#[derive(Drop)]
pub enum Expression {
    /// At most 2,147,483,647.
    Number(u32),
    Local(Name),
    Binary(Operator, Boxed<Expression>, Boxed<Expression>),
}

/// A comparison of two `int` values.
#[derive(Drop)]
pub struct Condition {
    pub comparison: Comparison,
    pub left: Expression,
    pub right: Expression,
}

#[derive(Drop)]
pub enum Statement {
    /// `System.out.println(value);`
    Print(Expression),
    /// `int name = value;`
    Declare(Name, Expression),
    /// `name = value;`
    Assign(Name, Expression),
    /// The second block is empty where no `else` is written.
    If(Condition, Items<Statement>, Items<Statement>),
    While(Condition, Items<Statement>),
}
