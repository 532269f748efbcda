use crate::names::{Base, TypeName};
use bcj_names::Name;
use sqlite_items::{Boxed, Items};

/// `+`, `-`, `!` and `~` before an operand (JLS 15.15).
#[derive(Clone, Copy)]
pub enum UnaryOp {
    Plus,
    Minus,
    Not,
    Flip,
}

/// `||`, `&&`, `|`, `^`, `&`, `==`, `!=`, `<`, `>`, `<=`, `>=`, `<<`, `>>`, `>>>`, `+`, `-`, `*`, `/` and `%` (JLS 15.17 to 15.24).
#[derive(Clone, Copy)]
pub enum BinOp {
    OrElse,
    AndAlso,
    Or,
    Xor,
    And,
    Eq,
    Ne,
    Lt,
    Gt,
    Le,
    Ge,
    Shl,
    Shr,
    Ushr,
    Add,
    Sub,
    Mul,
    Div,
    Rem,
}

/// An expression (JLS 15) with its first byte.
#[derive(Drop)]
pub enum Expr {
    /// `7`, `0x1F`; a value past 2^64 is kept as 2^64.
    Int {
        at: u32,
        value: u128,
        decimal: bool,
    },
    Bool {
        at: u32,
        value: bool,
    },
    Null {
        at: u32,
    },
    This {
        at: u32,
    },
    /// A simple name: a local, a field or a type.
    Name {
        at: u32,
        name: Name,
    },
    Paren {
        at: u32,
        part: Boxed<Expr>,
    },
    /// `target.name`
    Dot {
        at: u32,
        target: Boxed<Expr>,
        name: Name,
    },
    /// `super.name`
    SuperField {
        at: u32,
        name: Name,
    },
    /// `name(args)`
    Call {
        at: u32,
        name: Name,
        args: Items<Expr>,
    },
    /// `target.name(args)`
    DotCall {
        at: u32,
        target: Boxed<Expr>,
        name: Name,
        args: Items<Expr>,
    },
    /// `super.name(args)`
    SuperCall {
        at: u32,
        name: Name,
        args: Items<Expr>,
    },
    /// `new name(args)`
    New {
        at: u32,
        name: Name,
        args: Items<Expr>,
    },
    /// `dims` counts all pairs of brackets, the one with the length included.
    NewArray {
        at: u32,
        base: Base,
        length: Boxed<Expr>,
        dims: u32,
    },
    /// `array[index]`
    Elem {
        at: u32,
        array: Boxed<Expr>,
        index: Boxed<Expr>,
    },
    Unary {
        at: u32,
        op: UnaryOp,
        part: Boxed<Expr>,
    },
    /// `++` where `plus`, else `--`, behind the place where `post`.
    Step {
        at: u32,
        plus: bool,
        post: bool,
        place: Boxed<Expr>,
    },
    Cast {
        at: u32,
        ty: TypeName,
        part: Boxed<Expr>,
    },
    Binary {
        at: u32,
        op: BinOp,
        left: Boxed<Expr>,
        right: Boxed<Expr>,
    },
    InstanceOf {
        at: u32,
        part: Boxed<Expr>,
        ty: TypeName,
    },
    /// `test ? first : second`
    Cond {
        at: u32,
        test: Boxed<Expr>,
        first: Boxed<Expr>,
        second: Boxed<Expr>,
    },
    /// `=`, or a compound assignment with its operator.
    Assign {
        at: u32,
        op: Option<BinOp>,
        place: Boxed<Expr>,
        value: Boxed<Expr>,
    },
}
