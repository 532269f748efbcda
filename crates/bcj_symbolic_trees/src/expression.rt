use crate::symbol_reference::{FieldRef, MethodRef};
use crate::type_tree::Ty;
use sqlite_items::{Boxed, Items};

/// `-`, `~` and `!` (JLS 15.15).
#[derive(Clone, Copy)]
pub enum UnaryOp {
    Minus,
    Flip,
    Not,
}

/// `| ^ & == != < > <= >= << >> >>> + - * / %`, in this order (JLS 15.17 to 15.22).
#[derive(Clone, Copy)]
pub enum BinaryOp {
    Or,
    Xor,
    And,
    Eq,
    Ne,
    Lt,
    Gt,
    Le,
    Ge,
    Shl,
    Shr,
    Ushr,
    Add,
    Sub,
    Mul,
    Div,
    Rem,
}

/// What `Print` writes: a number in decimal digits, `true` or `false`, one line end, or one byte.
#[derive(Clone, Copy)]
pub enum PrintKind {
    Int,
    Bool,
    Line,
    Byte,
}

/// An expression whose names are resolved to symbolic references (JLS 13.1, 15).
///
/// A target stands before the reference, arguments behind it. Locals are counted from 0.
#[cycle(expression)]
#[derive(Drop)]
pub enum SymExpr {
    Int(i32),
    Bool(bool),
    Null,
    Local(u32),
    SetLocal(u32, Boxed<SymExpr>),
    GetStatic(FieldRef),
    SetStatic(FieldRef, Boxed<SymExpr>),
    GetField(Boxed<SymExpr>, FieldRef),
    /// The target, the field and the value.
    SetField(Boxed<SymExpr>, FieldRef, Boxed<SymExpr>),
    /// The array and the index.
    GetElem(Boxed<SymExpr>, Boxed<SymExpr>),
    /// The array, the index and the value.
    SetElem(Boxed<SymExpr>, Boxed<SymExpr>, Boxed<SymExpr>),
    /// The length of an array.
    Length(Boxed<SymExpr>),
    /// A compound assignment, `++` or `--` (JLS 15.26.2, 15.14, 15.15). With `post` it gives the old value.
    Update {
        place: UpdatePlace,
        op: BinaryOp,
        value: Boxed<SymExpr>,
        post: bool,
    },
    Unary(UnaryOp, Boxed<SymExpr>),
    Binary(BinaryOp, Boxed<SymExpr>, Boxed<SymExpr>),
    /// `&&`.
    And(Boxed<SymExpr>, Boxed<SymExpr>),
    /// `||`.
    Or(Boxed<SymExpr>, Boxed<SymExpr>),
    /// `? :`.
    Cond(Boxed<SymExpr>, Boxed<SymExpr>, Boxed<SymExpr>),
    New(MethodRef, Items<SymExpr>),
    /// The type of the whole array, and the length.
    NewArray(Ty, Boxed<SymExpr>),
    CallStatic(MethodRef, Items<SymExpr>),
    CallVirtual(Boxed<SymExpr>, MethodRef, Items<SymExpr>),
    CallInterface(Boxed<SymExpr>, MethodRef, Items<SymExpr>),
    /// A `super` call or constructor call on `this`.
    CallSpecial(MethodRef, Items<SymExpr>),
    Cast(Ty, Boxed<SymExpr>),
    /// A cast to a supertype: it gives the value of its part and tests nothing.
    Widen(Ty, Boxed<SymExpr>),
    InstanceOf(Boxed<SymExpr>, Ty),
    /// Evaluates `first`, tests it for null where said, and gives `second`.
    Then {
        first: Boxed<SymExpr>,
        null_test: bool,
        second: Boxed<SymExpr>,
    },
    /// Writes its argument to the output. It stands in the boot unit alone.
    Print(PrintKind, Items<SymExpr>),
}

/// The variable that an `Update` reads and writes.
#[cycle(expression)]
#[derive(Drop)]
pub enum UpdatePlace {
    Local(u32),
    Static(FieldRef),
    Field(Boxed<SymExpr>, FieldRef),
    /// The array and the index.
    Elem(Boxed<SymExpr>, Boxed<SymExpr>),
}
