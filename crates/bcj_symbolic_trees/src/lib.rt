//! The trees of a symbolic unit, the language between typing and code: classes whose members refer to one another
//! by name and type alone (JLS 13.1), with the names, types and lists that they are made of.
//!
//! `Plain` in specs/ reads each of them as plain data: names as lists of bytes, lists as lists.
#![tactic(auto)]

mod class_tree;
mod expression;
mod listing;
mod statement;
mod symbol_reference;
mod type_tree;
mod well_known;

pub use bcj_names::Name;
pub use class_tree::{
    ClassHead, MethodKind, Pair, Pairs, SymClass, SymClasses, SymField, SymFields, SymInit,
    SymMethod, SymMethods, SymUnit,
};
pub use expression::{BinaryOp, PrintKind, SymExpr, UnaryOp, UpdatePlace};
pub use listing::{Names, Sequence};
pub use statement::{SymCatch, SymStmt};
pub use symbol_reference::{FieldRef, MethodRef};
pub use type_tree::{Arg, Ty, Types, Tys, copy_types, same_types};
pub use well_known::{CONSTRUCTOR, OBJECT, PRINT_STREAM, THROWABLE};
