//! Types, references and operators as rows write them.
use crate::text::Text;
use bcj_symbolic_trees::{BinaryOp, FieldRef, MethodRef, Ty, UnaryOp};

pub fn put_type(out: &mut Text, ty: &Ty) {
    match ty {
        Ty::Int => out.put("int"),
        Ty::Bool => out.put("boolean"),
        Ty::Void => out.put("void"),
        Ty::Class(name) => out.put(name.as_str()),
        Ty::Array(component) => {
            put_type(out, component.get());
            out.put("[]");
        }
    }
}

/// Types with a comma between them.
pub fn put_types(out: &mut Text, all: &[Ty]) {
    let mut is_first = true;
    for each in all {
        if !is_first {
            out.next();
        }
        put_type(out, each);
        is_first = false;
    }
}

pub fn put_field(out: &mut Text, field: &FieldRef) {
    out.put(field.class.as_str());
    out.put(".");
    out.put(field.name.as_str());
    out.put(":");
    put_type(out, &field.ty);
}

/// The field of the target that is written before it.
pub fn put_member(out: &mut Text, field: &FieldRef) {
    out.put("!");
    put_field(out, field);
}

pub fn put_method(out: &mut Text, method: &MethodRef) {
    out.put(method.class.as_str());
    out.put(".");
    out.put(method.name.as_str());
    out.put("(");
    put_types(out, method.params.as_slice());
    out.put(")");
    put_type(out, &method.result);
}

/// A local by its number.
pub fn put_local(out: &mut Text, number: u32) {
    out.put("l");
    out.put_number(i64::from(number));
}

pub fn unary(op: UnaryOp) -> &'static str {
    match op {
        UnaryOp::Minus => "minus",
        UnaryOp::Flip => "flip",
        UnaryOp::Not => "not",
    }
}

pub fn operator(op: BinaryOp) -> &'static str {
    match op {
        BinaryOp::Or => "or",
        BinaryOp::Xor => "xor",
        BinaryOp::And => "and",
        BinaryOp::Eq => "eq",
        BinaryOp::Ne => "ne",
        BinaryOp::Lt => "lt",
        BinaryOp::Gt => "gt",
        BinaryOp::Le => "le",
        BinaryOp::Ge => "ge",
        BinaryOp::Shl => "shl",
        BinaryOp::Shr => "shr",
        BinaryOp::Ushr => "ushr",
        BinaryOp::Add => "add",
        BinaryOp::Sub => "sub",
        BinaryOp::Mul => "mul",
        BinaryOp::Div => "div",
        BinaryOp::Rem => "rem",
    }
}
