//! Symbolic expressions as rows write them.
use crate::text::Text;
use crate::word::{operator, put_field, put_local, put_member, put_method, put_type, unary};
use bcj_symbolic_trees::{SymExpr, UpdatePlace};

/// Arguments with a comma before each, to the end of a call.
#[cycle(expression)]
fn arguments(out: &mut Text, args: &[SymExpr]) {
    for argument in args {
        out.next();
        expression(out, argument);
    }
    out.close();
}

#[cycle(expression)]
fn place(out: &mut Text, updated: &UpdatePlace) {
    match updated {
        UpdatePlace::Local(number) => put_local(out, *number),
        UpdatePlace::Static(reference) => put_field(out, reference),
        UpdatePlace::Field(target, reference) => {
            expression(out, target.get());
            put_member(out, reference);
        }
        UpdatePlace::Elem(array, index) => {
            out.open("element");
            expression(out, array.get());
            out.next();
            expression(out, index.get());
            out.close();
        }
    }
}

/// Writes an expression.
#[cycle(expression)]
pub fn expression(out: &mut Text, e: &SymExpr) {
    match e {
        SymExpr::Int(number) => out.put_number(i64::from(*number)),
        SymExpr::Bool(truth) => out.put(if *truth { "true" } else { "false" }),
        SymExpr::Null => out.put("null"),
        SymExpr::Local(number) => put_local(out, *number),
        SymExpr::GetStatic(reference) => put_field(out, reference),
        SymExpr::GetField(target, reference) => {
            expression(out, target.get());
            put_member(out, reference);
        }
        SymExpr::SetLocal(number, value) => {
            out.open("set");
            put_local(out, *number);
            out.next();
            expression(out, value.get());
            out.close();
        }
        SymExpr::SetStatic(reference, value) => {
            out.open("set");
            put_field(out, reference);
            out.next();
            expression(out, value.get());
            out.close();
        }
        SymExpr::SetField(target, reference, value) => {
            out.open("set");
            expression(out, target.get());
            put_member(out, reference);
            out.next();
            expression(out, value.get());
            out.close();
        }
        SymExpr::GetElem(array, index) => {
            out.open("element");
            expression(out, array.get());
            out.next();
            expression(out, index.get());
            out.close();
        }
        SymExpr::SetElem(array, index, value) => {
            out.open("set");
            expression(out, array.get());
            out.next();
            expression(out, index.get());
            out.next();
            expression(out, value.get());
            out.close();
        }
        SymExpr::Length(array) => {
            out.open("length");
            expression(out, array.get());
            out.close();
        }
        SymExpr::Update {
            place: updated,
            op,
            value,
            post,
        } => {
            out.open(if *post { "post" } else { "update" });
            place(out, updated);
            out.next();
            out.put(operator(*op));
            out.next();
            expression(out, value.get());
            out.close();
        }
        SymExpr::Unary(op, part) => {
            out.open(unary(*op));
            expression(out, part.get());
            out.close();
        }
        SymExpr::Binary(op, left, right) => {
            out.open(operator(*op));
            expression(out, left.get());
            out.next();
            expression(out, right.get());
            out.close();
        }
        SymExpr::And(left, right) => {
            out.open("also");
            expression(out, left.get());
            out.next();
            expression(out, right.get());
            out.close();
        }
        SymExpr::Or(left, right) => {
            out.open("else");
            expression(out, left.get());
            out.next();
            expression(out, right.get());
            out.close();
        }
        SymExpr::Cond(test, first, second) => {
            out.open("cond");
            expression(out, test.get());
            out.next();
            expression(out, first.get());
            out.next();
            expression(out, second.get());
            out.close();
        }
        SymExpr::New(reference, args) => {
            out.open("new");
            put_method(out, reference);
            arguments(out, args.as_slice());
        }
        SymExpr::NewArray(of, length) => {
            out.open("array");
            put_type(out, of);
            out.next();
            expression(out, length.get());
            out.close();
        }
        SymExpr::CallStatic(reference, args) => {
            out.open("static");
            put_method(out, reference);
            arguments(out, args.as_slice());
        }
        SymExpr::CallVirtual(target, reference, args) => {
            out.open("virtual");
            expression(out, target.get());
            out.put("!");
            put_method(out, reference);
            arguments(out, args.as_slice());
        }
        SymExpr::CallInterface(target, reference, args) => {
            out.open("interface");
            expression(out, target.get());
            out.put("!");
            put_method(out, reference);
            arguments(out, args.as_slice());
        }
        SymExpr::CallSpecial(reference, args) => {
            out.open("special");
            put_method(out, reference);
            arguments(out, args.as_slice());
        }
        SymExpr::Cast(to, part) => {
            out.open("cast");
            put_type(out, to);
            out.next();
            expression(out, part.get());
            out.close();
        }
        SymExpr::Widen(to, part) => {
            out.open("widen");
            put_type(out, to);
            out.next();
            expression(out, part.get());
            out.close();
        }
        SymExpr::InstanceOf(part, of) => {
            out.open("instance");
            expression(out, part.get());
            out.next();
            put_type(out, of);
            out.close();
        }
        SymExpr::Then {
            first,
            null_test,
            second,
        } => {
            out.open(if *null_test { "test" } else { "then" });
            expression(out, first.get());
            out.next();
            expression(out, second.get());
            out.close();
        }
        SymExpr::Print(_, args) => {
            out.open("print");
            arguments(out, args.as_slice());
        }
    }
}
