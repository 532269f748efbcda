//! Symbolic statements as rows write them.
use crate::expression::expression;
use crate::text::Text;
use crate::word::put_local;
use bcj_symbolic_trees::{SymCatch, SymExpr, SymStmt};

fn updates(out: &mut Text, all: &[SymExpr]) {
    for each in all {
        out.put(" again ");
        expression(out, each);
    }
}

fn put_result(out: &mut Text, value: Option<&SymExpr>) {
    out.put("return");
    if let Some(value) = value {
        out.put(" ");
        expression(out, value);
    }
    out.put(";");
}

#[cycle(statement)]
fn handlers(out: &mut Text, all: &[SymCatch]) {
    for each in all {
        handler(out, each);
    }
}

#[cycle(statement)]
fn handler(out: &mut Text, each: &SymCatch) {
    out.put(" catch ");
    out.put(each.class.as_str());
    out.put(" ");
    put_local(out, each.local);
    out.put(" {");
    statements(out, each.body.as_slice());
    out.put("}");
}

#[cycle(statement)]
fn statement(out: &mut Text, s: &SymStmt) {
    match s {
        SymStmt::Expr(value) => {
            expression(out, value);
            out.put(";");
        }
        SymStmt::If(test, first, second) => {
            out.put("if ");
            expression(out, test);
            out.put(" ");
            statement(out, first.get());
            out.put(" else ");
            statement(out, second.get());
        }
        SymStmt::Loop {
            test_last,
            cond,
            body,
            update,
        } => {
            out.put(if *test_last { "until " } else { "while " });
            expression(out, cond);
            updates(out, update.as_slice());
            out.put(" ");
            statement(out, body.get());
        }
        SymStmt::Break => out.put("break;"),
        SymStmt::Continue => out.put("continue;"),
        SymStmt::Return(value) => put_result(out, value.as_ref()),
        SymStmt::Throw(value) => {
            out.put("throw ");
            expression(out, value);
            out.put(";");
        }
        SymStmt::Try(body, all) => {
            out.put("try {");
            statements(out, body.as_slice());
            out.put("}");
            handlers(out, all.as_slice());
        }
        SymStmt::Block(body) => {
            out.put("{");
            statements(out, body.as_slice());
            out.put("}");
        }
    }
}

/// Writes statements with a blank between them.
#[cycle(statement)]
pub fn statements(out: &mut Text, body: &[SymStmt]) {
    let mut is_first = true;
    for each in body {
        if !is_first {
            out.put(" ");
        }
        statement(out, each);
        is_first = false;
    }
}
