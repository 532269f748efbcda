use crate::expression::{expression, expressions, optional_expression};
use crate::printer::Printer;
use bcj_parser::{Catch, Stmt};

#[cycle(statement)]
pub fn statements(parts: &[Stmt], out: &mut Printer) {
    for part in parts {
        statement(part, out);
    }
}

#[cycle(statement)]
fn catches(parts: &[Catch], out: &mut Printer) {
    for part in parts {
        out.open_part("catch");
        out.word(part.class.as_str());
        out.word(part.name.as_str());
        statements(part.body.as_slice(), out);
        out.close();
    }
}

#[cycle(statement)]
fn statement(s: &Stmt, out: &mut Printer) {
    match s {
        Stmt::Local { at, ty, name, init } => {
            out.open(*at, "local");
            out.typed(ty, name);
            optional_expression(init, out);
            out.close();
        }
        Stmt::Block { at, body } => {
            out.open(*at, "block");
            statements(body.as_slice(), out);
            out.close();
        }
        Stmt::Empty { at } => out.atom(*at, ";"),
        Stmt::Eval { at, value } => {
            out.open(*at, "eval");
            expression(value, out);
            out.close();
        }
        Stmt::If {
            at,
            cond,
            first,
            second,
        } => {
            out.open(*at, "if");
            expression(cond, out);
            statement(first.get(), out);
            if let Some(second) = second {
                statement(second.get(), out);
            }
            out.close();
        }
        Stmt::While { at, cond, body } => {
            out.open(*at, "while");
            expression(cond, out);
            statement(body.get(), out);
            out.close();
        }
        Stmt::Do { at, body, cond } => {
            out.open(*at, "do");
            statement(body.get(), out);
            expression(cond, out);
            out.close();
        }
        Stmt::For {
            at,
            init,
            cond,
            update,
            body,
        } => {
            out.open(*at, "for");
            out.put(" (init");
            statements(init.as_slice(), out);
            out.put(") (test");
            optional_expression(cond, out);
            out.put(") (update");
            expressions(update.as_slice(), out);
            out.put(")");
            statement(body.get(), out);
            out.close();
        }
        Stmt::Return { at, value } => {
            out.open(*at, "return");
            optional_expression(value, out);
            out.close();
        }
        Stmt::Throw { at, value } => {
            out.open(*at, "throw");
            expression(value, out);
            out.close();
        }
        Stmt::Break { at } => out.atom(*at, "break"),
        Stmt::Continue { at } => out.atom(*at, "continue"),
        Stmt::Try {
            at,
            body: parts,
            catches: clauses,
        } => {
            out.open(*at, "try");
            out.put(" (body");
            statements(parts.as_slice(), out);
            out.close();
            catches(clauses.as_slice(), out);
            out.close();
        }
    }
}

pub fn body(parts: &[Stmt], out: &mut Printer) {
    out.open_part("body");
    statements(parts, out);
    out.close();
}
