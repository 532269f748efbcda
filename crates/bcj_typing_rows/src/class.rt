//! What a row asks of the classes of a unit.
use crate::statement::statements;
use crate::text::Text;
use crate::word::{put_type, put_types};
use bcj_symbolic_trees::{MethodKind, SymClass, SymField, SymMethod, SymUnit};
use std::alloc::{AllocError, Global};

fn flag(out: &mut Text, holds: bool, word: &str) {
    if holds {
        out.put(word);
    }
}

fn field(out: &mut Text, field: &SymField) {
    flag(out, field.is_private, "private ");
    flag(out, field.is_static, "static ");
    flag(out, field.is_final, "final ");
    put_type(out, &field.ty);
    out.put(" ");
    out.put(field.name.as_str());
    if let Some(number) = field.constant {
        out.put(" = ");
        out.put_number(i64::from(number));
    }
}

fn fields(out: &mut Text, class: &SymClass) {
    let mut is_first = true;
    for each in class.fields.as_slice() {
        flag(out, !is_first, "; ");
        field(out, each);
        is_first = false;
    }
}

fn kind(kind: MethodKind) -> &'static str {
    match kind {
        MethodKind::Static => "static ",
        MethodKind::Instance => "",
        MethodKind::Abstract => "abstract ",
        MethodKind::Constructor => "constructor ",
    }
}

fn method(out: &mut Text, method: &SymMethod) {
    flag(out, method.is_private, "private ");
    out.put(kind(method.kind));
    out.put(method.name.as_str());
    out.put("(");
    put_types(out, method.params.as_slice());
    out.put(")");
    put_type(out, &method.result);
}

fn methods(out: &mut Text, class: &SymClass) {
    let mut is_first = true;
    for each in class.methods.as_slice() {
        flag(out, !is_first, "; ");
        method(out, each);
        is_first = false;
    }
}

fn pairs(out: &mut Text, class: &SymClass) {
    let mut is_first = true;
    for pair in class.pairs.as_slice() {
        flag(out, !is_first, ", ");
        put_type(out, &pair.from);
        out.put("<");
        put_type(out, &pair.to);
        is_first = false;
    }
}

fn initialiser(out: &mut Text, class: &SymClass) {
    put_types(out, class.init.locals.as_slice());
    out.put("|");
    statements(out, class.init.body.as_slice());
}

fn body(out: &mut Text, method: &SymMethod) {
    put_types(out, method.locals.as_slice());
    out.put("|");
    statements(out, method.body.as_slice());
}

/// The locals and statements of the methods of a name.
fn bodies(out: &mut Text, class: &SymClass, name: &str) {
    let mut is_first = true;
    for each in class.methods.as_slice() {
        if each.name.as_str() == name {
            flag(out, !is_first, " || ");
            body(out, each);
            is_first = false;
        }
    }
}

fn of_class(out: &mut Text, class: &SymClass, what: &str) {
    match what {
        "fields" => fields(out, class),
        "methods" => methods(out, class),
        "pairs" => pairs(out, class),
        "init" => initialiser(out, class),
        _ => bodies(out, class, what),
    }
}

/// The answer to `CLASS fields`, `CLASS methods`, `CLASS pairs`, `CLASS init`, or `CLASS NAME` of methods.
pub fn asked(alloc: Global, unit: &SymUnit, query: &str) -> Result<String, AllocError> {
    let mut out = Text::new(alloc);
    let Some((name, what)) = query.split_once(" ") else {
        return String::from_str(alloc, "not a query");
    };
    for class in unit.classes.as_slice() {
        if class.head.name.as_str() == name {
            of_class(&mut out, class, what);
        }
    }
    out.ended()
}
