use crate::expression::{expressions, optional_expression};
use crate::printer::Printer;
use crate::statement::{body, statements};
use bcj_parser::{First, Member, TypeDecl, Unit};
use std::alloc::{AllocError, Global};

fn first_call(first: &First, out: &mut Printer) {
    out.open(first.at, if first.to_super { "super" } else { "this" });
    expressions(first.args.as_slice(), out);
    out.close();
}

fn member(m: &Member, out: &mut Printer) {
    match m {
        Member::Field {
            at,
            mods,
            ty,
            name,
            init,
        } => {
            out.open(*at, "field");
            out.modifiers(*mods);
            out.typed(ty, name);
            optional_expression(init, out);
        }
        Member::Method {
            at,
            mods,
            result,
            name,
            params,
            throws,
            body: parts,
        } => {
            out.open(*at, "method");
            out.modifiers(*mods);
            out.typed(result, name);
            out.parameters(params.as_slice());
            out.names("throws", throws.as_slice());
            if let Some(parts) = parts {
                body(parts.as_slice(), out);
            }
        }
        Member::Constructor {
            at,
            mods,
            name,
            params,
            throws,
            first,
            body: parts,
        } => {
            out.open(*at, "constructor");
            out.modifiers(*mods);
            out.word(name.as_str());
            out.parameters(params.as_slice());
            out.names("throws", throws.as_slice());
            if let Some(first) = first {
                first_call(first, out);
            }
            body(parts.as_slice(), out);
        }
        Member::Static { at, body } => {
            out.open(*at, "static");
            statements(body.as_slice(), out);
        }
    }
    out.close();
}

fn declaration(d: &TypeDecl, out: &mut Printer) {
    out.open(d.at, if d.interface { "interface" } else { "class" });
    if d.is_abstract {
        out.word("abstract");
    }
    out.word(d.name.as_str());
    out.names("extends", d.extends.as_slice());
    out.names("implements", d.implements.as_slice());
    for part in d.members.as_slice() {
        member(part, out);
    }
    out.close();
}

/// The types of a unit one behind the other, or `none`; each node behind its first byte where `places`.
pub fn printed(alloc: Global, unit: &Unit, places: bool) -> Result<String, AllocError> {
    let mut out = Printer::new(alloc, places);
    let types = unit.types.as_slice();
    if types.is_empty() {
        out.put("none");
    }
    for part in types {
        declaration(part, &mut out);
    }
    out.text()
}
