use crate::printer::Printer;
use bcj_parser::{BinOp, Expr, UnaryOp};

fn unary_sign(op: UnaryOp) -> &'static str {
    match op {
        UnaryOp::Plus => "+",
        UnaryOp::Minus => "-",
        UnaryOp::Not => "!",
        UnaryOp::Flip => "~",
    }
}

fn binary_sign(op: BinOp) -> &'static str {
    match op {
        BinOp::OrElse => "||",
        BinOp::AndAlso => "&&",
        BinOp::Or => "|",
        BinOp::Xor => "^",
        BinOp::And => "&",
        BinOp::Eq => "==",
        BinOp::Ne => "!=",
        BinOp::Lt => "<",
        BinOp::Gt => ">",
        BinOp::Le => "<=",
        BinOp::Ge => ">=",
        BinOp::Shl => "<<",
        BinOp::Shr => ">>",
        BinOp::Ushr => ">>>",
        BinOp::Add => "+",
        BinOp::Sub => "-",
        BinOp::Mul => "*",
        BinOp::Div => "/",
        BinOp::Rem => "%",
    }
}

fn step_sign(plus: bool, post: bool) -> &'static str {
    match (plus, post) {
        (true, true) => "post++",
        (true, false) => "++",
        (false, true) => "post--",
        (false, false) => "--",
    }
}

#[cycle(expression)]
pub fn expressions(parts: &[Expr], out: &mut Printer) {
    for part in parts {
        expression(part, out);
    }
}

#[cycle(expression)]
pub fn expression(e: &Expr, out: &mut Printer) {
    match e {
        Expr::Int { at, value, decimal } => out.number(*at, *value, *decimal),
        Expr::Bool { at, value } => out.atom(*at, if *value { "true" } else { "false" }),
        Expr::Null { at } => out.atom(*at, "null"),
        Expr::This { at } => out.atom(*at, "this"),
        Expr::Name { at, name } => out.atom(*at, name.as_str()),
        Expr::Paren { at, part } => {
            out.open(*at, "paren");
            expression(part.get(), out);
            out.close();
        }
        Expr::Dot { at, target, name } => {
            out.open(*at, ".");
            expression(target.get(), out);
            out.word(name.as_str());
            out.close();
        }
        Expr::SuperField { at, name } => {
            out.open(*at, "super");
            out.word(name.as_str());
            out.close();
        }
        Expr::Call { at, name, args } => {
            out.open(*at, "call");
            out.word(name.as_str());
            expressions(args.as_slice(), out);
            out.close();
        }
        Expr::DotCall {
            at,
            target,
            name,
            args,
        } => {
            out.open(*at, ".call");
            expression(target.get(), out);
            out.word(name.as_str());
            expressions(args.as_slice(), out);
            out.close();
        }
        Expr::SuperCall { at, name, args } => {
            out.open(*at, "super.call");
            out.word(name.as_str());
            expressions(args.as_slice(), out);
            out.close();
        }
        Expr::New { at, name, args } => {
            out.open(*at, "new");
            out.word(name.as_str());
            expressions(args.as_slice(), out);
            out.close();
        }
        Expr::NewArray {
            at,
            base,
            length,
            dims,
        } => {
            out.open(*at, "array");
            out.type_name(base, *dims);
            expression(length.get(), out);
            out.close();
        }
        Expr::Elem { at, array, index } => {
            out.open(*at, "[]");
            expression(array.get(), out);
            expression(index.get(), out);
            out.close();
        }
        Expr::Unary { at, op, part } => {
            out.open(*at, unary_sign(*op));
            expression(part.get(), out);
            out.close();
        }
        Expr::Step {
            at,
            plus,
            post,
            place,
        } => {
            out.open(*at, step_sign(*plus, *post));
            expression(place.get(), out);
            out.close();
        }
        Expr::Cast { at, ty, part } => {
            out.open(*at, "cast");
            out.type_name(&ty.base, ty.dims);
            expression(part.get(), out);
            out.close();
        }
        Expr::Binary {
            at,
            op,
            left,
            right,
        } => {
            out.open(*at, binary_sign(*op));
            expression(left.get(), out);
            expression(right.get(), out);
            out.close();
        }
        Expr::InstanceOf { at, part, ty } => {
            out.open(*at, "instanceof");
            expression(part.get(), out);
            out.type_name(&ty.base, ty.dims);
            out.close();
        }
        Expr::Cond {
            at,
            test,
            first,
            second,
        } => {
            out.open(*at, "?");
            expression(test.get(), out);
            expression(first.get(), out);
            expression(second.get(), out);
            out.close();
        }
        Expr::Assign {
            at,
            op,
            place,
            value,
        } => {
            out.open(*at, op.map_or("", binary_sign));
            out.put("=");
            expression(place.get(), out);
            expression(value.get(), out);
            out.close();
        }
    }
}

pub fn optional_expression(e: &Option<Expr>, out: &mut Printer) {
    if let Some(e) = e {
        expression(e, out);
    }
}
