//! Which nodes are of the language that runs today, by their forms alone.

ghost use Rattle.std.specs.Prelude.{◌≡◌, bytes_eq};
ghost use Rattle.std.specs.List.{list_any};
ghost use Rattle.bcj_parser_trees.specs.Plain.{expr_of, exprs_of, option_of, stmt_of, else_of, body_of, type_of};
ghost use Rattle.bcj_cli_unit.specs.Kinds as spec;

use bcj_cli_language::{Comparison, Operator};
use bcj_names::Name;
use bcj_parser_trees::{Access, Base, BinOp, Expr, Mods, Param, Stmt, TypeDecl, TypeName};
use sqlite_items::{Boxed, Items};

const BOOT_TYPES: [&[u8]; 25] = [
    b"Object",
    b"String",
    b"System",
    b"PrintStream",
    b"Throwable",
    b"Exception",
    b"RuntimeException",
    b"Error",
    b"LinkageError",
    b"ClassCircularityError",
    b"NoClassDefFoundError",
    b"VerifyError",
    b"IncompatibleClassChangeError",
    b"ExceptionInInitializerError",
    b"NoSuchFieldError",
    b"NoSuchMethodError",
    b"InstantiationError",
    b"IllegalAccessError",
    b"AbstractMethodError",
    b"NullPointerException",
    b"ArithmeticException",
    b"ClassCastException",
    b"ArrayStoreException",
    b"NegativeArraySizeException",
    b"ArrayIndexOutOfBoundsException",
];

pub fn operator(op: BinOp) -> Option<Operator>
    ensures { result ≡ spec.operator op }
{
    match op {
        BinOp::Add => Some(Operator::Add),
        BinOp::Sub => Some(Operator::Sub),
        BinOp::Mul => Some(Operator::Mul),
        _ => None,
    }
}

pub fn comparison(op: BinOp) -> Option<Comparison>
    ensures { result ≡ spec.comparison op }
{
    match op {
        BinOp::Lt => Some(Comparison::Less),
        BinOp::Le => Some(Comparison::LessEqual),
        BinOp::Gt => Some(Comparison::Greater),
        BinOp::Ge => Some(Comparison::GreaterEqual),
        BinOp::Eq => Some(Comparison::Equal),
        BinOp::Ne => Some(Comparison::NotEqual),
        _ => None,
    }
}

/// `*` binds tighter than `+` and `-`.
fn tightness(op: BinOp) -> u8
    ensures { result ≡ spec.tightness op }
{
    match op {
        BinOp::Mul => 1,
        _ => 0,
    }
}

fn is_arithmetic(op: BinOp) -> bool
    ensures { result ≡ spec.is_arithmetic op }
{
    match op {
        BinOp::Add | BinOp::Sub | BinOp::Mul => true,
        _ => false,
    }
}

fn is_comparison(op: BinOp) -> bool
    ensures { result ≡ spec.is_comparison op }
{
    match op {
        BinOp::Lt | BinOp::Le | BinOp::Gt | BinOp::Ge | BinOp::Eq | BinOp::Ne => true,
        _ => false,
    }
}

/// An operand of sums, where an operator binds at least as tight as `least`.
#[tactic(auto, using(bcj_parser_trees::proofs::PlainLemmas::tree_rules))]
fn is_operand(e: &Expr, least: u8) -> bool
    ensures { result ≡ spec.is_operand least (expr_of e.now) }
{
    match e {
        Expr::Int { .. } | Expr::Name { .. } | Expr::Paren { .. } => true,
        Expr::Binary { op, .. } => is_arithmetic(*op) && least <= tightness(*op),
        Expr::Bool { .. }
        | Expr::Null { .. }
        | Expr::This { .. }
        | Expr::Dot { .. }
        | Expr::SuperField { .. }
        | Expr::Call { .. }
        | Expr::DotCall { .. }
        | Expr::SuperCall { .. }
        | Expr::New { .. }
        | Expr::NewArray { .. }
        | Expr::Elem { .. }
        | Expr::Unary { .. }
        | Expr::Step { .. }
        | Expr::Cast { .. }
        | Expr::InstanceOf { .. }
        | Expr::Cond { .. }
        | Expr::Assign { .. } => false,
    }
}

pub fn is_sum(e: &Expr) -> bool
    ensures { result ≡ spec.is_sum (expr_of e.now) }
{
    is_operand(e, 0)
}

/// Whether an operator may have these operands.
pub fn joins(op: BinOp, left: &Expr, right: &Expr) -> bool
    ensures { result ≡ spec.joins op (expr_of left.now) (expr_of right.now) }
{
    let least = tightness(op);
    (is_arithmetic(op) && is_operand(left, least) && is_operand(right, least.saturating_add(1)))
        || (is_comparison(op) && is_sum(left) && is_sum(right))
}

#[tactic(auto, using(bcj_parser_trees::proofs::PlainLemmas::tree_rules))]
pub fn is_test(e: &Expr) -> bool
    ensures { result ≡ spec.is_test (expr_of e.now) }
{
    match e {
        Expr::Binary { op, .. } => is_comparison(*op),
        Expr::Int { .. }
        | Expr::Bool { .. }
        | Expr::Null { .. }
        | Expr::This { .. }
        | Expr::Name { .. }
        | Expr::Paren { .. }
        | Expr::Dot { .. }
        | Expr::SuperField { .. }
        | Expr::Call { .. }
        | Expr::DotCall { .. }
        | Expr::SuperCall { .. }
        | Expr::New { .. }
        | Expr::NewArray { .. }
        | Expr::Elem { .. }
        | Expr::Unary { .. }
        | Expr::Step { .. }
        | Expr::Cast { .. }
        | Expr::InstanceOf { .. }
        | Expr::Cond { .. }
        | Expr::Assign { .. } => false,
    }
}

#[tactic(auto, using(bcj_parser_trees::proofs::PlainLemmas::tree_rules))]
fn is_name_of(e: &Expr, text: &str) -> bool
    ensures { result ≡ spec.is_name_of text.now (expr_of e.now) }
{
    match e {
        Expr::Name { name, .. } => name.as_str() == text,
        Expr::Int { .. }
        | Expr::Bool { .. }
        | Expr::Null { .. }
        | Expr::This { .. }
        | Expr::Paren { .. }
        | Expr::Dot { .. }
        | Expr::SuperField { .. }
        | Expr::Call { .. }
        | Expr::DotCall { .. }
        | Expr::SuperCall { .. }
        | Expr::New { .. }
        | Expr::NewArray { .. }
        | Expr::Elem { .. }
        | Expr::Unary { .. }
        | Expr::Step { .. }
        | Expr::Cast { .. }
        | Expr::Binary { .. }
        | Expr::InstanceOf { .. }
        | Expr::Cond { .. }
        | Expr::Assign { .. } => false,
    }
}

/// `System.out`
#[tactic(auto, using(bcj_parser_trees::proofs::PlainLemmas::tree_rules))]
pub fn is_out(e: &Expr) -> bool
    ensures { result ≡ spec.is_out (expr_of e.now) }
{
    match e {
        Expr::Dot { target, name, .. } => {
            is_name_of(target.get(), "System") && name.as_str() == "out"
        }
        Expr::Int { .. }
        | Expr::Bool { .. }
        | Expr::Null { .. }
        | Expr::This { .. }
        | Expr::Name { .. }
        | Expr::Paren { .. }
        | Expr::SuperField { .. }
        | Expr::Call { .. }
        | Expr::DotCall { .. }
        | Expr::SuperCall { .. }
        | Expr::New { .. }
        | Expr::NewArray { .. }
        | Expr::Elem { .. }
        | Expr::Unary { .. }
        | Expr::Step { .. }
        | Expr::Cast { .. }
        | Expr::Binary { .. }
        | Expr::InstanceOf { .. }
        | Expr::Cond { .. }
        | Expr::Assign { .. } => false,
    }
}

fn is_one_sum(args: &[Expr]) -> bool
    ensures { result ≡ spec.is_one_sum (exprs_of args.now) }
{
    match args {
        [] => false,
        [e] => is_sum(e),
        [_, _, ..] => false,
    }
}

/// `System.out.println(e)`
pub fn is_print(target: &Expr, name: &Name, args: &[Expr]) -> bool
    ensures { result ≡ spec.is_print (expr_of target.now) name.now (exprs_of args.now) }
{
    is_out(target) && name.as_str() == "println" && is_one_sum(args)
}

#[tactic(auto, using(bcj_parser_trees::proofs::PlainLemmas::tree_rules))]
fn is_name(e: &Expr) -> bool
    ensures { result ≡ spec.is_name (expr_of e.now) }
{
    match e {
        Expr::Name { .. } => true,
        Expr::Int { .. }
        | Expr::Bool { .. }
        | Expr::Null { .. }
        | Expr::This { .. }
        | Expr::Paren { .. }
        | Expr::Dot { .. }
        | Expr::SuperField { .. }
        | Expr::Call { .. }
        | Expr::DotCall { .. }
        | Expr::SuperCall { .. }
        | Expr::New { .. }
        | Expr::NewArray { .. }
        | Expr::Elem { .. }
        | Expr::Unary { .. }
        | Expr::Step { .. }
        | Expr::Cast { .. }
        | Expr::Binary { .. }
        | Expr::InstanceOf { .. }
        | Expr::Cond { .. }
        | Expr::Assign { .. } => false,
    }
}

/// `x = e`
pub fn assigns(op: &Option<BinOp>, place: &Expr, value: &Expr) -> bool
    ensures { result ≡ spec.assigns op.now (expr_of place.now) (expr_of value.now) }
{
    op.is_none() && is_name(place) && is_sum(value)
}

#[tactic(auto, using(bcj_parser_trees::proofs::PlainLemmas::tree_rules))]
pub fn is_evaluation(e: &Expr) -> bool
    ensures { result ≡ spec.is_evaluation (expr_of e.now) }
{
    match e {
        Expr::DotCall { .. } | Expr::Assign { .. } => true,
        Expr::Int { .. }
        | Expr::Bool { .. }
        | Expr::Null { .. }
        | Expr::This { .. }
        | Expr::Name { .. }
        | Expr::Paren { .. }
        | Expr::Dot { .. }
        | Expr::SuperField { .. }
        | Expr::Call { .. }
        | Expr::SuperCall { .. }
        | Expr::New { .. }
        | Expr::NewArray { .. }
        | Expr::Elem { .. }
        | Expr::Unary { .. }
        | Expr::Step { .. }
        | Expr::Cast { .. }
        | Expr::Binary { .. }
        | Expr::InstanceOf { .. }
        | Expr::Cond { .. } => false,
    }
}

pub fn is_present_sum(init: &Option<Expr>) -> bool
    ensures { result ≡ spec.is_present_sum (option_of init.now) }
{
    match init {
        None => false,
        Some(e) => is_sum(e),
    }
}

pub fn is_int(ty: &TypeName) -> bool
    ensures { result ≡ spec.is_int ty.now }
{
    let is_int_base = match &ty.base {
        Base::Int => true,
        _ => false,
    };
    is_int_base && ty.dims == 0
}

fn is_void(ty: &TypeName) -> bool
    ensures { result ≡ spec.is_void ty.now }
{
    let is_void_base = match &ty.base {
        Base::Void => true,
        _ => false,
    };
    is_void_base && ty.dims == 0
}

#[tactic(auto, using(bcj_parser_trees::proofs::PlainLemmas::tree_rules))]
pub fn is_block(s: &Stmt) -> bool
    ensures { result ≡ spec.is_block (stmt_of s.now) }
{
    match s {
        Stmt::Block { .. } => true,
        Stmt::Local { .. }
        | Stmt::Empty { .. }
        | Stmt::Eval { .. }
        | Stmt::If { .. }
        | Stmt::While { .. }
        | Stmt::Do { .. }
        | Stmt::For { .. }
        | Stmt::Return { .. }
        | Stmt::Throw { .. }
        | Stmt::Break { .. }
        | Stmt::Continue { .. }
        | Stmt::Try { .. } => false,
    }
}

fn is_block_or_none(second: &Option<Boxed<Stmt>>) -> bool
    ensures { result ≡ spec.is_block_or_none (else_of second.now) }
{
    match second {
        None => true,
        Some(s) => is_block(s.get()),
    }
}

/// A test with a block, and another one behind `else`.
pub fn is_choice(cond: &Expr, first: &Stmt, second: &Option<Boxed<Stmt>>) -> bool
    ensures { result ≡ spec.is_choice (expr_of cond.now) (stmt_of first.now) (else_of second.now) }
{
    is_test(cond) && is_block(first) && is_block_or_none(second)
}

fn is_open(access: Access) -> bool
    ensures { result ≡ spec.is_open access }
{
    match access {
        Access::Open => true,
        _ => false,
    }
}

/// `static void main()` with a body.
pub fn is_main(
    mods: &Mods,
    ty: &TypeName,
    name: &Name,
    params: &[Param],
    throws: &[Name],
    body: &Option<Items<Stmt>>,
) -> bool
    ensures { result ≡ spec.is_main mods.now ty.now name.now params.now throws.now (body_of body.now) }
{
    is_open(mods.access)
        && mods.is_static
        && !mods.is_abstract
        && !mods.is_final
        && is_void(ty)
        && name.as_str() == "main"
        && params.is_empty()
        && throws.is_empty()
        && body.is_some()
}

fn is_among(table: &[&[u8]], word: &[u8]) -> bool
    ensures { result ≡ list_any (λ known. bytes_eq known.now word.now) table.now }
{
    for known in table {
        if *known == word {
            return true;
        }
    }
    false
}

/// Whether every program has a class of this name from the start.
#[tactic(auto, unfolding(crate::specs::Kinds::boot_types))]
fn is_boot_type(name: &str) -> bool
    ensures { result ≡ spec.is_among spec.boot_types name.now }
{
    is_among(&BOOT_TYPES, name.as_bytes())
}

/// A class of this name with one member, which extends and implements nothing.
pub fn is_main_class(main: &str, class: &TypeDecl) -> bool
    ensures { result ≡ spec.is_main_class main.now (type_of class.now) }
{
    !class.interface
        && !class.is_abstract
        && class.name.as_str() == main
        && !is_boot_type(main)
        && class.extends.is_empty()
        && class.implements.is_empty()
        && class.members.len() == 1
}
