#![tactic(auto, using(crate::proofs::Rules::boot_rules))]

ghost use Rattle.std.specs.Prelude.{◌≡◌, [], ◌∷◌, ◌++◌, map, codes, IfOk, OnOk, if◌then◌else◌};
ghost use Rattle.bcj_symbolic_trees.specs.Names.{object_name, print_stream_name};
ghost use Rattle.bcj_symbolic_trees.specs.Types.{types_of};
ghost use Rattle.bcj_symbolic_trees.specs.Trees.{no_stmts};
ghost use Rattle.bcj_symbolic_trees.specs.Plain.{stmt_of};
ghost use Rattle.bcj_symbolic_trees.specs.Units.{class_of, field_of, method_of};
ghost use Rattle.bcj_symbolic_boot.specs.BootUnit.{class_with, out_field, printed_types, print_of, line_end, printer, stream_methods};

use crate::class::{bare, class_named, locals_of_this};
use bcj_symbolic_trees::{
    MethodKind, Name, OBJECT, PRINT_STREAM, PrintKind, Sequence, SymClass, SymExpr, SymField,
    SymMethod, SymMethods, SymStmt, Ty, Types,
};
use sqlite_items::Items;
use std::alloc::{AllocError, Global};

/// The local of a method's one parameter, behind `this`.
const PARAMETER: u32 = 1;

/// System, which has the output stream.
pub fn system(alloc: Global) -> Result<SymClass, AllocError>
    ensures { IfOk result (λ c. class_of c ≡ class_with (codes "System") (Some object_name) (out_field ∷ []) [] []) }
{
    let mut class = bare(alloc, "System", Some(OBJECT))?;
    class.fields.push(out(alloc)?)?;
    Ok(class)
}

fn out(alloc: Global) -> Result<SymField, AllocError>
    ensures { IfOk result (λ f. field_of f ≡ out_field) }
{
    Ok(SymField {
        name: Name::from_str(alloc, "out")?,
        ty: class_named(alloc, PRINT_STREAM)?,
        is_static: true,
        is_final: true,
        is_private: false,
        constant: None,
    })
}

/// PrintStream, whose methods write the output.
pub fn print_stream(alloc: Global) -> Result<SymClass, AllocError>
    ensures { IfOk result (λ c. class_of c ≡ class_with print_stream_name (Some object_name) [] stream_methods []) }
{
    let mut class = bare(alloc, PRINT_STREAM, Some(OBJECT))?;
    push_methods(alloc, &mut class.methods)?;
    Ok(class)
}

fn push_methods(alloc: Global, methods: &mut SymMethods) -> Result<(), AllocError>
    ensures { OnOk result (map method_of methods.new ≡ map method_of methods.old ++ stream_methods) }
{
    push_printer(alloc, methods, "print", PrintKind::Int, false)?;
    push_printer(alloc, methods, "print", PrintKind::Bool, false)?;
    push_printer(alloc, methods, "println", PrintKind::Int, true)?;
    push_printer(alloc, methods, "println", PrintKind::Bool, true)?;
    push_printer(alloc, methods, "println", PrintKind::Line, false)?;
    push_printer(alloc, methods, "write", PrintKind::Byte, false)?;
    Ok(())
}

fn push_printer(
    alloc: Global,
    methods: &mut SymMethods,
    name: &str,
    kind: PrintKind,
    line: bool,
) -> Result<(), AllocError>
    ensures { OnOk result
        (map method_of methods.new ≡ map method_of methods.old ++ printer name.now kind (if line then line_end else no_stmts) ∷ []) }
{
    methods.push(print_method(alloc, name, kind, line)?)
}

/// A method that prints its parameter, where the kind has one, and with `line` then a line end.
fn print_method(
    alloc: Global,
    name: &str,
    kind: PrintKind,
    line: bool,
) -> Result<SymMethod, AllocError>
    ensures { IfOk result (λ m. method_of m ≡ printer name.now kind (if line then line_end else no_stmts)) }
{
    let mut locals = locals_of_this(alloc, PRINT_STREAM)?;
    push_printed(&mut locals, kind)?;
    let mut params = Sequence::new(alloc);
    push_printed(&mut params, kind)?;
    let mut body = Items::new(alloc);
    body.push(print(alloc, kind)?)?;
    if line {
        body.push(print(alloc, PrintKind::Line)?)?;
    }
    Ok(SymMethod {
        name: Name::from_str(alloc, name)?,
        params,
        result: Ty::Void,
        kind: MethodKind::Instance,
        is_private: false,
        locals,
        body,
    })
}

/// Adds the type of what is printed.
fn push_printed(types: &mut Types, kind: PrintKind) -> Result<(), AllocError>
    ensures { OnOk result (types_of types.new ≡ types_of types.old ++ printed_types kind) }
{
    match kind {
        PrintKind::Int | PrintKind::Byte => types.push(Ty::Int),
        PrintKind::Bool => types.push(Ty::Bool),
        PrintKind::Line => Ok(()),
    }
}

fn print(alloc: Global, kind: PrintKind) -> Result<SymStmt, AllocError>
    ensures { IfOk result (λ s. stmt_of s ≡ print_of kind) }
{
    let mut values = Items::new(alloc);
    match kind {
        PrintKind::Int | PrintKind::Bool | PrintKind::Byte => values.push(SymExpr::Local(
            PARAMETER,
        ))?,
        PrintKind::Line => {}
    }
    Ok(SymStmt::Expr(SymExpr::Print(kind, values)))
}
