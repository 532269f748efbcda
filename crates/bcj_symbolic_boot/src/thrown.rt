#![tactic(auto, using(crate::proofs::Rules::boot_rules))]

ghost use Rattle.std.specs.Prelude.{◌≡◌, [], ◌∷◌, ◌++◌, map, IfOk, OnOk};
ghost use Rattle.bcj_symbolic_trees.specs.Plain.{stmts_of};
ghost use Rattle.bcj_symbolic_trees.specs.Units.{class_of, method_of};
ghost use Rattle.bcj_symbolic_boot.specs.BootUnit.{constructor_with, super_call, throwable_class, thrown_class, thrown_table};

use crate::class::{bare, class_named, locals_of_this};
use bcj_symbolic_trees::{
    CONSTRUCTOR, MethodKind, MethodRef, Name, OBJECT, Pair, Sequence, SymClass, SymClasses,
    SymExpr, SymMethod, SymStmt, THROWABLE, Ty,
};
use sqlite_items::Items;
use std::alloc::{AllocError, Global};

/// The classes below Throwable, each with its superclass.
const THROWN: [(&str, &str); 20] = [
    ("Exception", "Throwable"),
    ("RuntimeException", "Exception"),
    ("Error", "Throwable"),
    ("LinkageError", "Error"),
    ("ClassCircularityError", "LinkageError"),
    ("NoClassDefFoundError", "LinkageError"),
    ("VerifyError", "LinkageError"),
    ("IncompatibleClassChangeError", "LinkageError"),
    ("ExceptionInInitializerError", "LinkageError"),
    ("NoSuchFieldError", "IncompatibleClassChangeError"),
    ("NoSuchMethodError", "IncompatibleClassChangeError"),
    ("InstantiationError", "IncompatibleClassChangeError"),
    ("IllegalAccessError", "IncompatibleClassChangeError"),
    ("AbstractMethodError", "IncompatibleClassChangeError"),
    ("NullPointerException", "RuntimeException"),
    ("ArithmeticException", "RuntimeException"),
    ("ClassCastException", "RuntimeException"),
    ("ArrayStoreException", "RuntimeException"),
    ("NegativeArraySizeException", "RuntimeException"),
    ("ArrayIndexOutOfBoundsException", "RuntimeException"),
];

/// Throwable. The constructor of its superclass, Object, has no node.
pub fn throwable(alloc: Global) -> Result<SymClass, AllocError>
    ensures { IfOk result (λ c. class_of c ≡ throwable_class) }
{
    let mut class = bare(alloc, THROWABLE, Some(OBJECT))?;
    let first = constructor(alloc, THROWABLE, Items::new(alloc))?;
    class.methods.push(first)?;
    Ok(class)
}

/// Adds the classes below Throwable.
pub fn push_thrown(alloc: Global, classes: &mut SymClasses) -> Result<(), AllocError>
    ensures { OnOk result (map class_of classes.new ≡ map class_of classes.old ++ map thrown_class thrown_table) }
{
    push_rows(alloc, classes, &THROWN)
}

fn push_rows(
    alloc: Global,
    classes: &mut SymClasses,
    rows: &[(&str, &str)],
) -> Result<(), AllocError>
    ensures { OnOk result (map class_of classes.new ≡ map class_of classes.old ++ map (λ r. thrown_class (r.0.now, r.1.now)) rows.entry.now) }
{
    for (name, superclass) in rows {
        classes.push(thrown(alloc, name, superclass)?)?;
    }
    Ok(())
}

/// A class below Throwable, with its constructor and the step to its superclass.
fn thrown(alloc: Global, name: &str, superclass: &str) -> Result<SymClass, AllocError>
    ensures { IfOk result (λ c. class_of c ≡ thrown_class (name.now, superclass.now)) }
{
    let mut class = bare(alloc, name, Some(superclass))?;
    let body = call_of_super(alloc, superclass)?;
    class.methods.push(constructor(alloc, name, body)?)?;
    class.pairs.push(Pair {
        from: class_named(alloc, name)?,
        to: class_named(alloc, superclass)?,
    })?;
    Ok(class)
}

/// A constructor without parameters.
fn constructor(alloc: Global, class: &str, body: Items<SymStmt>) -> Result<SymMethod, AllocError>
    ensures { IfOk result (λ m. method_of m ≡ constructor_with class.now (stmts_of body)) }
{
    Ok(SymMethod {
        name: Name::from_str(alloc, CONSTRUCTOR)?,
        params: Sequence::new(alloc),
        result: Ty::Void,
        kind: MethodKind::Constructor,
        is_private: false,
        locals: locals_of_this(alloc, class)?,
        body,
    })
}

/// The call of the superclass's constructor on `this`.
fn call_of_super(alloc: Global, superclass: &str) -> Result<Items<SymStmt>, AllocError>
    ensures { IfOk result (λ b. stmts_of b ≡ super_call superclass.now) }
{
    let reference = MethodRef {
        class: Name::from_str(alloc, superclass)?,
        name: Name::from_str(alloc, CONSTRUCTOR)?,
        params: Sequence::new(alloc),
        result: Ty::Void,
    };
    let mut body = Items::new(alloc);
    body.push(SymStmt::Expr(SymExpr::CallSpecial(reference, Items::new(alloc))))?;
    Ok(body)
}
