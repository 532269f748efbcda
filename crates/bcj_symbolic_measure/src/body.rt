//! Frames and code of methods and class initialisers.
#![tactic(auto, using(crate::proofs::Rules::code_rules))]

ghost use Rattle.std.specs.Prelude.{◌≡◌, [], ◌∷◌, map, OnOk};
ghost use Rattle.bcj_symbolic_trees.specs.Types.{ty_of};
ghost use Rattle.bcj_symbolic_trees.specs.Units.{method_of, class_of};
ghost use Rattle.bcj_symbolic_check.specs.Steps as steps;
ghost use Rattle.bcj_symbolic_check.specs.Classes as classes;
ghost use Rattle.bcj_symbolic_measure.specs.Bodies as spec;
ghost use Rattle.bcj_symbolic_measure.specs.Totals.{capped};
ghost use Rattle.bcj_symbolic_measure.specs.function.Counts.{counts_of, noted, closed, bodies_noted};

use crate::entry::Entry;
use crate::scheme::{COMPUTE, ENTRY, EXIT, INITIALISE, SERVICE, is_object};
use crate::statement::statements;
use crate::tally::Tally;
use crate::temporaries;
use crate::totals::{larger, plus};
use bcj_symbolic_check::{init_body, method_body};
use bcj_symbolic_trees::{MethodKind, Name, SymClass, SymMethod, Ty};
use std::alloc::AllocError;

/// The words of the return address in a frame.
const RETURN_ADDRESS: u64 = 1;

/// Whether a method of this kind has no code.
pub fn is_abstract(kind: MethodKind) -> bool
    ensures { result ≡ classes.is_abstract kind }
{
    match kind {
        MethodKind::Abstract => true,
        MethodKind::Static | MethodKind::Instance | MethodKind::Constructor => false,
    }
}

/// How many locals stand before the parameters: one, `this`, unless the method is static.
pub fn hidden_parameters(kind: MethodKind) -> usize
    ensures { result ≡ spec.hidden_parameters kind }
{
    match kind {
        MethodKind::Static => 0,
        MethodKind::Abstract | MethodKind::Instance | MethodKind::Constructor => 1,
    }
}

#[tactic(auto, using(crate::proofs::Rules::depth_rules, crate::proofs::Rules::frame_rules))]
pub fn method_frame(method: &SymMethod) -> u64
    ensures { result ≡ capped (spec.method_frame_size (method_of method.now)) }
{
    if is_abstract(method.kind) {
        return 0;
    }
    let locals = plus(RETURN_ADDRESS, method.locals.len() as u64);
    plus(locals, temporaries::statements(method.body.as_slice()))
}

#[tactic(auto, using(crate::proofs::Rules::depth_rules, crate::proofs::Rules::frame_rules))]
pub fn init_frame(class: &SymClass) -> u64
    ensures { result ≡ capped (spec.init_frame_size (class_of class.now)) }
{
    let locals = plus(RETURN_ADDRESS, class.init.locals.len() as u64);
    plus(locals, temporaries::statements(class.init.body.as_slice()))
}

fn methods_frame(all: &[SymMethod]) -> u64
    ensures { result ≡ capped (spec.methods_frame_size (map method_of all.now)) }
{
    let mut largest = 0;
    for method in all {
        largest = larger(largest, method_frame(method));
    }
    largest
}

/// The largest frame of a class.
#[tactic(auto, using(crate::proofs::Rules::depth_rules))]
pub fn largest_frame(class: &SymClass) -> u64
    ensures { result ≡ capped (spec.class_frame_size (class_of class.now)) }
{
    larger(init_frame(class), methods_frame(class.methods.as_slice()))
}

fn zeroed(method: &SymMethod) -> u64
    ensures { result ≡ spec.zeroed (method_of method.now) }
{
    let parameters = method.locals.len().saturating_sub(method.params.len());
    parameters.saturating_sub(hidden_parameters(method.kind)) as u64
}

fn last_value(result_type: &Ty) -> u64
    ensures { result ≡ spec.last_value (ty_of result_type.now) }
{
    match result_type {
        Ty::Void => 0,
        Ty::Int | Ty::Bool | Ty::Class(_) | Ty::Array(_) => COMPUTE,
    }
}

pub fn method<'a>(
    method: &'a SymMethod,
    class: &'a SymClass,
    tally: &mut Tally<'a>,
) -> Result<(), AllocError>
    ensures { OnOk result (counts_of tally.new ≡ noted (counts_of tally.old) (spec.method_pieces (class_of class.now) (method_of method.now))) }
{
    if is_abstract(method.kind) {
        return Ok(());
    }
    let body = method_body(class, method);
    tally.plain(ENTRY);
    tally.plain(zeroed(method));
    statements(method.body.as_slice(), &body, tally)?;
    tally.plain(last_value(&method.result));
    tally.plain(EXIT);
    Ok(())
}

fn superclass<'a>(name: &'a Option<Name>, tally: &mut Tally<'a>) -> Result<(), AllocError>
    ensures { OnOk result (counts_of tally.new ≡ noted (counts_of tally.old) (spec.superclass_pieces name.now)) }
{
    match name {
        None => Ok(()),
        Some(name) => {
            if is_object(name) {
                return Ok(());
            }
            tally.usage(Entry::of_class(name))?;
            tally.plain(INITIALISE);
            Ok(())
        }
    }
}

/// What stands behind the initialisers.
fn ended<'a>(tally: &mut Tally<'a>)
    ensures { counts_of tally.new ≡ noted (counts_of tally.old) spec.init_end }
{
    tally.region();
    tally.plain(SERVICE + EXIT);
    tally.handled("");
    tally.region();
    tally.plain(SERVICE + SERVICE);
}

pub fn initialiser<'a>(class: &'a SymClass, tally: &mut Tally<'a>) -> Result<(), AllocError>
    ensures { OnOk result (counts_of tally.new ≡ noted (counts_of tally.old) (spec.init_pieces (class_of class.now))) }
{
    let body = init_body(class);
    tally.plain(ENTRY);
    tally.plain(class.init.locals.len() as u64);
    superclass(&class.head.superclass, tally)?;
    statements(class.init.body.as_slice(), &body, tally)?;
    ended(tally);
    Ok(())
}

fn methods<'a>(
    all: &'a [SymMethod],
    class: &'a SymClass,
    tally: &mut Tally<'a>,
) -> Result<(), AllocError>
    ensures { OnOk result (counts_of tally.new ≡ bodies_noted (counts_of tally.old) (spec.methods_pieces (class_of class.now) (map method_of all.now))) }
{
    for one in all {
        method(one, class, tally)?;
        tally.close();
    }
    Ok(())
}

/// Counts the code of a class, body by body.
#[tactic(auto, using(crate::proofs::Rules::body_rules))]
pub fn bodies<'a>(class: &'a SymClass, tally: &mut Tally<'a>) -> Result<(), AllocError>
    ensures { OnOk result (counts_of tally.new ≡ bodies_noted (counts_of tally.old) (spec.class_bodies (class_of class.now))) }
{
    initialiser(class, tally)?;
    tally.close();
    methods(class.methods.as_slice(), class, tally)
}
