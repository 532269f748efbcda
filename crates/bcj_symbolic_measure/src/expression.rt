//! The code of an expression, counted.
#![tactic(auto, using(crate::proofs::Rules::code_rules))]

ghost use Rattle.std.specs.Prelude.{◌≡◌, ◌+◌, [], ◌∷◌, ◌++◌, length, OnOk};
ghost use Rattle.bcj_symbolic_trees.specs.Types.{ty_of, field_ref_of, method_ref_of};
ghost use Rattle.bcj_symbolic_trees.specs.Plain.{expr_of, exprs_of, place_of};
ghost use Rattle.bcj_symbolic_check.specs.function.Views.{frame_of};
ghost use Rattle.bcj_symbolic_measure.specs.Entries as entries;
ghost use Rattle.bcj_symbolic_measure.specs.Scheme as spec;
ghost use Rattle.bcj_symbolic_measure.specs.function.Counts.{entry_of, counts_of, noted};

use crate::entry::Entry;
use crate::scheme::{
    ADDRESS, BRANCH, CALL, COMPUTE, ELEMENT_ADDRESS, FAIL, FAR_BRANCH, INITIALISE, INSTANCE_TEST,
    INTERFACE_LOOKUP, JUMP, LOAD, METHOD_LOOKUP, NULL_TEST, SAVE, SERVICE, STORE, is_object,
    old_value, operation, store_check, tested,
};
use crate::tally::Tally;
use bcj_symbolic_check::Body;
use bcj_symbolic_trees::{FieldRef, MethodRef, SymExpr, Ty, UpdatePlace};
use std::alloc::AllocError;

/// An entry that is used, initialised and loaded, with so many words behind it.
fn initialised<'a>(used: Entry<'a>, behind: u64, tally: &mut Tally<'a>) -> Result<(), AllocError>
    ensures { OnOk result (counts_of tally.new ≡ noted (counts_of tally.old) (spec.usage (entry_of used.entry) ∷ spec.plain spec.initialise ∷ spec.fetch (entry_of used.entry) ∷ spec.plain behind ∷ [])) }
{
    tally.usage(used)?;
    tally.plain(INITIALISE);
    tally.fetch(used)?;
    tally.plain(behind);
    Ok(())
}

/// An entry that is used between words.
fn named<'a>(
    before: u64,
    used: Entry<'a>,
    behind: u64,
    tally: &mut Tally<'a>,
) -> Result<(), AllocError>
    ensures { OnOk result (counts_of tally.new ≡ noted (counts_of tally.old) (spec.plain before ∷ spec.usage (entry_of used.entry) ∷ spec.plain behind ∷ [])) }
{
    tally.plain(before);
    tally.usage(used)?;
    tally.plain(behind);
    Ok(())
}

/// A call by class behind its target and arguments.
fn called_by_class<'a>(
    method: &'a MethodRef,
    count: usize,
    tally: &mut Tally<'a>,
) -> Result<(), AllocError>
    ensures { OnOk result (counts_of tally.new ≡ noted (counts_of tally.old) (spec.usage (entries.method_offset (method_ref_of method.now)) ∷ spec.plain (spec.load + spec.null_test + spec.method_lookup) ∷ spec.plain (spec.copy_with_target count) ∷ spec.plain spec.call ∷ [])) }
{
    tally.usage(Entry::method_offset(method))?;
    tally.plain(LOAD + NULL_TEST + METHOD_LOOKUP);
    tally.copy_with_target(count);
    tally.plain(CALL);
    Ok(())
}

/// A call by interface behind its target and arguments.
fn called_by_interface<'a>(
    method: &'a MethodRef,
    count: usize,
    tally: &mut Tally<'a>,
) -> Result<(), AllocError>
    ensures { OnOk result (counts_of tally.new ≡ noted (counts_of tally.old) (spec.usage (entries.interface_method (method_ref_of method.now)) ∷ spec.plain (spec.load + spec.null_test + spec.interface_lookup) ∷ spec.plain (spec.copy_with_target count) ∷ spec.plain spec.call ∷ [])) }
{
    tally.usage(Entry::interface_method(method))?;
    tally.plain(LOAD + NULL_TEST + INTERFACE_LOOKUP);
    tally.copy_with_target(count);
    tally.plain(CALL);
    Ok(())
}

/// A call on `this`, or of a constructor.
fn called_directly<'a>(
    method: &'a MethodRef,
    count: usize,
    behind: u64,
    tally: &mut Tally<'a>,
) -> Result<(), AllocError>
    ensures { OnOk result (counts_of tally.new ≡ noted (counts_of tally.old) (spec.usage (entries.special_method (method_ref_of method.now)) ∷ spec.plain (spec.copy_with_target count) ∷ spec.plain behind ∷ [])) }
{
    tally.usage(Entry::special_method(method))?;
    tally.copy_with_target(count);
    tally.plain(behind);
    Ok(())
}

/// A static call behind its arguments.
fn called_statically<'a>(
    method: &'a MethodRef,
    count: usize,
    tally: &mut Tally<'a>,
) -> Result<(), AllocError>
    ensures { OnOk result (counts_of tally.new ≡ noted (counts_of tally.old) (spec.usage (entries.static_method (method_ref_of method.now)) ∷ spec.plain spec.initialise ∷ spec.plain (spec.copy count) ∷ spec.fetch (entries.static_method (method_ref_of method.now)) ∷ spec.plain spec.call ∷ [])) }
{
    tally.usage(Entry::static_method(method))?;
    tally.plain(INITIALISE);
    tally.copy(count);
    tally.fetch(Entry::static_method(method))?;
    tally.plain(CALL);
    Ok(())
}

/// A cast behind its operand.
fn cast_to<'a>(ty: &'a Ty, tally: &mut Tally<'a>) -> Result<(), AllocError>
    ensures { OnOk result (counts_of tally.new ≡ noted (counts_of tally.old) (spec.plain (spec.save + spec.far_branch) ∷ spec.usage (entries.type_entry (ty_of ty.now)) ∷ spec.plain (spec.instance_test + (spec.branch + spec.fail) + spec.load) ∷ [])) }
{
    tally.plain(SAVE + FAR_BRANCH);
    tally.usage(Entry::of_type(ty))?;
    tally.plain(INSTANCE_TEST + BRANCH + FAIL + LOAD);
    Ok(())
}

/// An instance test behind its operand.
fn tested_for<'a>(ty: &'a Ty, tally: &mut Tally<'a>) -> Result<(), AllocError>
    ensures { OnOk result (counts_of tally.new ≡ noted (counts_of tally.old) (spec.plain (spec.save + spec.far_branch) ∷ spec.usage (entries.type_entry (ty_of ty.now)) ∷ spec.plain spec.instance_test ∷ [])) }
{
    tally.plain(SAVE + FAR_BRANCH);
    tally.usage(Entry::of_type(ty))?;
    tally.plain(INSTANCE_TEST);
    Ok(())
}

/// Counts arguments, each saved.
#[cycle(code)]
fn arguments<'a>(
    args: &'a [SymExpr],
    body: &Body<'a>,
    tally: &mut Tally<'a>,
) -> Result<(), AllocError>
    ensures { OnOk result (counts_of tally.new ≡ noted (counts_of tally.old) (spec.args_pieces (frame_of body.now) (exprs_of args.now))) }
{
    for argument in args {
        expression(argument, body, tally)?;
        tally.plain(SAVE);
    }
    Ok(())
}

/// Counts expressions, one behind the other.
#[cycle(code)]
pub fn expressions<'a>(
    all: &'a [SymExpr],
    body: &Body<'a>,
    tally: &mut Tally<'a>,
) -> Result<(), AllocError>
    ensures { OnOk result (counts_of tally.new ≡ noted (counts_of tally.old) (spec.exprs_pieces (frame_of body.now) (exprs_of all.now))) }
{
    for e in all {
        expression(e, body, tally)?;
    }
    Ok(())
}

/// Counts the making of an object.
#[cycle(code)]
fn made<'a>(
    args: &'a [SymExpr],
    method: &'a MethodRef,
    body: &Body<'a>,
    tally: &mut Tally<'a>,
) -> Result<(), AllocError>
    ensures { OnOk result (counts_of tally.new ≡ noted (counts_of tally.old) (spec.new_pieces (method_ref_of method.now) (length args.now) (spec.args_pieces (frame_of body.now) (exprs_of args.now)))) }
{
    initialised(Entry::of_new(&method.class), COMPUTE + SERVICE, tally)?;
    if is_object(&method.class) {
        return Ok(());
    }
    tally.plain(SAVE);
    arguments(args, body, tally)?;
    called_directly(method, args.len(), CALL + LOAD, tally)
}

/// Counts what an update reads.
#[cycle(code)]
fn read<'a>(
    place: &'a UpdatePlace,
    body: &Body<'a>,
    tally: &mut Tally<'a>,
) -> Result<(), AllocError>
    ensures { OnOk result (counts_of tally.new ≡ noted (counts_of tally.old) (spec.read_pieces (frame_of body.now) (place_of place.now))) }
{
    match place {
        UpdatePlace::Local(_) => {
            tally.plain(LOAD);
            Ok(())
        }
        UpdatePlace::Static(field) => initialised(Entry::field_address(field), LOAD, tally),
        UpdatePlace::Field(target, field) => {
            expression(target.get(), body, tally)?;
            named(
                SAVE,
                Entry::field_offset(field),
                LOAD + NULL_TEST + COMPUTE + LOAD,
                tally,
            )
        }
        UpdatePlace::Elem(array, index) => {
            expression(array.get(), body, tally)?;
            tally.plain(SAVE);
            expression(index.get(), body, tally)?;
            tally.plain(SAVE + COMPUTE + LOAD + ELEMENT_ADDRESS + LOAD);
            Ok(())
        }
    }
}

/// Counts what an update writes.
fn written<'a>(
    place: &'a UpdatePlace,
    body: &Body<'a>,
    tally: &mut Tally<'a>,
) -> Result<(), AllocError>
    ensures { OnOk result (counts_of tally.new ≡ noted (counts_of tally.old) (spec.write_pieces (frame_of body.now) (place_of place.now))) }
{
    match place {
        UpdatePlace::Local(_) => {
            tally.plain(STORE);
            Ok(())
        }
        UpdatePlace::Static(field) => {
            tally.fetch(Entry::field_address(field))?;
            tally.plain(STORE);
            Ok(())
        }
        UpdatePlace::Field(_, field) => {
            tally.fetch(Entry::field_offset(field))?;
            tally.plain(LOAD + COMPUTE + STORE);
            Ok(())
        }
        UpdatePlace::Elem(_, _) => {
            tally.plain(LOAD + COMPUTE + LOAD + COMPUTE + STORE);
            Ok(())
        }
    }
}

/// Counts a part and a word count behind it.
#[cycle(code)]
pub fn part<'a>(
    e: &'a SymExpr,
    behind: u64,
    body: &Body<'a>,
    tally: &mut Tally<'a>,
) -> Result<(), AllocError>
    ensures { OnOk result (counts_of tally.new ≡ noted (counts_of tally.old) (spec.expr_pieces (frame_of body.now) (expr_of e.now) ++ spec.plain behind ∷ [])) }
{
    expression(e, body, tally)?;
    tally.plain(behind);
    Ok(())
}

/// Counts the code of an expression.
#[cycle(code)]
pub fn expression<'a>(
    e: &'a SymExpr,
    body: &Body<'a>,
    tally: &mut Tally<'a>,
) -> Result<(), AllocError>
    ensures { OnOk result (counts_of tally.new ≡ noted (counts_of tally.old) (spec.expr_pieces (frame_of body.now) (expr_of e.now))) }
{
    match e {
        SymExpr::Int(_) => {
            tally.plain(ADDRESS);
            Ok(())
        }
        SymExpr::Bool(_) | SymExpr::Null => {
            tally.plain(COMPUTE);
            Ok(())
        }
        SymExpr::Local(_) => {
            tally.plain(LOAD);
            Ok(())
        }
        SymExpr::SetLocal(_, value) => part(value.get(), STORE, body, tally),
        SymExpr::GetStatic(field) => initialised(Entry::field_address(field), LOAD, tally),
        SymExpr::SetStatic(field, value) => {
            part(value.get(), SAVE, body, tally)?;
            initialised(Entry::field_address(field), LOAD + STORE, tally)
        }
        SymExpr::GetField(target, field) => {
            expression(target.get(), body, tally)?;
            named(
                SAVE,
                Entry::field_offset(field),
                LOAD + NULL_TEST + COMPUTE + LOAD,
                tally,
            )
        }
        SymExpr::SetField(target, field, value) => {
            part(target.get(), SAVE, body, tally)?;
            expression(value.get(), body, tally)?;
            let behind = LOAD + NULL_TEST + COMPUTE + LOAD + STORE;
            named(SAVE, Entry::field_offset(field), behind, tally)
        }
        SymExpr::GetElem(array, index) => {
            part(array.get(), SAVE, body, tally)?;
            let behind = COMPUTE + LOAD + ELEMENT_ADDRESS + LOAD;
            part(index.get(), behind, body, tally)
        }
        SymExpr::SetElem(array, index, value) => {
            part(array.get(), SAVE, body, tally)?;
            part(index.get(), SAVE, body, tally)?;
            part(
                value.get(),
                SAVE + LOAD + LOAD + ELEMENT_ADDRESS,
                body,
                tally,
            )?;
            tally.plain(store_check(array.get(), body));
            tally.plain(LOAD + STORE);
            Ok(())
        }
        SymExpr::Length(array) => part(array.get(), NULL_TEST + LOAD, body, tally),
        SymExpr::Update {
            place,
            op,
            value,
            post,
        } => {
            read(place, body, tally)?;
            tally.plain(SAVE);
            part(value.get(), operation(*op), body, tally)?;
            written(place, body, tally)?;
            tally.plain(old_value(*post));
            Ok(())
        }
        SymExpr::Unary(_, operand) => part(operand.get(), COMPUTE, body, tally),
        SymExpr::Binary(op, first, second) => {
            part(first.get(), SAVE, body, tally)?;
            part(second.get(), operation(*op), body, tally)
        }
        SymExpr::And(first, second) | SymExpr::Or(first, second) => {
            part(first.get(), FAR_BRANCH, body, tally)?;
            expression(second.get(), body, tally)
        }
        SymExpr::Cond(test, first, second) => {
            part(test.get(), FAR_BRANCH, body, tally)?;
            part(first.get(), JUMP, body, tally)?;
            expression(second.get(), body, tally)
        }
        SymExpr::New(method, args) => made(args.as_slice(), method, body, tally),
        SymExpr::NewArray(ty, length) => {
            expression(length.get(), body, tally)?;
            named(SAVE, Entry::of_type(ty), LOAD + COMPUTE + SERVICE, tally)
        }
        SymExpr::CallStatic(method, args) => {
            arguments(args.as_slice(), body, tally)?;
            called_statically(method, args.len(), tally)
        }
        SymExpr::CallVirtual(target, method, args) => {
            part(target.get(), SAVE, body, tally)?;
            arguments(args.as_slice(), body, tally)?;
            called_by_class(method, args.len(), tally)
        }
        SymExpr::CallInterface(target, method, args) => {
            part(target.get(), SAVE, body, tally)?;
            arguments(args.as_slice(), body, tally)?;
            called_by_interface(method, args.len(), tally)
        }
        SymExpr::CallSpecial(method, args) => {
            tally.plain(LOAD + SAVE);
            arguments(args.as_slice(), body, tally)?;
            called_directly(method, args.len(), CALL, tally)
        }
        SymExpr::Cast(ty, operand) => {
            expression(operand.get(), body, tally)?;
            cast_to(ty, tally)
        }
        SymExpr::Widen(_, operand) => expression(operand.get(), body, tally),
        SymExpr::InstanceOf(operand, ty) => {
            expression(operand.get(), body, tally)?;
            tested_for(ty, tally)
        }
        SymExpr::Then {
            first,
            null_test,
            second,
        } => {
            part(first.get(), tested(*null_test), body, tally)?;
            expression(second.get(), body, tally)
        }
        SymExpr::Print(_, args) => {
            expressions(args.as_slice(), body, tally)?;
            tally.plain(SERVICE);
            Ok(())
        }
    }
}
