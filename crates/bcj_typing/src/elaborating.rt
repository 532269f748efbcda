//! The symbolic unit of a source unit.
#![tactic(auto, using(crate::proofs::Rules::limit_rules))]

ghost use Rattle.std.specs.Prelude.{◌≡◌, ◌∷◌, ◌++◌, [], Some, map, slice_get, IfOk};
ghost use Rattle.std.specs.Result.{IfErr};
ghost use Rattle.bcj_parser_trees.specs.Plain.{type_of, unit_of};
ghost use Rattle.bcj_symbolic_trees.specs.Units.{class_of, plain_of};
ghost use Rattle.bcj_symbolic_check.specs.Typing.{Each, WellTyped};
ghost use Rattle.bcj_decl_rules.specs.Faults.{IsDeclared};
ghost use Rattle.bcj_decl.specs.Worlds.{units_in};
ghost use Rattle.bcj_typing_answers.specs.Answers.{answers_of};
ghost use Rattle.bcj_typing_rules.specs.function.Members.{type_class, type_types, type_unit};
ghost use Rattle.bcj_typing_soundness.specs.Laws.{IsDerived};
ghost use Rattle.bcj_typing_node.specs.Outcomes.{Tells};
ghost use Rattle.bcj_typing_scope.specs.Surroundings.{IsOfUnit};
ghost use Rattle.bcj_typing_member.specs.Gathered.{outcome_map};
ghost use Rattle.bcj_typing.specs.Answers.{HaveNoConstructor, IsCause, IsExact};
ghost use Rattle.bcj_typing.specs.Limits.{IsWithin};
ghost use Rattle.bcj_typing.specs.Passed.{Comes, IsLimited, stop_of};

use crate::limits::{Past, first_past};
use crate::stop::TypeStop;
use bcj_decl::Decls;
use bcj_parser_trees::{TypeDecl, Unit};
use bcj_symbolic_trees::{Sequence, SymClass, SymClasses, SymUnit};
use bcj_typing_member::class;
use bcj_typing_node::Miss;
use bcj_typing_scope::World;
use std::alloc::Global;

/// The class of a type of the unit.
fn class_of<'a>(alloc: Global, decls: &'a Decls<'a>, decl: &'a TypeDecl) -> Result<SymClass, Miss>
    requires declared { IsDeclared (units_in decls.now) }
    requires own { IsOfUnit (units_in decls.now) decls.now.own (type_of decl.now) }
    ensures { Tells class_of (type_class (answers_of (units_in decls.entry.now)) (units_in decls.entry.now) (type_of decl.entry.now)) result }
{
    let world = World::new(decls, decl);
    class(alloc, &world)
}

/// Puts the class of a type of the unit behind others.
fn with_class<'a>(
    alloc: Global,
    decls: &'a Decls<'a>,
    decl: &'a TypeDecl,
    classes: SymClasses,
) -> Result<SymClasses, Miss>
    requires declared { IsDeclared (units_in decls.now) }
    requires own { IsOfUnit (units_in decls.now) decls.now.own (type_of decl.now) }
    ensures { Tells (map class_of) (outcome_map (λ c. map class_of classes ++ c ∷ [])
        (type_class (answers_of (units_in decls.entry.now)) (units_in decls.entry.now) (type_of decl.entry.now))) result }
{
    let class = class_of(alloc, decls, decl)?;
    let mut classes = classes;
    classes.push(class)?;
    Ok(classes)
}

/// The classes of the types of the unit.
fn classes_of<'a>(
    alloc: Global,
    decls: &'a Decls<'a>,
    each: &'a [TypeDecl],
) -> Result<SymClasses, Miss>
    requires declared { IsDeclared (units_in decls.now) }
    requires own { slice_get (units_in decls.now) decls.now.own ≡ Some (map type_of each.now) }
    ensures { Tells (map class_of) (type_types (answers_of (units_in decls.entry.now)) (units_in decls.entry.now) (map type_of each.entry.now)) result }
{
    let mut classes = Sequence::new(alloc);
    for decl in each {
        classes = with_class(alloc, decls, decl, classes)?;
    }
    Ok(classes)
}

/// The symbolic unit, whatever its numbers.
fn typed<'a>(alloc: Global, decls: &'a Decls<'a>, unit: &'a Unit) -> Result<SymUnit, Miss>
    requires declared { IsDeclared (units_in decls.now) }
    requires own { slice_get (units_in decls.now) decls.now.own ≡ Some (unit_of unit.now) }
    ensures { Tells plain_of (type_unit (answers_of (units_in decls.entry.now)) (units_in decls.entry.now) decls.entry.now.own) result }
{
    let classes = classes_of(alloc, decls, unit.types.as_slice())?;
    Ok(SymUnit { classes })
}

fn stop_of(miss: Miss) -> TypeStop
    ensures { result ≡ stop_of miss }
{
    match miss {
        Miss::Untyped { at, kind } => TypeStop::Untyped { at, kind },
        Miss::NoMemory => TypeStop::NoMemory,
    }
}

/// The unit, where no number of it passes its limit.
fn within(alloc: Global, text: &Unit, unit: SymUnit) -> Result<SymUnit, TypeStop>
    ensures { IsLimited (unit_of text.now) (plain_of unit) result }
{
    match first_past(alloc, text, &unit)? {
        Some(Past { what, at }) => Err(TypeStop::TooLarge { what, at }),
        None => Ok(unit),
    }
}

fn answered<'a>(alloc: Global, decls: &'a Decls<'a>, unit: &'a Unit) -> Result<SymUnit, TypeStop>
    requires declared { IsDeclared (units_in decls.now) }
    requires own { slice_get (units_in decls.now) decls.now.own ≡ Some (unit_of unit.now) }
    ensures { Comes (unit_of unit.entry.now) (type_unit (answers_of (units_in decls.entry.now)) (units_in decls.entry.now) decls.entry.now.own) result }
{
    match typed(alloc, decls, unit) {
        Err(miss) => Err(stop_of(miss)),
        Ok(symbolic) => within(alloc, unit, symbolic),
    }
}

/// The symbolic unit of the unit of a declared world that is to be typed (JLS 13.1, 15.12, 15.28), or why there is none: the first
/// node at fault, or the first number past its limit. Where the grammar derives each unit, the symbolic unit is well typed.
pub fn elaborate<'a>(
    alloc: Global,
    decls: &'a Decls<'a>,
    unit: &'a Unit,
) -> Result<SymUnit, TypeStop>
    requires own { slice_get (units_in decls.now) decls.now.own ≡ Some (unit_of unit.now) }
    requires constructors { HaveNoConstructor (unit_of unit.now) }
    ensures ok { IfOk result (λ u. IsWithin (units_in decls.entry.now) decls.entry.now.own (plain_of u)) }
    ensures well_typed { Each IsDerived (units_in decls.entry.now) → IfOk result (λ u. WellTyped (plain_of u)) }
    ensures cause { IfErr result (IsCause (units_in decls.entry.now) decls.entry.now.own) }
    ensures exact { IsExact (units_in decls.entry.now) decls.entry.now.own result }
{
    decls.is_declared();
    answered(alloc, decls, unit)
}
