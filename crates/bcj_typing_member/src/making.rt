//! The constructors and methods of a class, with the steps of its bodies (JLS 8.8, 12.5).
#![tactic(auto, using(crate::proofs::Rules::member_rules))]

ghost use Rattle.std.specs.Prelude.{◌≡◌, [], ◌∷◌, map, option_map, IfOk};
ghost use Rattle.bcj_parser_trees.specs.Plain as source;
ghost use Rattle.bcj_symbolic_trees.specs.Types.{types_of};
ghost use Rattle.bcj_decl_rules.specs.Faults.{IsDeclared};
ghost use Rattle.bcj_typing_rules.specs.Members as spec;
ghost use Rattle.bcj_typing_rules.specs.function.Expressions.{result as found};
ghost use Rattle.bcj_typing_rules.specs.function.Members as function;
ghost use Rattle.bcj_typing_node.specs.Outcomes.{Tells};
ghost use Rattle.bcj_typing_scope.specs.Surroundings.{IsOfUnit, answers_at, units_at};
ghost use Rattle.bcj_typing_member.specs.Gathered as gathered;
ghost use Rattle.bcj_typing_member.specs.Initialised.{AreInitialisers};
ghost use Rattle.bcj_typing_member.specs.Typed.{added_of, constructor_of, effects_of, making_of, made_of};

use crate::adding::both;
use crate::initial::initialisers_for;
use crate::params::first_types;
use crate::typed::{Added, Body, Constructor, Made, Making};
use bcj_names::Name;
use bcj_symbolic_trees::{CONSTRUCTOR, MethodKind, Sequence, SymMethod, Ty};
use bcj_typing_node::{Miss, append};
use bcj_typing_scope::World;
use sqlite_items::Items;
use std::alloc::{AllocError, Global};

/// A constructor with the initialisers of objects behind its first call (JLS 12.5).
fn constructor_made(
    alloc: Global,
    constructor: Constructor,
    initialisers: Added,
) -> Result<Made, AllocError>
    ensures { IfOk result (λ m. made_of m ≡
        spec.constructor_made [] (types_of constructor.params) constructor.is_private (types_of constructor.body.types) (added_of constructor.first) (added_of initialisers)
        (effects_of constructor.body)) }
{
    let Constructor {
        is_private,
        params,
        first,
        to_super: _,
        body,
    } = constructor;
    let Body {
        locals: _,
        types,
        trees,
        steps,
    } = body;
    let behind = both(initialisers, Added { trees, steps })?;
    let Added { trees, steps } = both(first, behind)?;
    let name = Name::from_str(alloc, CONSTRUCTOR)?;
    Ok(Made {
        method: SymMethod {
            name,
            params,
            result: Ty::Void,
            kind: MethodKind::Constructor,
            is_private,
            locals: types,
            body: trees,
        },
        steps,
    })
}

fn with_made(making: Making, made: Made) -> Result<Making, AllocError>
    ensures { IfOk result (λ m. making_of m ≡ gathered.with_made (making_of making) (made_of made)) }
{
    let Making { methods, steps } = making;
    let Made {
        method,
        steps: behind,
    } = made;
    let mut methods = methods;
    methods.push(method)?;
    let steps = append(steps, behind)?;
    Ok(Making { methods, steps })
}

fn with_constructor<'a>(
    alloc: Global,
    world: &'a World<'a>,
    constructor: Constructor,
    ready: &mut Option<Added>,
    making: Making,
) -> Result<Making, Miss>
    requires declared { IsDeclared (units_at world.now) }
    requires own { IsOfUnit (units_at world.now) world.now.own (source.type_of world.now.decl) }
    requires ready { AreInitialisers world.now ready.old }
    ensures making { (i : spec.Added) → function.type_initialisers (answers_at world.now) (units_at world.now) (source.type_of world.now.decl) (map source.member_of world.now.decl.members) ≡ found i
        → Tells making_of (found (gathered.with_mades (making_of making) (gathered.constructors_with world.now.decl.name i (constructor_of constructor ∷ [])))) result }
    ensures ready { AreInitialisers world.now ready.new }
{
    let initialisers = initialisers_for(alloc, world, constructor.to_super, ready)?;
    let made = constructor_made(alloc, constructor, initialisers)?;
    Ok(with_made(making, made)?)
}

/// Puts constructors behind the methods, each with the initialisers of objects that it runs.
pub fn with_constructors<'a>(
    alloc: Global,
    world: &'a World<'a>,
    constructors: Sequence<Constructor>,
    instances: Added,
    making: Making,
) -> Result<Making, Miss>
    requires declared { IsDeclared (units_at world.now) }
    requires own { IsOfUnit (units_at world.now) world.now.own (source.type_of world.now.decl) }
    requires instances { function.type_initialisers (answers_at world.now) (units_at world.now) (source.type_of world.now.decl) (map source.member_of world.now.decl.members) ≡ found (added_of instances) }
    ensures { Tells making_of (found (gathered.with_mades (making_of making) (gathered.constructors_with world.now.decl.name (added_of instances) (map constructor_of constructors)))) result }
{
    let mut ready = Some(instances);
    let mut making = making;
    for constructor in constructors.into_vec() {
        making = with_constructor(alloc, world, constructor, &mut ready, making)?;
    }
    Ok(making)
}

/// Puts methods behind the others.
pub fn with_methods(methods: Sequence<Made>, making: Making) -> Result<Making, AllocError>
    ensures { IfOk result (λ m. making_of m ≡ gathered.with_mades (making_of making) (map made_of methods)) }
{
    let mut making = making;
    for method in methods.into_vec() {
        making = with_made(making, method)?;
    }
    Ok(making)
}

/// The constructor of a class that writes none (JLS 8.8.9).
fn default_constructor(alloc: Global, class: &Name, first: Added) -> Result<Constructor, AllocError>
    ensures { IfOk result (λ c. constructor_of c ≡ gathered.default_constructor class.now (added_of first)) }
{
    let types = first_types(alloc, class, false, &[])?;
    Ok(Constructor {
        is_private: false,
        params: Sequence::new(alloc),
        first,
        to_super: true,
        body: Body {
            locals: Sequence::new(alloc),
            types,
            trees: Items::new(alloc),
            steps: Sequence::new(alloc),
        },
    })
}

/// The constructors of a class, with the one that it has where it writes none.
pub fn or_default(
    alloc: Global,
    class: &Name,
    default: Option<Added>,
    constructors: Sequence<Constructor>,
) -> Result<Sequence<Constructor>, AllocError>
    ensures { IfOk result (λ cs. map constructor_of cs ≡ gathered.or_default class.now (option_map added_of default) (map constructor_of constructors)) }
{
    match default {
        None => Ok(constructors),
        Some(first) => {
            let mut all = Vec::new(alloc);
            all.push(default_constructor(alloc, class, first)?)?;
            let mut rest = constructors.into_vec();
            all.append(&mut rest)?;
            Ok(Sequence::of(all))
        }
    }
}
