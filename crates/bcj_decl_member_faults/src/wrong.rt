ghost use Rattle.std.specs.Prelude.{◌≡◌, ◌||◌, true, length, ℕ, List, IfOk};
ghost use Rattle.std.specs.Bool.{Decides};
ghost use Rattle.bcj_parser_trees.specs.Plain.{body_of, member_of, option_of, type_of};
ghost use Rattle.bcj_decl_rules.specs.World.{declared_type, method_with};
ghost use Rattle.bcj_decl_table.specs.Views.{world_in};
ghost use Rattle.bcj_decl_listing.specs.Places.{steps_from, steps_of_world};
ghost use Rattle.bcj_decl_graph.specs.Reached.{AreBelow};
ghost use Rattle.bcj_decl_member_faults.specs.Decisions as decide;

use crate::inherited::clashes;
use crate::method::method_info;
use crate::modifier::{has_wrong_body, has_wrong_modifier, is_absent, is_restricted};
use crate::twice::has_parameter_twice;
use bcj_decl_graph::{Places, Search, Steps};
use bcj_decl_listing::Listing;
use bcj_names::Name;
use bcj_parser_trees::{Expr, Member, Mods, Param, Stmt, TypeDecl, TypeName};
use sqlite_items::Items;
use std::alloc::{AllocError, Global};

fn is_wrong_field(interface: bool, mods: Mods, init: &Option<Expr>) -> bool
    ensures { result ≡ decide.is_wrong_field interface mods (option_of init.now) }
{
    (mods.is_abstract || (interface && is_restricted(mods))) || (interface && is_absent(init))
}

fn is_wrong_constructor(
    alloc: Global,
    class: &Name,
    mods: Mods,
    name: &Name,
    params: &[Param],
) -> Result<bool, AllocError>
    ensures { IfOk result (λ b. b ≡ decide.is_wrong_constructor class.now mods name.now params.now) }
{
    if mods.is_static || mods.is_abstract {
        return Ok(true);
    }
    if !name.same(class) {
        return Ok(true);
    }
    has_parameter_twice(alloc, params)
}

fn is_wrong_in_itself(
    alloc: Global,
    decl: &TypeDecl,
    mods: Mods,
    params: &[Param],
    body: &Option<Items<Stmt>>,
) -> Result<bool, AllocError>
    ensures { IfOk result (λ b. b ≡ decide.is_wrong_method decl.now.interface decl.now.is_abstract mods params.now (body_of body.now) (decl.now.interface || mods.is_abstract)) }
{
    let twice = has_parameter_twice(alloc, params)?;
    let lacks_code = decl.interface || mods.is_abstract;
    Ok(
        twice
            || (has_wrong_body(lacks_code, body)
                || has_wrong_modifier(decl.interface, decl.is_abstract, mods)),
    )
}

/// Whether a method is wrong in itself or at odds with one that passes to its type (JLS 8.4).
fn is_wrong_method(
    alloc: Global,
    listing: &Listing,
    steps: &Steps,
    search: &mut Search,
    above: &Places,
    decl: &TypeDecl,
    mods: Mods,
    outcome: &TypeName,
    name: &Name,
    params: &[Param],
    body: &Option<Items<Stmt>>,
) -> Result<bool, AllocError>
    requires steps { steps.now ≡ steps_of_world (world_in listing.now.types) }
    requires above { above.now ≡ steps_from (world_in listing.now.types) (declared_type (type_of decl.now)) }
    ensures { IfOk result (λ b. Decides b (decide.IsWrongMethod (world_in listing.now.types) (type_of decl.now) mods params.now (body_of body.now) (method_with decl.now.interface decl.now.name mods outcome.now name.now params.now))) }
{
    if is_wrong_in_itself(alloc, decl, mods, params, body)? {
        return Ok(true);
    }
    let method = method_info(
        alloc,
        decl.interface,
        &decl.name,
        mods,
        outcome,
        name,
        params,
    )?;
    clashes(listing, steps, search, above, &method)
}

/// Whether a member is wrong, whatever stands before it (JLS 8.3, 8.4, 8.8, 9.3, 9.4).
pub fn is_wrong(
    alloc: Global,
    listing: &Listing,
    steps: &Steps,
    search: &mut Search,
    above: &Places,
    decl: &TypeDecl,
    member: &Member,
) -> Result<bool, AllocError>
    requires steps { steps.now ≡ steps_of_world (world_in listing.now.types) }
    requires above { above.now ≡ steps_from (world_in listing.now.types) (declared_type (type_of decl.now)) }
    ensures { IfOk result (λ b. Decides b (decide.IsWrong (world_in listing.now.types) (type_of decl.now) (member_of member.now))) }
{
    match member {
        Member::Field { mods, init, .. } => Ok(is_wrong_field(decl.interface, *mods, init)),
        Member::Method {
            mods,
            result: outcome,
            name,
            params,
            body,
            ..
        } => is_wrong_method(
            alloc,
            listing,
            steps,
            search,
            above,
            decl,
            *mods,
            outcome,
            name,
            params.as_slice(),
            body,
        ),
        Member::Constructor {
            mods,
            name,
            params,
            ..
        } => is_wrong_constructor(alloc, &decl.name, *mods, name, params.as_slice()),
        Member::Static { .. } => Ok(false),
    }
}
