#![tactic(auto, using(crate::proofs::Rules::known_rules))]

ghost use Rattle.std.specs.Prelude.{◌≡◌, ◌++◌, not};
ghost use Rattle.std.specs.List.{flat_map};
ghost use Rattle.std.specs.Option.{option_copied};
ghost use Rattle.bcj_parser_trees.specs.Plain as tree;
ghost use Rattle.bcj_decl_rules.specs.World.{has_type};
ghost use Rattle.bcj_decl_rules.specs.Faults.{first_unknown, class_names, names_in};
ghost use Rattle.bcj_decl_table.specs.Views.{world_in};

use bcj_decl_listing::Listing;
use bcj_names::Name;
use bcj_parser_trees::{Base, Member, Param, TypeName};

fn is_unknown(listing: &Listing, name: &Name) -> bool
    ensures { result ≡ not (has_type (world_in listing.now.types) name.now) }
{
    listing.place(name).is_none()
}

fn unknown_among<'a>(listing: &Listing, names: &'a [Name]) -> Option<&'a Name>
    ensures { option_copied result ≡ first_unknown (world_in listing.now.types) names.now }
{
    for name in names {
        if is_unknown(listing, name) {
            return Some(name);
        }
    }
    None
}

fn unknown_in_type<'a>(listing: &Listing, ty: &'a TypeName) -> Option<&'a Name>
    ensures { option_copied result ≡ first_unknown (world_in listing.now.types) (class_names ty.now) }
{
    match &ty.base {
        Base::Int | Base::Bool | Base::Void => None,
        Base::Named(name) => {
            if is_unknown(listing, name) {
                Some(name)
            } else {
                None
            }
        }
    }
}

fn unknown_in_params<'a>(listing: &Listing, params: &'a [Param]) -> Option<&'a Name>
    ensures { option_copied result ≡ first_unknown (world_in listing.now.types) (flat_map (λ p. class_names p.ty) params.now) }
{
    for param in params {
        if let Some(name) = unknown_in_type(listing, &param.ty) {
            return Some(name);
        }
    }
    None
}

fn unknown_in_signature<'a>(
    listing: &Listing,
    params: &'a [Param],
    throws: &'a [Name],
) -> Option<&'a Name>
    ensures { option_copied result ≡ first_unknown (world_in listing.now.types) (flat_map (λ p. class_names p.ty) params.now ++ throws.now) }
{
    match unknown_in_params(listing, params) {
        Some(name) => Some(name),
        None => unknown_among(listing, throws),
    }
}

/// The first type name of a member that is that of no type, in text order. It takes no memory.
pub fn first_unknown<'a>(listing: &Listing, member: &'a Member) -> Option<&'a Name>
    ensures { option_copied result ≡ first_unknown (world_in listing.now.types) (names_in (tree.member_of member.now)) }
{
    match member {
        Member::Field { ty, .. } => unknown_in_type(listing, ty),
        Member::Method {
            result: outcome,
            params,
            throws,
            ..
        } => match unknown_in_type(listing, outcome) {
            Some(name) => Some(name),
            None => unknown_in_signature(listing, params.as_slice(), throws.as_slice()),
        },
        Member::Constructor { params, throws, .. } => {
            unknown_in_signature(listing, params.as_slice(), throws.as_slice())
        }
        Member::Static { .. } => None,
    }
}
