//! The first number of a symbolic unit that passes its limit.
#![tactic(auto, using(crate::proofs::Rules::limit_rules))]

ghost use Rattle.std.specs.Prelude.{◌≡◌, ◌∷◌, map, option_map, IfOk};
ghost use Rattle.bcj_parser_trees.specs.Plain as tree;
ghost use Rattle.bcj_symbolic_trees.specs.Units.{class_of, plain_of};
ghost use Rattle.bcj_typing.specs.Limits as spec;
ghost use Rattle.bcj_typing.specs.Passed.{past_of, size_past, sizes_past};

use crate::places::body_places;
use crate::stop::Limited;
use bcj_parser_trees::{TypeDecl, Unit};
use bcj_symbolic_measure::{BodySize, body_sizes, measure};
use bcj_symbolic_trees::{SymClass, SymUnit};
use std::alloc::{AllocError, Global};

/// The words of a frame.
const FRAME_LIMIT: u32 = 508;

/// The words of a method's code.
const METHOD_LIMIT: u32 = 200_000;

/// The bytes of an object.
const OBJECT_LIMIT: u64 = 4_194_304;

/// A number past its limit, with its place.
#[derive(Clone, Copy)]
pub struct Past {
    pub what: Limited,
    pub at: u32,
}

fn size_past(at: u32, size: BodySize) -> Option<Past>
    ensures { option_map past_of result ≡ size_past at size }
{
    if size.frame > FRAME_LIMIT {
        return Some(Past {
            what: Limited::Frame,
            at,
        });
    }
    if size.words > METHOD_LIMIT {
        return Some(Past {
            what: Limited::Method,
            at,
        });
    }
    None
}

/// The first of these sizes, each with its place.
fn sizes_past(places: &[u32], sizes: &[BodySize]) -> Option<Past>
    ensures { option_map past_of result ≡ sizes_past places.now sizes.now }
{
    for index in 0..places.len() {
        if index >= sizes.len() {
            return None;
        }
        let past = size_past(places[index], sizes[index]);
        if past.is_some() {
            return past;
        }
    }
    None
}

/// The first of a class.
fn class_past(alloc: Global, decl: &TypeDecl, class: &SymClass) -> Result<Option<Past>, AllocError>
    ensures { IfOk result (λ o. option_map past_of o ≡ spec.class_past (tree.type_of decl.now) (class_of class.now)) }
{
    let places = body_places(alloc, decl)?;
    let sizes = body_sizes(alloc, class)?;
    Ok(sizes_past(places.as_slice(), sizes.as_slice()))
}

/// The first of classes, each with its text.
fn classes_past(
    alloc: Global,
    decls: &[TypeDecl],
    classes: &[SymClass],
) -> Result<Option<Past>, AllocError>
    ensures { IfOk result (λ o. option_map past_of o ≡ spec.classes_past (map tree.type_of decls.now) (map class_of classes.now)) }
{
    for index in 0..decls.len() {
        if index >= classes.len() {
            return Ok(None);
        }
        let past = class_past(alloc, &decls[index], &classes[index])?;
        if past.is_some() {
            return Ok(past);
        }
    }
    Ok(None)
}

fn object_place(decls: &[TypeDecl]) -> u32
    ensures { result ≡ spec.object_place (map tree.type_of decls.now) }
{
    match decls.first() {
        None => 0,
        Some(decl) => decl.at,
    }
}

fn object_past(
    alloc: Global,
    decls: &[TypeDecl],
    unit: &SymUnit,
) -> Result<Option<Past>, AllocError>
    ensures { IfOk result (λ o. option_map past_of o ≡ spec.object_past (map tree.type_of decls.now) (plain_of unit.now)) }
{
    let measured = measure(alloc, unit)?;
    if measured.object > OBJECT_LIMIT {
        return Ok(Some(Past {
            what: Limited::Object,
            at: object_place(decls),
        }));
    }
    Ok(None)
}

/// The first number of a symbolic unit that passes its limit, each body with the place of its text.
pub fn first_past(alloc: Global, text: &Unit, unit: &SymUnit) -> Result<Option<Past>, AllocError>
    ensures { IfOk result (λ o. option_map past_of o ≡ spec.first_past (tree.unit_of text.now) (plain_of unit.now)) }
{
    let past = classes_past(alloc, text.types.as_slice(), unit.classes.as_slice())?;
    if past.is_some() {
        return Ok(past);
    }
    object_past(alloc, text.types.as_slice(), unit)
}
