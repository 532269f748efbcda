//! The words of rows and of dispatch rows.

ghost use Rattle.std.specs.Prelude.{◌≡◌, ◌+◌, ◌++◌, map, IfOk, OnOk};
ghost use Rattle.std.specs.List.{All};
ghost use Rattle.bcj_symbolic_trees.specs.Types.{class_type};
ghost use Rattle.bcj_hier_rules.specs.Heads.{IsIn, name_of};
ghost use Rattle.bcj_hier_rules.specs.Loading.{is_interface};
ghost use Rattle.bcj_layout_rules.specs.Rows as spec;
ghost use Rattle.bcj_layout_rules.specs.Places as places;
ghost use Rattle.bcj_layout_resolution.specs.Places.{heads_in};
ghost use Rattle.bcj_layout_rows.specs.Found.{selectors_in, IsLoading};
ghost use Rattle.bcj_layout_places.specs.Parts.{class_row};

use crate::adding::plus;
use crate::part::Words;
use bcj_hier_rules::ClassId;
use bcj_layout_members::Members;
use bcj_layout_resolution::Resolver;
use bcj_layout_rows::Selectors;
use bcj_symbolic_trees::{Sequence, Ty};
use std::alloc::{AllocError, Global};

/// The words of a row before its slots.
const ROW_HEAD: u32 = 4;

#[tactic(auto, using(crate::proofs::Interfaces::interface_by_record))]
fn is_interface(resolver: &Resolver, class: ClassId) -> bool
    requires there { IsIn (heads_in resolver.now) class }
    ensures { result ≡ is_interface (spec.mixture_of resolver.now) (name_of (heads_in resolver.now) class) }
{
    let _facts = resolver.hier().len();
    match resolver.records().classes.get(class.0 as usize) {
        None => false,
        Some(record) => record.head.interface,
    }
}

/// The words of a class's own dispatch row.
fn dispatch_words(
    resolver: &Resolver,
    selectors: &Selectors<'_>,
    class: ClassId,
) -> Result<u32, AllocError>
    requires these { selectors_in selectors.now ≡ spec.selectors resolver.now }
    requires loaded { IsLoading resolver.now class }
    ensures { IfOk result (λ n. n ≡ places.dispatch_words resolver.now (name_of (heads_in resolver.now) class)) }
{
    if is_interface(resolver, class) {
        return Ok(0);
    }
    match selectors.highest(resolver, class) {
        0 => Ok(0),
        highest => plus(highest, 1),
    }
}

/// The words of the own dispatch row of each of these types.
pub fn dispatch_sizes(
    alloc: Global,
    resolver: &Resolver,
    selectors: &Selectors<'_>,
    classes: &[ClassId],
) -> Result<Words, AllocError>
    requires these { selectors_in selectors.now ≡ spec.selectors resolver.now }
    requires loaded { All (IsLoading resolver.now) classes.now }
    ensures { IfOk result (λ sizes. sizes ≡ map (places.dispatch_words resolver.now) (map (name_of (heads_in resolver.now)) classes.now)) }
{
    let mut sizes = Sequence::new(alloc);
    for class in classes {
        sizes.push(dispatch_words(resolver, selectors, *class)?)?;
    }
    Ok(sizes)
}

/// The words of the row of a type that loads.
fn row_words(members: &Members<'_>, class: ClassId) -> Result<u32, AllocError>
    requires loaded { IsLoading members.now class }
    ensures { IfOk result (λ n. n ≡ class_row members.now (name_of (heads_in members.now) class)) }
{
    plus(ROW_HEAD, members.slot_count(class))
}

/// The words of the rows of these types.
fn class_row_sizes(
    alloc: Global,
    members: &Members<'_>,
    classes: &[ClassId],
) -> Result<Words, AllocError>
    requires loaded { All (IsLoading members.now) classes.now }
    ensures { IfOk result (λ sizes. sizes ≡ map (class_row members.now) (map (name_of (heads_in members.now)) classes.now)) }
{
    let mut sizes = Sequence::new(alloc);
    for class in classes {
        sizes.push(row_words(members, *class)?)?;
    }
    Ok(sizes)
}

/// Puts those of arrays behind them, which have no slots.
fn push_array_rows(arrays: &[Ty], sizes: &mut Words) -> Result<(), AllocError>
    ensures { OnOk result (sizes.new ≡ sizes.old ++ map (λ _. places.row_head) arrays.now) }
{
    for _array in arrays {
        sizes.push(ROW_HEAD)?;
    }
    Ok(())
}

/// The words of the rows of these types and of arrays.
pub fn row_sizes(
    alloc: Global,
    members: &Members<'_>,
    classes: &[ClassId],
    arrays: &[Ty],
) -> Result<Words, AllocError>
    requires loaded { All (IsLoading members.now) classes.now }
    ensures { IfOk result (λ sizes. sizes ≡ map (class_row members.now) (map (name_of (heads_in members.now)) classes.now) ++ map (λ _. places.row_head) arrays.now) }
{
    let mut sizes = class_row_sizes(alloc, members, classes)?;
    push_array_rows(arrays, &mut sizes)?;
    Ok(sizes)
}
