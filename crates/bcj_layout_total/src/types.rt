ghost use Rattle.std.specs.Prelude.{◌≡◌, ◌+◌, ◌*◌, ℕ, None, length, map, sum, zero, suc, IfOk};
ghost use Rattle.std.specs.List.{All};
ghost use Rattle.bcj_symbolic_measure.specs.Totals.{capped};
ghost use Rattle.bcj_hier_rules.specs.Heads.{IsIn, name_of};
ghost use Rattle.bcj_hier_rules.specs.Loading.{load_error, is_interface};
ghost use Rattle.bcj_layout_rules.specs.Rows as spec;
ghost use Rattle.bcj_layout_rules.specs.Places.{dispatch_words};
ghost use Rattle.bcj_layout_resolution.specs.Places.{heads_in};
ghost use Rattle.bcj_layout_rows.specs.Found.{selectors_in, IsLoading};
ghost use Rattle.bcj_layout_total.specs.function.Sizes as size;

use crate::adding::add;
use bcj_hier_rules::ClassId;
use bcj_layout_members::Members;
use bcj_layout_resolution::Resolver;
use bcj_layout_rows::Selectors;

/// The words of a row before its slots.
const ROW_HEAD: u64 = 4;

#[tactic(auto, using(crate::proofs::Interfaces::interface_by_record))]
fn is_interface(resolver: &Resolver, class: ClassId) -> bool
    requires there { IsIn (heads_in resolver.now) class }
    ensures { result ≡ is_interface (spec.mixture_of resolver.now) (name_of (heads_in resolver.now) class) }
{
    let _facts = resolver.hier().len();
    match resolver.records().classes.get(class.0 as usize) {
        None => false,
        Some(record) => record.head.interface,
    }
}

/// The words of a class's own dispatch row.
fn dispatch_words(resolver: &Resolver, selectors: &Selectors<'_>, class: ClassId) -> u64
    requires these { selectors_in selectors.now ≡ spec.selectors resolver.now }
    requires loaded { IsLoading resolver.now class }
    ensures { result ≡ dispatch_words resolver.now (name_of (heads_in resolver.now) class) }
{
    if is_interface(resolver, class) {
        return 0;
    }
    match selectors.highest(resolver, class) {
        0 => 0,
        highest => highest as u64 + 1,
    }
}

/// With the row and the dispatch row of a type.
fn with_type(
    words: u64,
    resolver: &Resolver,
    members: &Members<'_>,
    selectors: &Selectors<'_>,
    class: ClassId,
) -> u64
    requires same { members.now ≡ resolver.now }
    requires these { selectors_in selectors.now ≡ spec.selectors resolver.now }
    requires loaded { IsLoading resolver.now class }
    ensures { (n : ℕ) → words ≡ capped n → result ≡ capped (n + size.type_size resolver.now (name_of (heads_in resolver.now) class)) }
{
    let slots = members.slot_count(class) as u64;
    let row = add(add(words, ROW_HEAD), slots);
    add(row, dispatch_words(resolver, selectors, class))
}

/// With the rows and the dispatch rows of these types.
pub fn with_types(
    words: u64,
    resolver: &Resolver,
    members: &Members<'_>,
    selectors: &Selectors<'_>,
    classes: &[ClassId],
) -> u64
    requires same { members.now ≡ resolver.now }
    requires these { selectors_in selectors.now ≡ spec.selectors resolver.now }
    requires loaded { All (IsLoading resolver.now) classes.now }
    ensures { (n : ℕ) → words ≡ capped n
        → result ≡ capped (n + sum (map (size.type_size resolver.now) (map (name_of (heads_in resolver.now)) classes.now))) }
{
    let mut words = words;
    for class in classes {
        words = with_type(words, resolver, members, selectors, *class);
    }
    words
}
