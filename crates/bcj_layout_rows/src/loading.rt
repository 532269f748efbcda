//! The types that load.
#![tactic(auto, using(crate::proofs::Rules::loaded_rules))]

ghost use Rattle.std.specs.Prelude.{◌≡◌, ◌≤◌, ◌<◌, ◌+◌, ◌^◌, length, map, IfOk, if◌then◌else◌};
ghost use Rattle.std.specs.List.{All};
ghost use Rattle.bcj_symbolic_trees.specs.Types.{class_type};
ghost use Rattle.bcj_hier_rules.specs.Heads.{IsIn, name_of, max_types};
ghost use Rattle.bcj_hier_rules.specs.Trees.{loads};
ghost use Rattle.bcj_layout_rules.specs.Rows as spec;
ghost use Rattle.bcj_layout_resolution.specs.Places.{heads_in};
ghost use Rattle.bcj_layout_rows.specs.Found.{IsLoading};

use bcj_hier_rules::ClassId;
use bcj_layout_resolution::Resolver;
use bcj_symbolic_trees::Sequence;
use std::alloc::{AllocError, Global};

/// A list of types by their numbers.
pub type ClassIds = Sequence<ClassId>;

/// The number of a row for each class, or none.
pub type RowNumbers = Sequence<Option<u32>>;

fn loads(resolver: &Resolver, class: ClassId) -> bool
    requires there { IsIn (heads_in resolver.now) class }
    ensures { result ≡ loads (spec.mixture_of resolver.now) (name_of (heads_in resolver.now) class) }
{
    resolver.hier().load(class).is_ok()
}

/// The types that load, in order.
pub fn loaded(alloc: Global, resolver: &Resolver) -> Result<ClassIds, AllocError>
    ensures names { IfOk result (λ cs. map (name_of (heads_in resolver.now)) cs ≡ spec.loaded resolver.now) }
    ensures loading { IfOk result (λ cs. All (IsLoading resolver.now) cs) }
    ensures few { IfOk result (λ cs. length cs ≤ max_types) }
{
    let count = resolver.hier().len();
    let mut ids = Sequence::new(alloc);
    for k in 0..count {
        let class = ClassId(k as u32);
        if loads(resolver, class) {
            ids.push(class)?;
        }
    }
    Ok(ids)
}

fn row_if(loads: bool, next: u32) -> Option<u32>
    ensures { result ≡ (if loads then Some next else None) }
{
    if loads { Some(next) } else { None }
}

fn next_if(loads: bool, next: u32) -> u32
    requires { next < 2 ^ 31 }
    ensures { result ≡ next + (if loads then 1 else 0) }
{
    if loads { next + 1 } else { next }
}

/// The number of the row of each class or interface, none where it doesn't load.
pub fn class_rows(alloc: Global, resolver: &Resolver) -> Result<RowNumbers, AllocError>
    ensures { IfOk result (λ rows. rows ≡ map (λ c. spec.row_number resolver.now (class_type c.head.name)) resolver.now) }
{
    let count = resolver.hier().len();
    let mut rows = Sequence::new(alloc);
    let mut next = 0;
    for k in 0..count {
        let is_loaded = loads(resolver, ClassId(k as u32));
        rows.push(row_if(is_loaded, next))?;
        next = next_if(is_loaded, next);
    }
    Ok(rows)
}
