//! The pairs of a class: the subtype steps that its bodies use, each once by first use (JLS 4.10, JVMS 4.10).
#![tactic(auto, using(crate::proofs::Rules::pair_rules))]

ghost use Rattle.std.specs.Prelude.{◌≡◌, ◌++◌, [], ◌∷◌, map, filter, fold, IfOk, OnOk};
ghost use Rattle.std.specs.Hash as fed;
ghost use Rattle.bcj_symbolic_trees.specs.Types.{ty_of};
ghost use Rattle.bcj_symbolic_trees.specs.Same.{same_type};
ghost use Rattle.bcj_symbolic_trees.specs.Units.{pair_of};
ghost use Rattle.bcj_typing_rules.specs.Members as spec;
ghost use Rattle.bcj_typing_node.specs.Typings.{pairs_of};
ghost use Rattle.bcj_typing_member.specs.Steps.{step_of, type_writes, step_writes, with_pair, with_listed, with_all_listed};
ghost use Rattle.bcj_typing_member.specs.StepTests.{steps_equivalence, steps_partial, steps_respect};

use bcj_names::Name;
use bcj_symbolic_trees::{OBJECT, Pair, Pairs, Sequence, Ty};
use indexmap::IndexSet;
use std::alloc::{AllocError, Global};
use std::hash::{Hash, Hasher};

/// A step that is used, told from others by both its types.
#[derive(Clone, Copy)]
pub struct Step<'a> {
    pub pair: &'a Pair,
}

impl<'a> PartialEq for Step<'a> {
    ghost eq = { λ x y. spec.same_pair (step_of x) (step_of y) };

    ghost laws = { steps_partial };

    fn eq(&self, other: &Step<'a>) -> bool {
        self.pair.from.same(&other.pair.from) && self.pair.to.same(&other.pair.to)
    }
}

impl<'a> Eq for Step<'a> {
    ghost laws = { steps_equivalence };
}

fn hash_name<H: Hasher>(name: &Name, state: &mut H)
    ensures { state.new ≡ fold H.write state.old (fed.str name.now) }
{
    name.as_str().hash(state);
}

fn hash_type<H: Hasher>(ty: &Ty, state: &mut H)
    ensures { state.new ≡ fold H.write state.old (type_writes (ty_of ty.now)) }
{
    match ty {
        Ty::Int | Ty::Bool | Ty::Void => {}
        Ty::Class(name) => hash_name(name, state),
        Ty::Array(component) => {
            state.write_u8(0);
            hash_type(component.get(), state);
        }
    }
}

impl<'a> Hash for Step<'a> {
    ghost hash_input = { λ s. step_writes (step_of s) };

    ghost respects_eq = { steps_respect };

    fn hash<H: Hasher>(&self, state: &mut H) {
        hash_type(&self.pair.from, state);
        hash_type(&self.pair.to, state);
    }
}

fn is_object(ty: &Ty) -> bool
    ensures { result ≡ same_type (ty_of ty.now) spec.object_type }
{
    match ty {
        Ty::Class(name) => name.as_str() == OBJECT,
        Ty::Int | Ty::Bool | Ty::Void | Ty::Array(_) => false,
    }
}

/// Whether a step is listed: one to the type itself or to Object holds everywhere.
fn is_listed(pair: &Pair) -> bool
    ensures { result ≡ spec.is_listed (pair_of pair.now) }
{
    !pair.from.same(&pair.to) && !is_object(&pair.to)
}

/// Puts a step behind the others, unless it isn't listed or is there.
fn put<'a>(found: &mut IndexSet<Step<'a>>, pair: &'a Pair) -> Result<(), AllocError>
    ensures { OnOk result (map step_of found.new.keys ≡ with_listed (map step_of found.old.keys) (pair_of pair.entry.now)) }
{
    if is_listed(pair) {
        found.insert(Step { pair })?;
    }
    Ok(())
}

fn copy_pair(alloc: Global, pair: &Pair) -> Result<Pair, AllocError>
    ensures { IfOk result (λ p. p ≡ pair.now) }
{
    Ok(Pair {
        from: pair.from.copy(alloc)?,
        to: pair.to.copy(alloc)?,
    })
}

fn copy_steps<'a>(alloc: Global, steps: &[Step<'a>]) -> Result<Pairs, AllocError>
    ensures { IfOk result (λ ps. pairs_of ps ≡ map step_of steps.entry.now) }
{
    let mut pairs = Sequence::new(alloc);
    for step in steps {
        pairs.push(copy_pair(alloc, step.pair)?)?;
    }
    Ok(pairs)
}

/// The steps that are listed, each once by first use.
fn found_steps<'a>(alloc: Global, steps: &'a [Pair]) -> Result<IndexSet<Step<'a>>, AllocError>
    ensures { IfOk result (λ found. map step_of found.keys ≡ with_all_listed [] (pairs_of steps.entry.now)) }
{
    let mut found = IndexSet::new(alloc);
    for pair in steps {
        put(&mut found, pair)?;
    }
    Ok(found)
}

/// The pairs that a class lists, by the steps that its bodies use.
pub fn listed_pairs(alloc: Global, steps: &[Pair]) -> Result<Pairs, AllocError>
    ensures { IfOk result (λ ps. pairs_of ps ≡ spec.pairs_of (pairs_of steps.now)) }
{
    let found = found_steps(alloc, steps)?;
    copy_steps(alloc, found.as_slice())
}
