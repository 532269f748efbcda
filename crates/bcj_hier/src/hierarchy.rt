ghost use Rattle.std.specs.Prelude.{◌≡◌, ◌≤◌, ◌<◌, ◌↔◌, ◌++◌, ◌∷◌, [], ℕ, Bool, None, Some, true, false, length, take, slice_get, slice_index, IfOk, IfErr, IfSome, OnOk, IsTrue, not, ◌||◌, ◌==◌};
ghost use Rattle.std.specs.Option.{option_map};
ghost use Rattle.bcj_symbolic_trees.specs.Types.{ty_of};
ghost use Rattle.bcj_hier_rules.specs.Heads.{of_heads, number_of, IsIn, name_of, AreDistinct, IsRooted, error_of, superclass_of, max_types};
ghost use Rattle.bcj_hier_rules.specs.Loading.{load_error, is_interface, is_below, implements};
ghost use Rattle.bcj_hier_rules.specs.Linking.{pair_error, pair_holds, class_pair};
ghost use Rattle.bcj_hier_rules.specs.Linking as spec;
ghost use Rattle.bcj_hier.specs.Hierarchies as function;
ghost use Rattle.bcj_hier_rules.specs.Resolution.{element_error};
ghost use Rattle.bcj_hier_rules.specs.Trees as tree;
ghost use Rattle.bcj_hier.specs.Numbers.{names_of, name_at, interface_at};
ghost use Rattle.bcj_hier.specs.Loads.{loading_error};
ghost use Rattle.bcj_hier.specs.Stops.{IsStop};

use crate::copies::copy_heads;
use crate::loading::{Loaded, is_interface_at, load_all};
use crate::names::{NameTable, number_names};
use crate::parts::{Parts, parts_at, parts_of_heads, superclass_place};
use crate::rows::{MAX_TYPES, Row, has_at};
use crate::stop::HierStop;
use crate::tree::{Tree, error_at, number_classes};
use bcj_hier_rules::{ClassId, LinkError};
use bcj_names::Name;
use bcj_symbolic_trees::{ClassHead, OBJECT, Sequence, Ty};
use std::alloc::{AllocError, Global};
use std::marker::Model;

/// The heads of a mixture's types, those of the boot unit first.
pub type Heads = Sequence<ClassHead>;

/// The types of a mixture, linked by their numbers. Contracts see it as the list of their heads.
#[derive(Drop)]
pub struct Hier {
    heads: Heads,
    names: NameTable,
    parts: Sequence<Parts>,
    errors: Vec<Option<LinkError>>,
    rows: Vec<Row>,
    order: Vec<usize>,
    lows: Vec<u32>,
    highs: Vec<u32>,
}

impl Model for Hier {
    ghost use Rattle.std.specs.Prelude.{List};
    ghost use Rattle.bcj_symbolic_trees.specs.declared.class_tree.ClassHead.{ClassHead};
    ghost use Rattle.bcj_hier.specs.Hierarchies.{IsOf};

    ghost Value = { List ClassHead };

    ghost view = { λ h. h.heads };

    ghost invariant = { λ h. IsOf h.heads h.names h.parts h.errors.items h.rows.items h.order.items h.lows.items h.highs.items };
}

/// The hierarchy of these types, by their names.
fn build_named(alloc: Global, heads: &[ClassHead], names: NameTable) -> Result<Hier, AllocError>
    requires rooted { IsRooted heads.now }
    requires distinct { AreDistinct heads.now }
    requires few { length heads.now ≤ max_types }
    requires named { names ≡ names_of heads.now }
    ensures { IfOk result (λ h. h ≡ heads.now) }
{
    let parts = parts_of_heads(alloc, &names, heads)?;
    let Loaded { errors, rows } = load_all(alloc, heads, parts.as_slice())?;
    let Tree { order, lows, highs } = number_classes(alloc, heads, parts.as_slice(), &errors)?;
    Ok(Hier {
        heads: copy_heads(alloc, heads)?,
        names,
        parts,
        errors,
        rows,
        order,
        lows,
        highs,
    })
}

/// The hierarchy of these types. A head from the number 4294967296 on whose name an earlier one has is refused for want of memory.
pub fn build(alloc: Global, heads: &Heads) -> Result<Hier, HierStop>
    requires rooted { IsRooted heads.now }
    ensures ok { IfOk result (λ h. h ≡ heads.now) }
    ensures distinct { OnOk result (AreDistinct heads.now) }
    ensures few { OnOk result (length heads.now ≤ max_types) }
    ensures err { IfErr result (λ e. IsStop heads.now e) }
{
    let names = number_names(alloc, heads.as_slice())?;
    if heads.len() > MAX_TYPES {
        return Err(HierStop::TooMany);
    }
    match build_named(alloc, heads.as_slice(), names) {
        Ok(hier) => Ok(hier),
        Err(error) => Err(HierStop::from(error)),
    }
}

impl Hier {
    /// The number of types. It takes no memory, as all calls below.
    pub fn len(&self) -> usize
        ensures count { result ≡ length self.now }
        ensures rooted { IsRooted self.now }
        ensures distinct { AreDistinct self.now }
        ensures few { length self.now ≤ max_types }
    {
        self.heads.len()
    }

    /// The type of a name.
    pub fn find(&self, name: &Name) -> Option<ClassId>
        ensures number { option_map (λ c. c.0) result ≡ number_of self.now name.now }
        ensures there { IfSome result (λ c. IsIn self.now c) }
    {
        match self.place_of(name) {
            None => None,
            Some(place) => Some(ClassId(place as u32)),
        }
    }

    fn place_of(&self, name: &Name) -> Option<usize>
        ensures number { result ≡ number_of self.now name.now }
        ensures there { IfSome result (λ k. k < length self.now) }
        ensures few { IfSome result (λ k. k < 4096) }
    {
        self.names.find(name)
    }

    fn parent_at(&self, place: usize) -> Option<usize>
        requires there { place < length self.now }
        requires loads { loading_error self.now place ≡ None }
        ensures name { option_map (name_at self.now) result ≡ function.superclass_at self.now place }
        ensures there { IfSome result (λ p. p < length self.now) }
        ensures few { IfSome result (λ p. p < 4096) }
    {
        superclass_place(parts_at(self.parts.as_slice(), place))
    }

    /// The superclass of a type that loads, where it has one.
    pub fn parent(&self, c: ClassId) -> Option<ClassId>
        requires there { IsIn self.now c }
        requires loads { load_error (of_heads self.now) (name_of self.now c) ≡ None }
        ensures name { option_map (λ p. name_of self.now p) result ≡ superclass_of self.now c }
        ensures there { IfSome result (λ p. IsIn self.now p) }
    {
        match self.parent_at(c.0 as usize) {
            None => None,
            Some(place) => Some(ClassId(place as u32)),
        }
    }

    fn is_interface(&self, place: usize) -> bool
        ensures kind { result ≡ interface_at self.now place }
        ensures distinct { AreDistinct self.now }
        ensures rooted { IsRooted self.now }
    {
        is_interface_at(self.heads.as_slice(), place)
    }

    fn load_at(&self, place: usize) -> Option<LinkError>
        requires { place < length self.now }
        ensures { result ≡ loading_error self.now place }
    {
        error_at(&self.errors, place)
    }

    /// Whether a type loads, or why it doesn't.
    pub fn load(&self, c: ClassId) -> Result<(), LinkError>
        requires there { IsIn self.now c }
        ensures { error_of result ≡ load_error (of_heads self.now) (name_of self.now c) }
    {
        as_result(self.load_at(c.0 as usize))
    }

    /// Whether a pair of types holds, or the error of linking.
    pub fn pair(&self, s: &Ty, t: &Ty) -> Result<(), LinkError>
        ensures { error_of result ≡ pair_error (of_heads self.now) (ty_of s.now) (ty_of t.now) }
    {
        as_result(self.pair_failure(s, t))
    }

    fn pair_failure(&self, s: &Ty, t: &Ty) -> Option<LinkError>
        ensures { result ≡ pair_error (of_heads self.now) (ty_of s.now) (ty_of t.now) }
    {
        match self.element_failure(s) {
            Some(error) => Some(error),
            None => match self.element_failure(t) {
                Some(error) => Some(error),
                None => {
                    if self.holds(s, t) {
                        None
                    } else {
                        Some(LinkError::Verify)
                    }
                }
            },
        }
    }

    fn name_failure(&self, name: &Name) -> Option<LinkError>
        ensures { result ≡ load_error (of_heads self.now) name.now }
    {
        match self.place_of(name) {
            None => Some(LinkError::NoClassDefFound),
            Some(place) => self.load_at(place),
        }
    }

    #[tactic(auto, using(crate::proofs::Rules::type_rules))]
    fn element_failure(&self, t: &Ty) -> Option<LinkError>
        ensures { result ≡ element_error (of_heads self.now) (ty_of t.now) }
    {
        match t {
            Ty::Int | Ty::Bool | Ty::Void => None,
            Ty::Class(name) => self.name_failure(name),
            Ty::Array(component) => self.element_failure(component.get()),
        }
    }

    fn class_holds(&self, s: &Name, t: &Name) -> bool
        requires loads { load_error (of_heads self.now) s.now ≡ None }
        requires other_loads { load_error (of_heads self.now) t.now ≡ None }
        ensures { result ≡ class_pair (of_heads self.now) s.now t.now }
    {
        match self.place_of(s) {
            None => false,
            Some(below) => match self.place_of(t) {
                None => false,
                Some(above) => self.places_hold(below, above),
            },
        }
    }

    fn places_hold(&self, s: usize, t: usize) -> bool
        requires there { (s < length self.now) × (t < length self.now) }
        requires loads { loading_error self.now s ≡ None }
        requires other_loads { loading_error self.now t ≡ None }
        ensures { result ≡ class_pair (of_heads self.now) (name_at self.now s) (name_at self.now t) }
    {
        if self.is_interface(t) {
            passes_to_interface(self.is_interface(s), s)
        } else {
            self.is_below_at(s, t)
        }
    }

    /// The same where both load.
    fn loaded_hold(&self, s: &Name, t: &Name) -> bool
        ensures { load_error (of_heads self.now) s.now ≡ None → load_error (of_heads self.now) t.now ≡ None → result ≡ class_pair (of_heads self.now) s.now t.now }
    {
        match (self.name_failure(s), self.name_failure(t)) {
            (None, None) => self.class_holds(s, t),
            (_, _) => false,
        }
    }

    #[tactic(auto, using(crate::proofs::Rules::type_rules))]
    fn holds(&self, s: &Ty, t: &Ty) -> bool
        ensures { element_error (of_heads self.now) (ty_of s.now) ≡ None → element_error (of_heads self.now) (ty_of t.now) ≡ None
            → result ≡ pair_holds (of_heads self.now) (ty_of s.now) (ty_of t.now) }
    {
        match s {
            Ty::Int | Ty::Bool | Ty::Void => false,
            Ty::Class(name) => match t {
                Ty::Class(other) => self.loaded_hold(name, other),
                Ty::Int | Ty::Bool | Ty::Void | Ty::Array(_) => false,
            },
            Ty::Array(component) => match t {
                Ty::Array(other) => {
                    let related = self.holds(component.get(), other.get());
                    components_hold(related, component.get(), other.get())
                }
                Ty::Int | Ty::Bool | Ty::Void | Ty::Class(_) => false,
            },
        }
    }

    fn is_below_at(&self, c: usize, d: usize) -> bool
        requires there { (c < length self.now) × (d < length self.now) }
        requires loads { loading_error self.now c ≡ None }
        requires other_loads { loading_error self.now d ≡ None }
        ensures { result ≡ is_below (of_heads self.now) (name_at self.now c) (name_at self.now d) }
    {
        if self.is_interface(c) || self.is_interface(d) {
            return false;
        }
        is_between(self.low_at(d), self.low_at(c), self.high_at(d))
    }

    /// Whether both are classes, the first one is the second or below it.
    pub fn is_subclass(&self, c: ClassId, d: ClassId) -> bool
        requires there { IsIn self.now c × IsIn self.now d }
        requires loads { load_error (of_heads self.now) (name_of self.now c) ≡ None }
        requires other_loads { load_error (of_heads self.now) (name_of self.now d) ≡ None }
        ensures { result ≡ is_below (of_heads self.now) (name_of self.now c) (name_of self.now d) }
    {
        self.is_below_at(c.0 as usize, d.0 as usize)
    }

    fn implements_at(&self, c: usize, i: usize) -> bool
        requires there { (c < length self.now) × (i < length self.now) }
        requires loads { loading_error self.now c ≡ None }
        ensures { result ≡ implements (of_heads self.now) (name_at self.now c) (name_at self.now i) }
    {
        has_at(&self.rows, c, i)
    }

    /// Whether the second is an interface that the first implements, or is.
    pub fn implements(&self, c: ClassId, i: ClassId) -> bool
        requires there { IsIn self.now c × IsIn self.now i }
        requires loads { load_error (of_heads self.now) (name_of self.now c) ≡ None }
        requires other_loads { load_error (of_heads self.now) (name_of self.now i) ≡ None }
        ensures { result ≡ implements (of_heads self.now) (name_of self.now c) (name_of self.now i) }
    {
        self.implements_at(c.0 as usize, i.0 as usize)
    }

    fn low_at(&self, c: usize) -> u32
        requires { c < length self.now }
        ensures { result ≡ tree.low (of_heads self.now) (name_at self.now c) }
    {
        self.lows[c]
    }

    fn high_at(&self, c: usize) -> u32
        requires there { c < length self.now }
        requires loads { loading_error self.now c ≡ None }
        ensures { result ≡ tree.high (of_heads self.now) (name_at self.now c) }
    {
        if self.is_interface(c) {
            0
        } else {
            self.highs[c]
        }
    }

    /// The number of a class in preorder, from 1; 0 for an interface.
    pub fn low(&self, c: ClassId) -> u32
        requires there { IsIn self.now c }
        requires loads { load_error (of_heads self.now) (name_of self.now c) ≡ None }
        ensures { result ≡ tree.low (of_heads self.now) (name_of self.now c) }
    {
        self.low_at(c.0 as usize)
    }

    /// One past the last number of the classes below a class; 0 for an interface.
    pub fn high(&self, c: ClassId) -> u32
        requires there { IsIn self.now c }
        requires loads { load_error (of_heads self.now) (name_of self.now c) ≡ None }
        ensures { result ≡ tree.high (of_heads self.now) (name_of self.now c) }
    {
        self.high_at(c.0 as usize)
    }

    fn next_at(&self, c: usize) -> Option<usize>
        requires { c < length self.now }
        ensures name { option_map (name_at self.now) result ≡ tree.next_in_tree (of_heads self.now) (name_at self.now c) }
        ensures there { IfSome result (λ d. d < length self.now) }
        ensures few { IfSome result (λ d. d < 4096) }
    {
        if self.is_interface(c) {
            return None;
        }
        let number = self.low_at(c) as usize;
        item_at(&self.order, number)
    }

    /// The class behind this one in preorder; none for an interface.
    pub fn next_in_tree(&self, c: ClassId) -> Option<ClassId>
        requires there { IsIn self.now c }
        requires loads { load_error (of_heads self.now) (name_of self.now c) ≡ None }
        ensures name { option_map (λ d. name_of self.now d) result ≡ tree.next_in_tree (of_heads self.now) (name_of self.now c) }
        ensures there { IfSome result (λ d. IsIn self.now d) }
    {
        match self.next_at(c.0 as usize) {
            None => None,
            Some(place) => Some(ClassId(place as u32)),
        }
    }
}

fn is_between(from: u32, number: u32, to: u32) -> bool
    ensures { IsTrue result ↔ (from ≤ number × number < to) }
{
    from <= number && number < to
}

fn passes_to_interface(interface: bool, place: usize) -> bool
    ensures { result ≡ (interface || not (0 == place)) }
{
    interface || 0 != place
}

fn item_at(order: &[usize], number: usize) -> Option<usize>
    ensures { result ≡ slice_get order.now number }
{
    order.get(number).copied()
}

fn as_result(error: Option<LinkError>) -> Result<(), LinkError>
    ensures { error_of result ≡ error }
{
    match error {
        None => Ok(()),
        Some(error) => Err(error),
    }
}

#[tactic(auto, using(crate::proofs::Rules::type_rules))]
fn is_reference(ty: &Ty) -> bool
    ensures { result ≡ spec.is_reference (ty_of ty.now) }
{
    match ty {
        Ty::Class(_) | Ty::Array(_) => true,
        Ty::Int | Ty::Bool | Ty::Void => false,
    }
}

#[tactic(auto, using(crate::proofs::Rules::type_rules))]
fn is_object(ty: &Ty) -> bool
    ensures { result ≡ spec.is_object (ty_of ty.now) }
{
    match ty {
        Ty::Class(name) => name.as_str() == OBJECT,
        Ty::Int | Ty::Bool | Ty::Void | Ty::Array(_) => false,
    }
}

#[tactic(auto, using(crate::proofs::Rules::type_rules))]
fn components_hold(related: bool, a: &Ty, b: &Ty) -> bool
    ensures { result ≡ spec.components related (ty_of a.now) (ty_of b.now) }
{
    a.same(b) || is_reference(a) && is_reference(b) && (related || is_object(b))
}
