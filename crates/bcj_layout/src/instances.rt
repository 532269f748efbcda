//! What is an instance of what (JVMS instanceof, checkcast, aastore).

ghost use Rattle.std.specs.Prelude.{◌≡◌, ◌<◌, None, length, IfSome, IfNone};
ghost use Rattle.bcj_symbolic_trees.specs.Types.{ty_of, class_type};
ghost use Rattle.bcj_hier_rules.specs.Heads.{of_heads, IsIn, name_of};
ghost use Rattle.bcj_hier_rules.specs.Loading.{load_error};
ghost use Rattle.bcj_hier_rules.specs.Resolution.{element_error};
ghost use Rattle.bcj_hier_rules.specs.Linking as spec;
ghost use Rattle.bcj_layout_rules.specs.Rows.{mixture_of, array_types};
ghost use Rattle.bcj_layout_resolution.specs.Places.{heads_in};
ghost use Rattle.bcj_layout_rows.specs.Found.{IsLoading};
ghost use Rattle.bcj_layout.specs.RowTypes.{IsRow, type_of_row, array_at, component_of, component_at};

use crate::layout::Layout;
use crate::row_id::RowId;
use bcj_hier::Hier;
use bcj_hier_rules::ClassId;
use bcj_names::Name;
use bcj_symbolic_trees::{OBJECT, Ty};

#[tactic(auto, using(bcj_symbolic_trees::proofs::PlainLemmas::tree_rules))]
fn is_reference(ty: &Ty) -> bool
    ensures { result ≡ spec.is_reference (ty_of ty.now) }
{
    match ty {
        Ty::Class(_) | Ty::Array(_) => true,
        Ty::Int | Ty::Bool | Ty::Void => false,
    }
}

#[tactic(auto, using(bcj_symbolic_trees::proofs::PlainLemmas::tree_rules))]
fn is_object(ty: &Ty) -> bool
    ensures { result ≡ spec.is_object (ty_of ty.now) }
{
    match ty {
        Ty::Class(name) => name.as_str() == OBJECT,
        Ty::Int | Ty::Bool | Ty::Void | Ty::Array(_) => false,
    }
}

#[tactic(auto, using(bcj_symbolic_trees::proofs::PlainLemmas::tree_rules))]
fn components_hold(related: bool, a: &Ty, b: &Ty) -> bool
    ensures { result ≡ spec.components related (ty_of a.now) (ty_of b.now) }
{
    a.same(b) || is_reference(a) && is_reference(b) && (related || is_object(b))
}

/// The component of an array type; another type stays.
#[tactic(auto, using(bcj_symbolic_trees::proofs::PlainLemmas::tree_rules))]
fn component(ty: &Ty) -> &Ty
    ensures { ty_of result.now ≡ component_of (ty_of ty.now) }
{
    match ty {
        Ty::Array(component) => component.get(),
        Ty::Int | Ty::Bool | Ty::Void | Ty::Class(_) => ty,
    }
}

/// The class of a name that loads.
fn loading_class(hier: &Hier, name: &Name) -> Option<ClassId>
    ensures there { IfSome result (IsIn hier.now) }
    ensures named { IfSome result (λ c. name_of hier.now c ≡ name.now) }
    ensures loads { IfSome result (λ c. load_error (of_heads hier.now) (name_of hier.now c) ≡ None) }
    ensures none { IfNone result (load_error (of_heads hier.now) name.now ≡ None → ⊥) }
{
    match hier.find(name) {
        None => None,
        Some(class) => match hier.load(class) {
            Ok(()) => Some(class),
            Err(_) => None,
        },
    }
}

/// Whether what has a class that loads is an instance of another that does.
fn class_is_instance(hier: &Hier, c: ClassId, d: ClassId) -> bool
    requires there { IsIn hier.now c × IsIn hier.now d }
    requires loads { load_error (of_heads hier.now) (name_of hier.now c) ≡ None }
    requires other_loads { load_error (of_heads hier.now) (name_of hier.now d) ≡ None }
    ensures { result ≡ spec.instance (of_heads hier.now) (class_type (name_of hier.now c)) (class_type (name_of hier.now d)) }
{
    hier.is_subclass(c, d) || hier.implements(c, d)
}

/// Whether what has a class that loads is an instance of a type whose elements load.
#[tactic(auto, using(bcj_symbolic_trees::proofs::PlainLemmas::tree_rules))]
fn class_is_of(hier: &Hier, c: ClassId, t: &Ty) -> bool
    requires there { IsIn hier.now c }
    requires loads { load_error (of_heads hier.now) (name_of hier.now c) ≡ None }
    ensures { element_error (of_heads hier.now) (ty_of t.now) ≡ None → result ≡ spec.instance (of_heads hier.now) (class_type (name_of hier.now c)) (ty_of t.now) }
{
    match t {
        Ty::Class(name) => match loading_class(hier, name) {
            None => false,
            Some(d) => class_is_instance(hier, c, d),
        },
        Ty::Int | Ty::Bool | Ty::Void | Ty::Array(_) => false,
    }
}

/// The same of a type by its name.
#[tactic(auto, using(bcj_symbolic_trees::proofs::PlainLemmas::tree_rules))]
fn name_is_of(hier: &Hier, name: &Name, t: &Ty) -> bool
    ensures { load_error (of_heads hier.now) name.now ≡ None → element_error (of_heads hier.now) (ty_of t.now) ≡ None
        → result ≡ spec.instance (of_heads hier.now) (class_type name.now) (ty_of t.now) }
{
    match loading_class(hier, name) {
        None => false,
        Some(c) => class_is_of(hier, c, t),
    }
}

/// The same of any type whose elements load.
#[tactic(auto, using(bcj_symbolic_trees::proofs::PlainLemmas::tree_rules))]
fn is_of(hier: &Hier, s: &Ty, t: &Ty) -> bool
    ensures { element_error (of_heads hier.now) (ty_of s.now) ≡ None → element_error (of_heads hier.now) (ty_of t.now) ≡ None
        → result ≡ spec.instance (of_heads hier.now) (ty_of s.now) (ty_of t.now) }
{
    match s {
        Ty::Int | Ty::Bool | Ty::Void => false,
        Ty::Class(name) => name_is_of(hier, name, t),
        Ty::Array(component) => match t {
            Ty::Array(other) => {
                let related = is_of(hier, component.get(), other.get());
                components_hold(related, component.get(), other.get())
            }
            Ty::Class(name) => name.as_str() == OBJECT,
            Ty::Int | Ty::Bool | Ty::Void => false,
        },
    }
}

impl Layout {
    /// The array type with this number.
    fn array(&self, array: u32) -> &Ty
        requires { array < length (array_types self.now.classes) }
        ensures is { ty_of result.now ≡ array_at self.now.classes array }
        ensures loads { element_error (of_heads (heads_in self.now.classes)) (ty_of result.now) ≡ None }
    {
        &self.arrays.as_slice()[array as usize]
    }

    /// Whether a class is the one above all others.
    fn is_top(&self, c: ClassId) -> bool
        requires { IsIn (heads_in self.now.classes) c }
        ensures { result ≡ spec.is_object (class_type (name_of (heads_in self.now.classes) c)) }
    {
        let record = &self.resolver.records().classes.as_slice()[c.0 as usize];
        record.head.name.as_str() == OBJECT
    }

    /// Whether what has a row is an instance of a class that loads.
    fn is_of_class(&self, r: RowId, c: ClassId) -> bool
        requires row { IsRow self.now.classes r }
        requires loads { IsLoading self.now.classes c }
        ensures { result ≡ spec.instance (mixture_of self.now.classes) (type_of_row self.now.classes r) (class_type (name_of (heads_in self.now.classes) c)) }
    {
        match r {
            RowId::Class(d) => class_is_instance(self.resolver.hier(), d, c),
            RowId::Array(_) => self.is_top(c),
        }
    }

    /// Whether what has a row is an instance of a type whose elements load.
    fn is_of_type(&self, r: RowId, t: &Ty) -> bool
        requires row { IsRow self.now.classes r }
        requires loads { element_error (of_heads (heads_in self.now.classes)) (ty_of t.now) ≡ None }
        ensures { result ≡ spec.instance (mixture_of self.now.classes) (type_of_row self.now.classes r) (ty_of t.now) }
    {
        let hier = self.resolver.hier();
        match r {
            RowId::Class(c) => class_is_of(hier, c, t),
            RowId::Array(array) => is_of(hier, self.array(array), t),
        }
    }

    /// Whether what has the first row is an instance of the type of the second.
    pub fn is_instance(&self, r: RowId, t: RowId) -> bool
        requires row { IsRow self.now.classes r }
        requires type_row { IsRow self.now.classes t }
        ensures { result ≡ spec.instance (mixture_of self.now.classes) (type_of_row self.now.classes r) (type_of_row self.now.classes t) }
    {
        match t {
            RowId::Class(c) => self.is_of_class(r, c),
            RowId::Array(array) => self.is_of_type(r, self.array(array)),
        }
    }

    /// Whether the elements of an array type are references.
    pub fn holds_references(&self, array: u32) -> bool
        requires { array < length (array_types self.now.classes) }
        ensures { result ≡ spec.is_reference (component_at self.now.classes array) }
    {
        is_reference(component(self.array(array)))
    }

    /// Whether an array stores a reference to what has a row.
    pub fn stores(&self, array: u32, r: RowId) -> bool
        requires array { array < length (array_types self.now.classes) }
        requires row { IsRow self.now.classes r }
        ensures { result ≡ spec.instance (mixture_of self.now.classes) (type_of_row self.now.classes r) (component_at self.now.classes array) }
    {
        self.is_of_type(r, component(self.array(array)))
    }
}
