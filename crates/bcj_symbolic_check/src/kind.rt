//! The type of a value, without memory of its own.

ghost use Rattle.std.specs.Prelude.{◌≡◌};
ghost use Rattle.bcj_symbolic_trees.specs.Types.{PlainArg, given, ty_of, class_type};
ghost use Rattle.bcj_symbolic_check.specs.Steps as steps;
ghost use Rattle.bcj_symbolic_check.specs.Judgements as spec;
ghost use Rattle.bcj_symbolic_check.specs.function.Views.{kind_of, known_of};

use crate::spelling::is_spelled;
use bcj_symbolic_trees::{Name, Ty};

/// A type, where `null` has one of its own and an array has its component.
#[derive(Clone, Copy)]
pub enum Kind<'a> {
    Int,
    Bool,
    Void,
    Class(&'a Name),
    Array(&'a Ty),
    Null,
}

impl<'a> Kind<'a> {
    /// The type, read.
    #[tactic(auto, using(crate::proofs::Rulesets::walk_rules))]
    pub fn of(ty: &'a Ty) -> Kind<'a>
        ensures { kind_of result ≡ given (ty_of ty.entry.now) }
    {
        match ty {
            Ty::Int => Kind::Int,
            Ty::Bool => Kind::Bool,
            Ty::Void => Kind::Void,
            Ty::Class(name) => Kind::Class(name),
            Ty::Array(component) => Kind::Array(component.get()),
        }
    }

    /// Whether both are the same type.
    pub fn same(self, other: Kind<'a>) -> bool
        ensures { result ≡ steps.same_arg (kind_of self.entry) (kind_of other.entry) }
    {
        match self {
            Kind::Int => other.is_int(),
            Kind::Bool => other.is_bool(),
            Kind::Void => match other {
                Kind::Void => true,
                Kind::Int | Kind::Bool | Kind::Class(_) | Kind::Array(_) | Kind::Null => false,
            },
            Kind::Class(name) => match other {
                Kind::Class(other_name) => name.same(other_name),
                Kind::Int | Kind::Bool | Kind::Void | Kind::Array(_) | Kind::Null => false,
            },
            Kind::Array(component) => match other {
                Kind::Array(other_component) => component.same(other_component),
                Kind::Int | Kind::Bool | Kind::Void | Kind::Class(_) | Kind::Null => false,
            },
            Kind::Null => other.is_null(),
        }
    }

    /// Whether it is `int`.
    pub fn is_int(self) -> bool
        ensures { result ≡ spec.is_int (kind_of self.entry) }
    {
        match self {
            Kind::Int => true,
            Kind::Bool | Kind::Void | Kind::Class(_) | Kind::Array(_) | Kind::Null => false,
        }
    }

    /// Whether it is `boolean`.
    pub fn is_bool(self) -> bool
        ensures { result ≡ spec.is_bool (kind_of self.entry) }
    {
        match self {
            Kind::Bool => true,
            Kind::Int | Kind::Void | Kind::Class(_) | Kind::Array(_) | Kind::Null => false,
        }
    }

    /// Whether it is the type of `null`.
    pub fn is_null(self) -> bool
        ensures { result ≡ steps.is_null (kind_of self.entry) }
    {
        match self {
            Kind::Null => true,
            Kind::Int | Kind::Bool | Kind::Void | Kind::Class(_) | Kind::Array(_) => false,
        }
    }

    /// Whether it is a class, an array or the type of `null`.
    pub fn is_object(self) -> bool
        ensures { result ≡ steps.is_object (kind_of self.entry) }
    {
        match self {
            Kind::Class(_) | Kind::Array(_) | Kind::Null => true,
            Kind::Int | Kind::Bool | Kind::Void => false,
        }
    }

    /// Whether it is an array.
    pub fn is_array(self) -> bool
        ensures { result ≡ spec.is_array_value (kind_of self.entry) }
    {
        match self {
            Kind::Array(_) => true,
            Kind::Int | Kind::Bool | Kind::Void | Kind::Class(_) | Kind::Null => false,
        }
    }

    /// Whether it is that of a value.
    pub fn is_value(self) -> bool
        ensures { result ≡ spec.is_value (kind_of self.entry) }
    {
        match self {
            Kind::Int | Kind::Bool | Kind::Class(_) | Kind::Array(_) | Kind::Null => true,
            Kind::Void => false,
        }
    }

    /// Whether it is the class of this name.
    pub fn is_class(self, name: &str) -> bool
        ensures { result ≡ steps.is_type (class_type name.now) (kind_of self.entry) }
    {
        match self {
            Kind::Class(class) => is_spelled(class, name),
            Kind::Int | Kind::Bool | Kind::Void | Kind::Array(_) | Kind::Null => false,
        }
    }
}

/// Whether a part is an `int`, or has no type.
#[tactic(auto, unfolding(crate::specs::Judgements::int_part))]
pub fn int_part<'a>(part: Option<Kind<'a>>) -> bool
    ensures { result ≡ spec.int_part (known_of part.entry) }
{
    match part {
        None => true,
        Some(kind) => kind.is_int(),
    }
}

/// Whether a part is a `boolean`, or has no type.
#[tactic(auto, unfolding(crate::specs::Judgements::bool_part))]
pub fn bool_part<'a>(part: Option<Kind<'a>>) -> bool
    ensures { result ≡ spec.bool_part (known_of part.entry) }
{
    match part {
        None => true,
        Some(kind) => kind.is_bool(),
    }
}

/// Whether a part is a reference, or has no type.
#[tactic(auto, unfolding(crate::specs::Judgements::object_part))]
pub fn object_part<'a>(part: Option<Kind<'a>>) -> bool
    ensures { result ≡ spec.object_part (known_of part.entry) }
{
    match part {
        None => true,
        Some(kind) => kind.is_object(),
    }
}

/// Whether a part is an array, or has no type.
#[tactic(auto, unfolding(crate::specs::Judgements::array_part))]
pub fn array_part<'a>(part: Option<Kind<'a>>) -> bool
    ensures { result ≡ spec.array_part (known_of part.entry) }
{
    match part {
        None => true,
        Some(kind) => kind.is_array(),
    }
}

/// Whether a part is a value, or has no type.
#[tactic(auto, unfolding(crate::specs::Judgements::value_part))]
pub fn value_part<'a>(part: Option<Kind<'a>>) -> bool
    ensures { result ≡ spec.value_part (known_of part.entry) }
{
    match part {
        None => true,
        Some(kind) => kind.is_value(),
    }
}

/// What the elements of an array are, where the part is one.
#[tactic(auto, unfolding(crate::specs::Judgements::element_part))]
pub fn element_part<'a>(part: Option<Kind<'a>>) -> Option<Kind<'a>>
    ensures { known_of result ≡ spec.element_part (known_of part.entry) }
{
    match part {
        None => None,
        Some(kind) => element_of(kind),
    }
}

fn element_of<'a>(kind: Kind<'a>) -> Option<Kind<'a>>
    ensures { known_of result ≡ spec.element_of (kind_of kind.entry) }
{
    match kind {
        Kind::Array(component) => Some(Kind::of(component)),
        Kind::Int | Kind::Bool | Kind::Void | Kind::Class(_) | Kind::Null => None,
    }
}
