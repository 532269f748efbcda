//! What a body is typed in.
#![tactic(auto, using(crate::proofs::Rulesets::walk_rules), unfolding(crate::specs::function::Views::frame_of))]

ghost use Rattle.std.specs.Prelude.{◌≡◌, map};
ghost use Rattle.std.specs.Str.{bytes_eq};
ghost use Rattle.bcj_symbolic_trees.specs.Types.{types_of, given, class_type, method_ref_of};
ghost use Rattle.bcj_symbolic_trees.specs.Units.{pair_of};
ghost use Rattle.bcj_symbolic_check.specs.Steps as steps;
ghost use Rattle.bcj_symbolic_check.specs.Judgements as spec;
ghost use Rattle.bcj_symbolic_check.specs.Statements as statements;
ghost use Rattle.bcj_symbolic_check.specs.function.Views.{kind_of, known_of, frame_of};

use crate::kind::Kind;
use crate::spelling::is_spelled;
use crate::types::is_void;
use bcj_symbolic_trees::{MethodRef, Name, OBJECT, Pair, SymClass, THROWABLE, Ty, Types};

/// The local that holds `this`, where there is one (JVMS 2.6.1).
const THIS: u32 = 0;

/// The class of a body, its locals, whether local 0 is `this`, and its result; a class initialiser has none.
#[derive(Clone, Copy)]
pub struct Body<'a> {
    pub class: &'a SymClass,
    pub locals: &'a Types,
    pub has_this: bool,
    pub result: Option<&'a Ty>,
}

#[tactic(auto, unfolding(crate::specs::Steps::is_listed))]
fn is_listed<'a>(pairs: &'a [Pair], from: Kind<'a>, to: Kind<'a>) -> bool
    ensures { result ≡ steps.is_listed (map pair_of pairs.now) (kind_of from.entry) (kind_of to.entry) }
{
    for pair in pairs {
        if Kind::of(&pair.from).same(from) && Kind::of(&pair.to).same(to) {
            return true;
        }
    }
    false
}

#[tactic(auto, unfolding(crate::specs::Steps::steps_to))]
fn steps_to<'a>(pairs: &'a [Pair], from: Kind<'a>, to: Kind<'a>) -> bool
    ensures { result ≡ steps.steps_to (map pair_of pairs.now) (kind_of from.entry) (kind_of to.entry) }
{
    from.same(to)
        || from.is_null() && to.is_object()
        || from.is_object() && to.is_class(OBJECT)
        || is_listed(pairs, from, to)
}

#[tactic(auto, unfolding(crate::specs::Steps::is_listed))]
fn is_listed_to_throwable<'a>(pairs: &'a [Pair], from: Kind<'a>) -> bool
    ensures { result ≡ steps.is_listed (map pair_of pairs.now) (kind_of from.entry) (given steps.throwable_type) }
{
    for pair in pairs {
        if Kind::of(&pair.from).same(from) && Kind::of(&pair.to).is_class(THROWABLE) {
            return true;
        }
    }
    false
}

#[tactic(auto, unfolding(crate::specs::Steps::steps_to))]
fn steps_to_throwable<'a>(pairs: &'a [Pair], from: Kind<'a>) -> bool
    ensures { result ≡ steps.steps_to (map pair_of pairs.now) (kind_of from.entry) (given steps.throwable_type) }
{
    from.is_class(THROWABLE) || from.is_null() || is_listed_to_throwable(pairs, from)
}

fn is_named(name: &Option<Name>, other: &Name) -> bool
    ensures { result ≡ spec.name_eq name.now other.now }
{
    match name {
        None => false,
        Some(name) => name.same(other),
    }
}

impl<'a> Body<'a> {
    /// Whether a part of type `from` can stand for one of type `to`, or one of the two has no type.
    #[tactic(auto, unfolding(crate::specs::Judgements::part_steps, crate::specs::function::Views::frame_of))]
    pub fn steps(&self, from: Option<Kind<'a>>, to: Option<Kind<'a>>) -> bool
        ensures { result ≡ spec.part_steps (frame_of self.now).pairs (known_of from.entry) (known_of to.entry) }
    {
        match from {
            None => true,
            Some(from) => match to {
                None => true,
                Some(to) => steps_to(self.class.pairs.as_slice(), from, to),
            },
        }
    }

    /// Whether a part can be thrown, or has no type.
    #[tactic(auto, unfolding(crate::specs::Judgements::is_thrown, crate::specs::Judgements::part_steps, crate::specs::function::Views::frame_of))]
    pub fn is_thrown(&self, part: Option<Kind<'a>>) -> bool
        ensures { result ≡ spec.is_thrown (frame_of self.now).pairs (known_of part.entry) }
    {
        match part {
            None => true,
            Some(kind) => steps_to_throwable(self.class.pairs.as_slice(), kind),
        }
    }

    /// The type of a choice: the second's where the first steps to it, else the first's.
    #[tactic(auto, unfolding(crate::specs::Judgements::joined, crate::specs::function::Views::frame_of))]
    pub fn joined(&self, first: Option<Kind<'a>>, second: Option<Kind<'a>>) -> Option<Kind<'a>>
        ensures { known_of result ≡ spec.joined (frame_of self.now).pairs (known_of first.entry) (known_of second.entry) }
    {
        match first {
            None => second,
            Some(from) => match second {
                None => None,
                Some(to) => {
                    if steps_to(self.class.pairs.as_slice(), from, to) {
                        Some(to)
                    } else {
                        Some(from)
                    }
                }
            },
        }
    }

    /// The type of a local, where there is one of this number.
    #[tactic(auto, using(crate::proofs::Rulesets::type_rules), unfolding(crate::specs::Judgements::local_known, crate::specs::function::Views::frame_of))]
    pub fn local(&self, number: u32) -> Option<Kind<'a>>
        ensures { known_of result ≡ spec.local_known (frame_of self.now) number }
    {
        match self.locals.get(number as usize) {
            None => None,
            Some(ty) => Some(Kind::of(ty)),
        }
    }

    /// Whether the local is `this`.
    #[tactic(auto, unfolding(crate::specs::Judgements::is_this, crate::specs::function::Views::frame_of))]
    pub fn is_this(&self, number: u32) -> bool
        ensures { result ≡ spec.is_this (frame_of self.now) number }
    {
        self.has_this && number == THIS
    }

    fn names_class(&self, class: &Name) -> bool
        ensures { result ≡ bytes_eq class.now (frame_of self.now).class }
    {
        class.same(&self.class.head.name)
    }

    fn names_superclass(&self, class: &Name) -> bool
        ensures { result ≡ spec.name_eq (frame_of self.now).superclass class.now }
    {
        is_named(&self.class.head.superclass, class)
    }

    fn own_kind(&self) -> Kind<'a>
        ensures { known_of (Some result) ≡ spec.a_type (class_type (frame_of self.now).class) }
    {
        Kind::Class(&self.class.head.name)
    }

    fn is_instance(&self) -> bool
        ensures { result ≡ (frame_of self.now).has_this }
    {
        self.has_this
    }

    /// Whether a call on `this` of the class itself or of its superclass can name this method.
    #[tactic(auto, unfolding(crate::specs::Judgements::is_special))]
    pub fn is_special(&self, method: &MethodRef) -> bool
        ensures { result ≡ spec.is_special (frame_of self.now) (method_ref_of method.now) }
    {
        self.is_instance()
            && (self.names_class(&method.class) || self.names_superclass(&method.class))
            && !is_spelled(&method.class, OBJECT)
            && self.steps(Some(self.own_kind()), Some(Kind::Class(&method.class)))
    }

    /// Whether the body stands in a class of this name.
    pub fn stands_in(&self, name: &str) -> bool
        ensures { result ≡ bytes_eq (frame_of self.now).class name.now }
    {
        is_spelled(&self.class.head.name, name)
    }

    /// Whether the body returns no value, and can return.
    #[tactic(auto, unfolding(crate::specs::Statements::returns_nothing, crate::specs::function::Views::frame_of))]
    pub fn returns_nothing(&self) -> bool
        ensures { result ≡ statements.returns_nothing (frame_of self.now).result }
    {
        match self.result {
            None => false,
            Some(ty) => is_void(ty),
        }
    }

    /// Whether the body returns values, and this is one.
    #[tactic(auto, unfolding(crate::specs::Statements::returns_value, crate::specs::function::Views::frame_of))]
    pub fn returns_value(&self, value: Option<Kind<'a>>) -> bool
        ensures { result ≡ statements.returns_value (frame_of self.now).pairs (frame_of self.now).result (known_of value.entry) }
    {
        match self.result {
            None => false,
            Some(ty) => !is_void(ty) && self.steps(value, Some(Kind::of(ty))),
        }
    }
}
