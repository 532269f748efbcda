//! The names that the rules speak of.

ghost use Rattle.std.specs.Prelude.{◌≡◌};
ghost use Rattle.std.specs.Str.{bytes_eq};
ghost use Rattle.bcj_names.specs.Identifiers.{is_identifier};
ghost use Rattle.bcj_symbolic_check.specs.Judgements as spec;

use bcj_symbolic_trees::{CONSTRUCTOR, Name};

/// Whether it is an identifier (JLS 3.8).
pub fn is_identifier(name: &Name) -> bool
    ensures { result ≡ is_identifier name.now }
{
    bcj_names::is_identifier(name.as_str().as_bytes())
}

/// Whether it is the name of constructors.
#[tactic(auto, unfolding(crate::specs::Judgements::is_constructor_name))]
pub fn is_constructor_name(name: &Name) -> bool
    ensures { result ≡ spec.is_constructor_name name.now }
{
    is_spelled(name, CONSTRUCTOR)
}

/// Whether a name is spelled so.
pub fn is_spelled(name: &Name, text: &str) -> bool
    ensures { result ≡ bytes_eq name.now text.now }
{
    name.as_str() == text
}
