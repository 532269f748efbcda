//! The types that descriptors spell (JVMS 4.3.2).
#![tactic(auto, using(crate::proofs::Rules::text_rules))]

ghost use Rattle.std.specs.Prelude.{◌≡◌, ◌≤◌, ◌-◌, ◌∷◌, length, take, drop, IfOk};
ghost use Rattle.bcj_symbolic_trees.specs.Types.{ty_of};
ghost use Rattle.bcj_hier_rules.specs.Shapes.{type_of_text};
ghost use Rattle.bcj_layout_rows.specs.Texts.{array_of, element_of};

use bcj_names::Name;
use bcj_symbolic_trees::Ty;
use sqlite_items::Boxed;
use std::alloc::{AllocError, Global};

/// How many brackets stand at the front.
fn brackets(text: &[u8]) -> usize
    ensures within { result ≤ length text.now }
    ensures behind { type_of_text text.now ≡ array_of result (element_of (drop result text.now)) }
{
    for (i, b) in text.iter().enumerate() {
        if *b != b'[' {
            return i;
        }
    }
    text.len()
}

fn name_of_bytes(alloc: Global, bytes: &[u8]) -> Result<Name, AllocError>
    ensures { IfOk result (λ n. n ≡ bytes.now) }
{
    match std::str::from_utf8(bytes) {
        Ok(text) => Name::from_str(alloc, text),
        Err(_) => Err(AllocError),
    }
}

/// The name before the last byte, which is a semicolon.
fn class_name(alloc: Global, text: &[u8]) -> Result<Name, AllocError>
    ensures { IfOk result (λ n. n ≡ take (length text.now - 1) text.now) }
{
    match text {
        [] => name_of_bytes(alloc, text),
        [name @ .., _] => name_of_bytes(alloc, name),
    }
}

/// The type of a text that begins with this byte, which is no bracket.
fn element_from(alloc: Global, first: u8, rest: &[u8]) -> Result<Ty, AllocError>
    ensures { IfOk result (λ t. ty_of t ≡ element_of (first ∷ rest.now)) }
{
    match first {
        b'L' => Ok(Ty::Class(class_name(alloc, rest)?)),
        b'I' => Ok(Ty::Int),
        b'Z' => Ok(Ty::Bool),
        _ => Ok(Ty::Void),
    }
}

/// The type of a text that begins with no bracket.
fn element(alloc: Global, text: &[u8]) -> Result<Ty, AllocError>
    ensures { IfOk result (λ t. ty_of t ≡ element_of text.now) }
{
    match text {
        [] => Ok(Ty::Void),
        [first, rest @ ..] => element_from(alloc, *first, rest),
    }
}

/// The array type of so many dimensions.
fn array(alloc: Global, element: Ty, dimensions: usize) -> Result<Ty, AllocError>
    ensures { IfOk result (λ t. ty_of t ≡ array_of dimensions (ty_of element)) }
{
    let mut ty = element;
    for _ in 0..dimensions {
        ty = Ty::Array(Boxed::new(alloc, ty)?);
    }
    Ok(ty)
}

/// The type that a text spells. A name that is cut inside a character has none, and is refused as for want of memory.
pub fn type_of_text(alloc: Global, text: &Name) -> Result<Ty, AllocError>
    ensures { IfOk result (λ t. ty_of t ≡ type_of_text text.now) }
{
    let bytes = text.as_str().as_bytes();
    let dimensions = brackets(bytes);
    let innermost = element(alloc, &bytes[dimensions..])?;
    array(alloc, innermost, dimensions)
}
