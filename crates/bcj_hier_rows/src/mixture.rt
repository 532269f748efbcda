//! The heads of which rows ask.
ghost use Rattle.std.specs.Prelude.{◌≡◌, [], false, true};
ghost use Rattle.std.specs.List.{list_all};
ghost use Rattle.bcj_symbolic_trees.specs.Names.{object_name};
ghost use Rattle.bcj_hier_rules.specs.Heads.{IsRooted, is_placed};

use crate::head::{class, interface};
use bcj_hier::{ClassHead, Heads};
use bcj_names::Name;
use bcj_symbolic_boot::boot;
use bcj_symbolic_trees::{OBJECT, Sequence};
use std::alloc::{AllocError, Global};

/// The most classes of a chain.
const LONGEST_CHAIN: u32 = 5000;

fn push_boot(alloc: Global, heads: &mut Heads) -> Result<(), AllocError> {
    for class in boot(alloc)?.classes.into_vec() {
        heads.push(class.head)?;
    }
    Ok(())
}

/// The class with this number of a chain: it extends the class before, and the first one extends Object.
fn link(alloc: Global, name: &str, number: u32) -> Result<ClassHead, AllocError> {
    let superclass = match number.checked_sub(1) {
        None => String::from_str(alloc, OBJECT)?,
        Some(before) => format!(in alloc; "{name}{before}")?,
    };
    Ok(ClassHead {
        name: Name::of(format!(in alloc; "{name}{number}")?),
        interface: false,
        is_abstract: false,
        superclass: Some(Name::of(superclass)),
        interfaces: Sequence::new(alloc),
    })
}

/// `COUNT NAME`
fn push_chain(alloc: Global, heads: &mut Heads, words: &str) -> Result<(), AllocError> {
    let (count, name) = words.split_once(' ').unwrap_or(("0", words));
    let count = count.parse().unwrap_or(0);
    for number in 0..LONGEST_CHAIN.min(count) {
        heads.push(link(alloc, name, number)?)?;
    }
    Ok(())
}

/// Adds the heads that a line names, and says whether it is such a line.
fn push_named(
    alloc: Global,
    heads: &mut Heads,
    kind: &str,
    words: &str,
) -> Result<bool, AllocError> {
    match kind {
        "class" => heads.push(class(alloc, words)?)?,
        "interface" => heads.push(interface(alloc, words)?)?,
        "chain" => push_chain(alloc, heads, words)?,
        _ => return Ok(false),
    }
    Ok(true)
}

/// Begins the heads anew or adds some, as a line tells, and says whether it is such a line.
pub fn take(alloc: Global, heads: &mut Heads, line: &str) -> Result<bool, AllocError> {
    match line {
        "nothing" => {
            *heads = Sequence::new(alloc);
            Ok(true)
        }
        "boot" => {
            push_boot(alloc, heads)?;
            Ok(true)
        }
        _ => match line.split_once(' ') {
            None => Ok(false),
            Some((kind, words)) => push_named(alloc, heads, kind, words),
        },
    }
}

/// Whether it has a superclass exactly where it should: Object and interfaces have none.
fn has_its_place(head: &ClassHead) -> bool
    ensures { result ≡ is_placed head.now }
{
    let is_top = head.interface || head.name.as_str() == OBJECT;
    head.superclass.is_none() == is_top
}

/// Whether it is the head of Object, without superinterfaces.
fn is_top(head: &ClassHead) -> bool
    ensures named { result ≡ true → head.now.name ≡ object_name }
    ensures class { result ≡ true → head.now.interface ≡ false }
    ensures alone { result ≡ true → head.now.interfaces ≡ [] }
{
    if head.interface || head.interfaces.len() != 0 {
        return false;
    }
    head.name.as_str() == OBJECT
}

fn have_their_places(heads: &[ClassHead]) -> bool
    ensures { result ≡ list_all is_placed heads.now }
{
    heads.iter().all(|head| has_its_place(head))
}

/// Whether Object stands first, and exactly it and interfaces have no superclass.
pub fn are_rooted(heads: &[ClassHead]) -> bool
    ensures { result ≡ true → IsRooted heads.now }
{
    match heads {
        [] => false,
        [top, ..] => {
            if !is_top(top) {
                return false;
            }
            have_their_places(heads)
        }
    }
}
