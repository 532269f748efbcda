//! Questions of a hierarchy.
ghost use Rattle.std.specs.Prelude.{IfSome};
ghost use Rattle.bcj_hier_rules.specs.Heads.{IsIn, IsRooted};
ghost use Rattle.bcj_hier_rows.specs.Loaded.{IsLoaded};

use crate::mixture::are_rooted;
use crate::text::Text;
use crate::words::{put_name, put_option, put_refusal, put_result, put_truth, ty};
use bcj_hier::{ClassHead, ClassId, Heads, Hier, build};
use bcj_names::Name;
use std::alloc::{AllocError, Global};

/// What stands between the words of a question.
const BETWEEN: char = ' ';

/// This type, where it loads.
fn loaded(hier: &Hier, class: ClassId) -> Option<ClassId>
    requires { IsIn hier.now class }
    ensures { IfSome result (IsLoaded hier.now) }
{
    match hier.load(class) {
        Ok(()) => Some(class),
        Err(_) => None,
    }
}

/// The type of a name, where it is there and loads.
fn loaded_named(hier: &Hier, name: &Name) -> Option<ClassId>
    ensures { IfSome result (IsLoaded hier.now) }
{
    match hier.find(name) {
        None => None,
        Some(class) => loaded(hier, class),
    }
}

fn find(out: &mut Text, hier: &Hier, name: &Name) {
    match hier.find(name) {
        None => out.put("none"),
        Some(class) => out.put_number(class.0 as usize),
    }
}

fn load(out: &mut Text, hier: &Hier, name: &Name) {
    match hier.find(name) {
        None => out.put("none"),
        Some(class) => put_result(out, hier.load(class), "loads"),
    }
}

/// The class behind this one in preorder, where this is a number of a type that loads.
fn step(hier: &Hier, class: ClassId) -> Option<ClassId> {
    if class.0 as usize >= hier.len() {
        return None;
    }
    match loaded(hier, class) {
        None => None,
        Some(class) => hier.next_in_tree(class),
    }
}

/// The names of this class and of those behind it in preorder, and `none` at the end.
fn walk(out: &mut Text, hier: &Hier, heads: &[ClassHead], first: ClassId) {
    let mut class = Some(first);
    for _ in heads {
        if let Some(here) = class {
            put_name(out, heads, here);
            out.put(" ");
            class = step(hier, here);
        }
    }
    put_option(out, heads, class);
}

/// The answer to a question of one type that loads.
fn of_class(out: &mut Text, hier: &Hier, heads: &[ClassHead], what: &str, class: ClassId)
    requires { IsLoaded hier.now class }
{
    match what {
        "parent" => put_option(out, heads, hier.parent(class)),
        "low" => out.put_number(hier.low(class) as usize),
        "high" => out.put_number(hier.high(class) as usize),
        "next" => put_option(out, heads, hier.next_in_tree(class)),
        "walk" => walk(out, hier, heads, class),
        _ => out.put("not a question"),
    }
}

/// The answer to a question of one name.
fn of_name(
    alloc: Global,
    out: &mut Text,
    hier: &Hier,
    heads: &[ClassHead],
    what: &str,
    word: &str,
) -> Result<(), AllocError> {
    let name = Name::from_str(alloc, word)?;
    match what {
        "find" => find(out, hier, &name),
        "load" => load(out, hier, &name),
        _ => match loaded_named(hier, &name) {
            None => out.put("not loaded"),
            Some(class) => of_class(out, hier, heads, what, class),
        },
    }
    Ok(())
}

/// The answer to a question of two types that load.
fn of_classes(out: &mut Text, hier: &Hier, what: &str, one: ClassId, other: ClassId)
    requires one { IsLoaded hier.now one }
    requires other { IsLoaded hier.now other }
{
    match what {
        "subclass" => put_truth(out, hier.is_subclass(one, other)),
        "implements" => put_truth(out, hier.implements(one, other)),
        _ => out.put("not a question"),
    }
}

fn pair(
    alloc: Global,
    out: &mut Text,
    hier: &Hier,
    one: &str,
    other: &str,
) -> Result<(), AllocError> {
    let one = ty(alloc, one)?;
    let other = ty(alloc, other)?;
    put_result(out, hier.pair(&one, &other), "holds");
    Ok(())
}

/// The answer to a question of two types.
fn of_two(
    alloc: Global,
    out: &mut Text,
    hier: &Hier,
    what: &str,
    one: &str,
    other: &str,
) -> Result<(), AllocError> {
    if what == "pair" {
        return pair(alloc, out, hier, one, other);
    }
    let one = loaded_named(hier, &Name::from_str(alloc, one)?);
    let other = loaded_named(hier, &Name::from_str(alloc, other)?);
    match (one, other) {
        (Some(one), Some(other)) => of_classes(out, hier, what, one, other),
        (_, _) => out.put("not loaded"),
    }
    Ok(())
}

/// `count`, `WHAT NAME` or `WHAT TYPE TYPE`
fn asked(
    alloc: Global,
    out: &mut Text,
    hier: &Hier,
    heads: &[ClassHead],
    question: &str,
) -> Result<(), AllocError> {
    match question.split_once(BETWEEN) {
        None => {
            out.put_number(hier.len());
            Ok(())
        }
        Some((what, words)) => match words.split_once(BETWEEN) {
            None => of_name(alloc, out, hier, heads, what, words),
            Some((one, other)) => of_two(alloc, out, hier, what, one, other),
        },
    }
}

fn of_rooted(alloc: Global, out: &mut Text, heads: &Heads, question: &str) -> Result<(), AllocError>
    requires { IsRooted heads.now }
{
    match build(alloc, heads) {
        Err(stop) => {
            put_refusal(out, &stop);
            Ok(())
        }
        Ok(hier) => asked(alloc, out, &hier, heads.as_slice(), question),
    }
}

/// The answer to a question of the hierarchy of these heads, or why they have none.
pub fn answer(alloc: Global, heads: &Heads, question: &str) -> Result<String, AllocError> {
    let mut out = Text::new(alloc);
    if are_rooted(heads.as_slice()) {
        of_rooted(alloc, &mut out, heads, question)?;
    } else {
        out.put("not rooted");
    }
    out.ended()
}
