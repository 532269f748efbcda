//! The classes of a unit, each with its code and where it stands in the object.

ghost use Rattle.std.specs.Prelude.{◌≡◌, map, IfOk};
ghost use Rattle.bcj_symbolic_trees.specs.Units.{class_of};
ghost use Rattle.bcj_lower_rules.specs.Classes.{code_of};
ghost use Rattle.bcj_lower.specs.Views.{code_in};
ghost use Rattle.bcj_object_rules.specs.Objects as spec;
ghost use Rattle.bcj_object.specs.function.Views.{placed_in, place_behind};

use crate::numbers::{bytes, plus};
use bcj_lower::{ClassCode, lower};
use bcj_symbolic_trees::SymClass;
use std::alloc::{AllocError, Global};

/// A class with its code and its place.
#[derive(Drop)]
pub struct PlacedClass<'a> {
    pub class: &'a SymClass,
    pub code: ClassCode<'a>,
    pub place: Place,
}

/// The number of a class from 0, and the offsets of its code in `.text` and of its tables in `.bcj.tab`.
#[derive(Clone, Copy)]
pub struct Place {
    pub number: u32,
    pub text: u32,
    pub tab: u32,
}

/// The bytes of a class's code.
pub fn text_size<'a>(code: &ClassCode<'a>) -> Result<u32, AllocError>
    ensures { IfOk result (λ n. n ≡ spec.text_size (code_in code.now)) }
{
    bytes(code.words.len())
}

/// The word of the class initialiser's address, which begins a class's tables.
const INITIALISER_WORD: usize = 1;

/// The bytes of a class's tables.
pub fn tab_size<'a>(code: &ClassCode<'a>) -> Result<u32, AllocError>
    ensures { IfOk result (λ n. n ≡ spec.tab_size (code_in code.now)) }
{
    let classes = bytes(code.ctable.len())?;
    let offsets = bytes(code.otable.len())?;
    let addresses = bytes(code.atable.len())?;
    let methods = bytes(code.itable.len())?;
    let first = plus(bytes(INITIALISER_WORD)?, classes)?;
    plus(plus(plus(first, offsets)?, addresses)?, methods)
}

/// The place behind a class's code and tables.
fn behind<'a>(place: Place, code: &ClassCode<'a>) -> Result<Place, AllocError>
    ensures { IfOk result (λ next. next ≡ place_behind place (code_in code.now)) }
{
    Ok(Place {
        number: plus(place.number, 1)?,
        text: plus(place.text, text_size(code)?)?,
        tab: plus(place.tab, tab_size(code)?)?,
    })
}

/// The code of a class within the limits, but for want of memory.
fn lowered<'a>(alloc: Global, class: &'a SymClass) -> Result<ClassCode<'a>, AllocError>
    ensures { IfOk result (λ code. code_in code ≡ code_of (class_of class.now)) }
{
    match lower(alloc, class) {
        Err(_) => Err(AllocError),
        Ok(code) => Ok(code),
    }
}

/// The classes one behind the other.
pub fn placed<'a>(
    alloc: Global,
    classes: &'a [SymClass],
) -> Result<Vec<PlacedClass<'a>>, AllocError>
    ensures { IfOk result (λ ps. map placed_in ps.items ≡ spec.placed 0 0 0 (map class_of classes.now)) }
{
    let mut all = Vec::new(alloc);
    let mut next = Place {
        number: 0,
        text: 0,
        tab: 0,
    };
    for class in classes {
        let code = lowered(alloc, class)?;
        let place = next;
        next = behind(place, &code)?;
        all.push(PlacedClass { class, code, place })?;
    }
    Ok(all)
}
