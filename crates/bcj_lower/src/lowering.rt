//! The code of a class.

ghost use Rattle.std.specs.Prelude.{◌≡◌, None, map, IfErr, IfOk, OnOk};
ghost use Rattle.bcj_symbolic_trees.specs.Units.{class_of};
ghost use Rattle.bcj_lower_rules.specs.Bodies.{bodies_of, first_excess};
ghost use Rattle.bcj_lower_rules.specs.Classes.{code_of, code_of_bodies};
ghost use Rattle.bcj_lower_bodies.specs.Views.{body_of};
ghost use Rattle.bcj_lower_bodies.specs.Stops.{IsExcess};
ghost use Rattle.bcj_lower.specs.Views.{code_in};

use crate::code::ClassCode;
use crate::emitting::{Emitted, emit};
use crate::tables::{Tables, tables_of};
use bcj_lower_bodies::{BodyCode, LowerStop, bodies};
use bcj_symbolic_trees::SymClass;
use std::alloc::{AllocError, Global};

/// The code of bodies: all that they use is numbered first.
fn code_of_bodies<'a>(alloc: Global, bodies: &[BodyCode<'a>]) -> Result<ClassCode<'a>, AllocError>
    ensures { IfOk result (λ code. code_in code ≡ code_of_bodies (map body_of bodies.now)) }
{
    let tables = tables_of(alloc, bodies)?;
    let emitted = emit(alloc, &tables, bodies)?;
    let Emitted {
        words,
        relocs,
        methods,
        ranges,
    } = emitted;
    let Tables {
        classes,
        offsets,
        addresses,
        interfaces,
    } = tables;
    Ok(ClassCode {
        words,
        relocs,
        methods,
        ranges,
        ctable: classes,
        otable: offsets,
        atable: addresses,
        itable: interfaces,
    })
}

/// The code of a class by the code scheme, or the first of its numbers that passes a limit: of the class initialiser and then of each
/// method the frame before the words.
pub fn lower<'a>(alloc: Global, class: &'a SymClass) -> Result<ClassCode<'a>, LowerStop>
    ensures ok { IfOk result (λ code. code_in code ≡ code_of (class_of class.now)) }
    ensures within { OnOk result (first_excess (bodies_of (class_of class.now)) ≡ None) }
    ensures too_large { IfErr result (λ e. IsExcess (bodies_of (class_of class.now)) e) }
{
    let bodies = bodies(alloc, class)?;
    Ok(code_of_bodies(alloc, bodies.as_slice())?)
}
