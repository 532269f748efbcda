//! The bodies of methods.
#![tactic(auto, using(crate::proofs::Rules::code_rules))]

ghost use Rattle.std.specs.Prelude.{◌≡◌, ◌++◌, IfOk, OnOk};
ghost use Rattle.bcj_symbolic_trees.specs.Types.{ty_of};
ghost use Rattle.bcj_symbolic_trees.specs.Units.{method_of, class_of};
ghost use Rattle.bcj_symbolic_measure.specs.Bodies.{method_frame_size};
ghost use Rattle.bcj_lower_rules.specs.Bodies as spec;
ghost use Rattle.bcj_lower_rules.specs.Ranges.{stmts_ranges};
ghost use Rattle.bcj_lower_words.specs.Views.{lines_of};
ghost use Rattle.bcj_lower_bodies.specs.Views.{body_of, ranges_of};

use crate::body::{BodyCode, BodyLines};
use crate::code::Code;
use crate::context::{Context, no_loop};
use crate::statement::statements;
use bcj_lower_words::Lines;
use bcj_symbolic_check::method_body as typing_of;
use bcj_symbolic_measure::{hidden_parameters, is_abstract};
use bcj_symbolic_trees::{SymClass, SymMethod, Ty};
use std::alloc::{AllocError, Global};

/// The first label of a method.
const FIRST_LABEL: u32 = 0;

/// How many locals stand before those that become zero.
fn parameters(method: &SymMethod) -> Result<usize, AllocError>
    ensures { IfOk result (λ n. n ≡ spec.parameters (method_of method.now)) }
{
    let hidden = hidden_parameters(method.kind);
    hidden.checked_add(method.params.len()).ok_or(AllocError)
}

/// A method with a result that runs off its end gives zero.
fn last_value<'a>(result_type: &Ty, lines: &mut Lines<'a>) -> Result<(), AllocError>
    ensures { OnOk result (lines_of lines.new ≡ lines_of lines.old ++ spec.last_value (ty_of result_type.now)) }
{
    match result_type {
        Ty::Void => Ok(()),
        Ty::Int | Ty::Bool | Ty::Class(_) | Ty::Array(_) => lines.small_number(0),
    }
}

/// The code of a method that has some.
fn method_code<'a>(
    alloc: Global,
    class: &'a SymClass,
    method: &'a SymMethod,
    frame: u16,
) -> Result<BodyLines<'a>, AllocError>
    requires { frame ≡ method_frame_size (method_of method.now) }
    ensures frame { IfOk result (λ b. b.frame ≡ frame) }
    ensures lines { IfOk result (λ b. lines_of b.lines ≡ spec.method_lines (class_of class.now) (method_of method.now)) }
    ensures ranges { IfOk result (λ b. ranges_of b.ranges.items ≡ stmts_ranges 0 (method_of method.now).body) }
{
    let body = typing_of(class, method);
    let context = Context { body, frame };
    let first = parameters(method)?;
    let zeroed = method.locals.len().saturating_sub(first);
    let mut code = Code::new(alloc);
    code.lines.enter(frame)?;
    code.lines.zero_locals(frame, first, zeroed)?;
    statements(
        method.body.as_slice(),
        FIRST_LABEL,
        no_loop(),
        &context,
        &mut code,
    )?;
    last_value(&method.result, &mut code.lines)?;
    code.lines.exit(frame)?;
    let Code { lines, ranges } = code;
    Ok(BodyLines {
        frame,
        lines,
        ranges,
    })
}

/// The body of a method, with its frame.
pub fn method_body<'a>(
    alloc: Global,
    class: &'a SymClass,
    method: &'a SymMethod,
    frame: u16,
) -> Result<BodyCode<'a>, AllocError>
    requires { frame ≡ method_frame_size (method_of method.now) }
    ensures { IfOk result (λ b. body_of b ≡ spec.method_body (class_of class.now) (method_of method.now)) }
{
    if is_abstract(method.kind) {
        return Ok(BodyCode::WithoutCode);
    }
    Ok(BodyCode::WithCode(method_code(alloc, class, method, frame)?))
}
