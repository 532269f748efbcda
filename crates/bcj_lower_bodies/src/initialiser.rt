//! The body of the class initialiser.
#![tactic(auto, using(crate::proofs::Rules::code_rules))]

ghost use Rattle.std.specs.Prelude.{◌≡◌, [], ◌∷◌, ◌++◌, length, IfOk, OnOk};
ghost use Rattle.rv_steps.specs.Services as services;
ghost use Rattle.bcj_symbolic_trees.specs.Units.{class_of};
ghost use Rattle.bcj_symbolic_measure.specs.Bodies.{init_frame_size};
ghost use Rattle.bcj_symbolic_measure.specs.function.Counts.{entry_of};
ghost use Rattle.bcj_lower_rules.specs.Lines.{place};
ghost use Rattle.bcj_lower_rules.specs.Words as words;
ghost use Rattle.bcj_lower_rules.specs.Bodies as spec;
ghost use Rattle.bcj_lower_words.specs.Views.{lines_of};
ghost use Rattle.bcj_lower_bodies.specs.Views.{body_of, ranges_of, range_of};

use crate::body::{BodyCode, BodyLines};
use crate::code::Code;
use crate::context::{Context, no_loop};
use crate::range::LabelRange;
use crate::statement::statements;
use bcj_lower_words::Lines;
use bcj_symbolic_check::init_body as typing_of;
use bcj_symbolic_measure::{Entry, is_object};
use bcj_symbolic_trees::{Name, SymClass};
use rv_steps::services;
use std::alloc::{AllocError, Global};

/// The label where the range of the class initialiser begins.
const START: u32 = 0;

/// The label where it ends.
const END: u32 = 1;

/// The label where what is thrown there goes.
const TARGET: u32 = 2;

/// The first label of the statements.
const FIRST_LABEL: u32 = 3;

/// The superclass is initialised first, unless it is Object.
fn superclass<'a>(name: &'a Option<Name>, lines: &mut Lines<'a>) -> Result<(), AllocError>
    ensures { OnOk result (lines_of lines.new ≡ lines_of lines.old ++ spec.superclass_lines name.now) }
{
    match name {
        None => Ok(()),
        Some(name) => {
            if is_object(name) {
                return Ok(());
            }
            lines.use_entry(Entry::of_class(name))?;
            lines.initialise()
        }
    }
}

/// What stands before the initialisers.
fn begun<'a>(class: &'a SymClass, frame: u16, lines: &mut Lines<'a>) -> Result<(), AllocError>
    ensures { OnOk result (lines_of lines.new ≡ lines_of lines.old ++ (words.enter frame ++ (spec.zero_locals frame 0 (length (class_of class.now).init.locals) ++ (place spec.init_start ++ spec.superclass_lines (class_of class.now).head.superclass)))) }
{
    lines.enter(frame)?;
    lines.zero_locals(frame, 0, class.init.locals.len())?;
    lines.place(START)?;
    superclass(&class.head.superclass, lines)
}

/// What is thrown in the initialisers says that the class failed, and is thrown on.
fn failed<'a>(lines: &mut Lines<'a>) -> Result<(), AllocError>
    ensures { OnOk result (lines_of lines.new ≡ lines_of lines.old ++ (place spec.init_target ++ (words.region_second ++ (words.service services.init_failed ++ words.service services.throw)))) }
{
    lines.place(TARGET)?;
    lines.region_second()?;
    lines.service(services::INIT_FAILED)?;
    lines.service(services::THROW)
}

/// What stands behind the initialisers.
fn ended<'a>(frame: u16, lines: &mut Lines<'a>) -> Result<(), AllocError>
    ensures { OnOk result (lines_of lines.new ≡ lines_of lines.old ++ (words.region_first ++ (words.service services.init_done ++ (place spec.init_end ++ (words.exit frame ++ (place spec.init_target ++ (words.region_second ++ (words.service services.init_failed ++ words.service services.throw)))))))) }
{
    lines.region_first()?;
    lines.service(services::INIT_DONE)?;
    lines.place(END)?;
    lines.exit(frame)?;
    failed(lines)
}

/// The range of the whole initialiser, for whatever is thrown.
fn guard<'a>(ranges: &mut Vec<LabelRange<'a>>) -> Result<(), AllocError>
    ensures { OnOk result (ranges_of ranges.new.items ≡ ranges_of ranges.old.items ++ spec.init_range ∷ []) }
{
    ranges.push(LabelRange {
        start: START,
        end: END,
        target: TARGET,
        class: None,
    })?;
    Ok(())
}

/// The body of the class initialiser, with its frame.
pub fn initialiser<'a>(
    alloc: Global,
    class: &'a SymClass,
    frame: u16,
) -> Result<BodyCode<'a>, AllocError>
    requires { frame ≡ init_frame_size (class_of class.now) }
    ensures { IfOk result (λ b. body_of b ≡ spec.init_body (class_of class.now)) }
{
    let body = typing_of(class);
    let context = Context { body, frame };
    let mut code = Code::new(alloc);
    begun(class, frame, &mut code.lines)?;
    statements(
        class.init.body.as_slice(),
        FIRST_LABEL,
        no_loop(),
        &context,
        &mut code,
    )?;
    ended(frame, &mut code.lines)?;
    guard(&mut code.ranges)?;
    let Code { lines, ranges } = code;
    Ok(BodyCode::WithCode(BodyLines {
        frame,
        lines,
        ranges,
    }))
}
