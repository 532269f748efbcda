//! The bodies of a class.
#![tactic(auto)]

ghost use Rattle.std.specs.Prelude.{◌≡◌, map, None, IfOk, OnOk, IfErr};
ghost use Rattle.bcj_symbolic_trees.specs.Units.{class_of};
ghost use Rattle.bcj_lower_rules.specs.Bodies.{bodies_of, first_excess};
ghost use Rattle.bcj_lower_bodies.specs.Views.{body_of};
ghost use Rattle.bcj_lower_bodies.specs.Stops.{IsExcess};
ghost use Rattle.bcj_lower_bodies.specs.function.Sizes.{class_frames};

use crate::body::BodyCode;
use crate::initialiser::initialiser;
use crate::limits::frames_within;
use crate::method::method_body;
use crate::stop::LowerStop;
use bcj_lower_rules::long_is_measured;
use bcj_symbolic_measure::body_sizes;
use bcj_symbolic_trees::SymClass;
use std::alloc::{AllocError, Global};

/// The frames of a class whose bodies are all within their limits.
fn frames_of(alloc: Global, class: &SymClass) -> Result<Vec<u16>, LowerStop>
    ensures frames { IfOk result (λ fs. fs.items ≡ class_frames (class_of class.now)) }
    ensures within { OnOk result (first_excess (bodies_of (class_of class.now)) ≡ None) }
    ensures too_large { IfErr result (λ e. IsExcess (bodies_of (class_of class.now)) e) }
{
    long_is_measured();
    let sizes = body_sizes(alloc, class)?;
    frames_within(alloc, sizes.as_slice())
}

/// The bodies of a class, each with its frame.
fn with_frames<'a>(
    alloc: Global,
    class: &'a SymClass,
    frames: &[u16],
) -> Result<Vec<BodyCode<'a>>, AllocError>
    requires { frames.now ≡ class_frames (class_of class.now) }
    ensures { IfOk result (λ bs. map body_of bs.items ≡ bodies_of (class_of class.now)) }
{
    let mut all = Vec::new(alloc);
    all.push(initialiser(alloc, class, frames[0])?)?;
    for (at, method) in class.methods.as_slice().iter().enumerate() {
        all.push(method_body(alloc, class, method, frames[at + 1])?)?;
    }
    Ok(all)
}

/// The bodies of a class, that of the class initialiser first and then those of its methods in their order.
///
/// Where one passes a limit, the first number of the first such body is answered before any code is made.
pub fn bodies<'a>(alloc: Global, class: &'a SymClass) -> Result<Vec<BodyCode<'a>>, LowerStop>
    ensures ok { IfOk result (λ bs. map body_of bs.items ≡ bodies_of (class_of class.now)) }
    ensures within { OnOk result (first_excess (bodies_of (class_of class.now)) ≡ None) }
    ensures too_large { IfErr result (λ e. IsExcess (bodies_of (class_of class.now)) e) }
{
    let frames = frames_of(alloc, class)?;
    let all = with_frames(alloc, class, frames.as_slice())?;
    Ok(all)
}
