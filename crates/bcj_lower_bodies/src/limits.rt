//! The limits of a body.

ghost use Rattle.std.specs.Prelude.{◌≡◌, map, Some, None, IfOk, OnOk, IfErr};
ghost use Rattle.bcj_lower_bodies.specs.function.Sizes as spec;
ghost use Rattle.bcj_lower_bodies.specs.Stops.{IsStop};

use crate::stop::LowerStop;
use bcj_lower_rules::Limit;
use bcj_symbolic_measure::BodySize;
use std::alloc::{AllocError, Global};

/// The most words of a frame.
const MAX_FRAME: u32 = 508;

/// The most words of a body's code.
const MAX_WORDS: u32 = 200_000;

/// The frame of a body within its limits, or the first number that passes its limit.
fn frame_within(size: &BodySize) -> Result<u16, Limit>
    ensures frame { IfOk result (λ f. f ≡ size.now.frame) }
    ensures within { OnOk result (spec.size_excess size.now ≡ None) }
    ensures passed { IfErr result (λ l. spec.size_excess size.now ≡ Some l) }
{
    if MAX_FRAME < size.frame {
        return Err(Limit::Frame);
    }
    if MAX_WORDS < size.words {
        return Err(Limit::Method);
    }
    Ok(size.frame as u16)
}

/// The frames of bodies that are all within their limits.
pub fn frames_within(alloc: Global, sizes: &[BodySize]) -> Result<Vec<u16>, LowerStop>
    ensures frames { IfOk result (λ fs. fs.items ≡ spec.frames_of sizes.now) }
    ensures within { OnOk result (spec.sizes_excess sizes.now ≡ None) }
    ensures too_large { IfErr result (λ e. IsStop (spec.sizes_excess sizes.now) e) }
{
    let mut frames = Vec::new(alloc);
    for size in sizes {
        match frame_within(size) {
            Ok(frame) => frames.push(frame).map_err(AllocError::from)?,
            Err(what) => return Err(LowerStop::TooLarge { what }),
        }
    }
    Ok(frames)
}
