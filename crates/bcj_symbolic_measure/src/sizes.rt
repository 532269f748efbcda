//! The sizes of the bodies of a class.
#![tactic(auto)]

ghost use Rattle.std.specs.Prelude.{◌≡◌, map, IfOk};
ghost use Rattle.bcj_symbolic_trees.specs.Units.{method_of, class_of};
ghost use Rattle.bcj_symbolic_measure.specs.Measures as spec;

use crate::body::{init_frame, initialiser, method, method_frame};
use crate::measured::BodySize;
use crate::tally::Tally;
use crate::totals::narrow;
use bcj_symbolic_trees::{Sequence, SymClass, SymMethod};
use std::alloc::{AllocError, Global};

fn init_size(alloc: Global, class: &SymClass) -> Result<BodySize, AllocError>
    ensures { IfOk result (λ s. s ≡ spec.init_size (class_of class.now)) }
{
    let mut tally = Tally::new(alloc);
    initialiser(class, &mut tally)?;
    let frame = narrow(init_frame(class));
    let words = narrow(tally.words);
    Ok(BodySize { frame, words })
}

fn method_size(alloc: Global, class: &SymClass, one: &SymMethod) -> Result<BodySize, AllocError>
    ensures { IfOk result (λ s. s ≡ spec.method_size (class_of class.now) (method_of one.now)) }
{
    let mut tally = Tally::new(alloc);
    method(one, class, &mut tally)?;
    let frame = narrow(method_frame(one));
    let words = narrow(tally.words);
    Ok(BodySize { frame, words })
}

/// The frame and the words of each body of a class, by the code scheme with all jumps long: of the class initialiser, and then of
/// each method in the order of the class. An abstract method has 0 and 0.
pub fn body_sizes(alloc: Global, class: &SymClass) -> Result<Sequence<BodySize>, AllocError>
    ensures { IfOk result (λ sizes. sizes ≡ spec.body_sizes (class_of class.now)) }
{
    let mut sizes = Sequence::new(alloc);
    sizes.push(init_size(alloc, class)?)?;
    for one in class.methods.as_slice() {
        sizes.push(method_size(alloc, class, one)?)?;
    }
    Ok(sizes)
}
