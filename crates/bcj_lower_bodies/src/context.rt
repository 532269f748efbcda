//! What lines are made in.

ghost use Rattle.std.specs.Prelude.{◌≡◌};
ghost use Rattle.bcj_lower_rules.specs.Bodies as spec;
ghost use Rattle.bcj_lower_bodies.specs.Views.{around_of};

use bcj_symbolic_check::Body;

/// The typing of the parts of a body, and the words of its frame.
#[derive(Clone, Copy)]
pub struct Context<'a> {
    pub body: Body<'a>,
    pub frame: u16,
}

/// The labels where a loop is left, and where its next turn is prepared.
#[derive(Clone, Copy)]
pub struct Around {
    pub leave: u32,
    pub again: u32,
}

/// Outside of a loop nothing is left.
pub fn no_loop() -> Around
    ensures { around_of result ≡ spec.no_loop }
{
    Around { leave: 0, again: 0 }
}
