//! A walk over the nodes of a class in preorder.

ghost use Rattle.std.specs.Prelude.{◌≡◌, true};
ghost use Rattle.bcj_symbolic_check.specs.function.Walks as spec;

/// The place of the next node, and that of the first node that has no rule.
#[derive(Clone, Copy)]
pub struct Walk {
    pub place: u32,
    pub fault: Option<u32>,
}

impl Walk {
    /// The walk that stands before a class.
    #[tactic(auto, unfolding(crate::specs::function::Walks::started))]
    pub fn start() -> Walk
        ensures { result ≡ spec.started }
    {
        Walk {
            place: 0,
            fault: None,
        }
    }

    /// Goes past the next node as if it had a rule, and gives the walk that stood before it.
    #[tactic(auto, unfolding(crate::specs::function::Walks::stepped))]
    pub fn enter(&mut self) -> Walk
        ensures before { result ≡ self.old }
        ensures after { self.new ≡ spec.stepped self.old true }
    {
        let before = *self;
        self.place = before.place.saturating_add(1);
        before
    }

    /// Says whether the node before which `before` stood has a rule.
    #[tactic(auto, unfolding(crate::specs::function::Walks::settled))]
    pub fn settle(&mut self, before: Walk, holds: bool)
        ensures { self.new ≡ spec.settled before holds self.old }
    {
        if !holds {
            self.fault = Some(before.fault.unwrap_or(before.place));
        }
    }
}
