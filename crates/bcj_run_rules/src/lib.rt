//! The run of a linked image, as definitions: what each service does, and how steps and services follow one another until an end.
#![tactic(auto)]

ghost use Rattle.bcj_run_rules.specs.Laws.{RunIsOne};

/// A run of linked objects comes to one outcome.
pub fn run_is_one()
    ensures { RunIsOne }
{}
