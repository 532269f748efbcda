//! What the code does.

ghost use Rattle.bcj_cli_code.specs.Correct.{Correct, Sizes};
ghost use Rattle.bcj_cli_code.specs.Rows.{Rows};

/// For every bounded program that is not too long the run of its words is its meaning, and there is one.
pub fn run_is_meaning()
    ensures { Correct }
{}

/// The words of a program by its nodes.
pub fn words_are_counted()
    ensures { Sizes }
{}

/// Runs of small programs, worked out by hand.
pub fn small_runs()
    ensures { Rows }
{}
