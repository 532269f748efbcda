//! How many words a program takes.

ghost use Rattle.std.specs.Prelude.{◌≡◌, ◌+◌, ◌<◌, ◌≤◌, false, length, MatchOption, IsTrue};
ghost use Rattle.bcj_cli_language.specs.Plain.{sum_of, test_of, act_of, acts_of};
ghost use Rattle.bcj_cli_code.specs.function.Code.{comparison_code};
ghost use Rattle.bcj_cli_code.specs.Sizes.{sum_words, test_words, act_words, acts_words, count_words, max_words};

use bcj_cli_language::{Comparison, Condition, Expression, Statement};

/// The most words that a program may have.
const MAX_WORDS: usize = 200_000;

// The words that a node has beside those of its parts.
const OWN_NUMBER: usize = 2;

const OWN_LOCAL: usize = 1;

const OWN_BINARY: usize = 4;

const OWN_TEST: usize = 3;

const OWN_PRINT: usize = 9;

const OWN_STORE: usize = 1;

const OWN_CHOOSE: usize = 3;

const OWN_REPEAT: usize = 8;

const OWN_PROGRAM: usize = 12;

/// Whether a program has more words than it may have.
pub fn is_too_long(body: &[Statement]) -> bool
    ensures short { result ≡ false → count_words (acts_of body.now) ≤ max_words }
    ensures long { IsTrue result → max_words < count_words (acts_of body.now) }
{
    room_behind_all(body, MAX_WORDS - OWN_PROGRAM).is_none()
}

/// How many of `room` words an expression leaves, where it takes no more.
#[tactic(auto, using(bcj_cli_language::proofs::PlainLemmas::tree_rules))]
fn room_behind_sum(e: &Expression, room: usize) -> Option<usize>
    ensures { MatchOption result (room < sum_words (sum_of e.now)) (λ left. left + sum_words (sum_of e.now) ≡ room) }
{
    match e {
        Expression::Number(_) => room.checked_sub(OWN_NUMBER),
        Expression::Local(_) => room.checked_sub(OWN_LOCAL),
        Expression::Binary(_, left, right) => {
            let room = room_behind_sum(left.get(), room)?;
            room_behind_sum(right.get(), room)?.checked_sub(OWN_BINARY)
        }
    }
}

fn comparison_length(comparison: Comparison) -> usize
    ensures { result ≡ length (comparison_code comparison) }
{
    match comparison {
        Comparison::Less | Comparison::Greater => 1,
        Comparison::LessEqual
        | Comparison::GreaterEqual
        | Comparison::Equal
        | Comparison::NotEqual => 2,
    }
}

fn room_behind_test(c: &Condition, room: usize) -> Option<usize>
    ensures { MatchOption result (room < test_words (test_of c.now)) (λ left. left + test_words (test_of c.now) ≡ room) }
{
    let room = room_behind_sum(&c.left, room)?;
    let room = room_behind_sum(&c.right, room)?;
    room.checked_sub(OWN_TEST + comparison_length(c.comparison))
}

#[cycle(size)]
#[tactic(auto, using(bcj_cli_language::proofs::PlainLemmas::tree_rules))]
fn room_behind(s: &Statement, room: usize) -> Option<usize>
    ensures { MatchOption result (room < act_words (act_of s.now)) (λ left. left + act_words (act_of s.now) ≡ room) }
{
    match s {
        Statement::Print(e) => room_behind_sum(e, room)?.checked_sub(OWN_PRINT),
        Statement::Declare(_, e) | Statement::Assign(_, e) => {
            room_behind_sum(e, room)?.checked_sub(OWN_STORE)
        }
        Statement::If(c, first, second) => {
            let room = room_behind_test(c, room)?;
            let room = room_behind_all(first.as_slice(), room)?;
            room_behind_all(second.as_slice(), room)?.checked_sub(OWN_CHOOSE)
        }
        Statement::While(c, body) => {
            let room = room_behind_test(c, room)?;
            room_behind_all(body.as_slice(), room)?.checked_sub(OWN_REPEAT)
        }
    }
}

#[cycle(size)]
fn room_behind_all(block: &[Statement], room: usize) -> Option<usize>
    ensures { MatchOption result (room < acts_words (acts_of block.now)) (λ left. left + acts_words (acts_of block.now) ≡ room) }
{
    let mut left = room;
    for s in block {
        left = room_behind(s, left)?;
    }
    Some(left)
}
