// The words of a command.
ghost use Rattle.std.specs.Prelude.{◌≡◌, ◌<◌, ◌≤◌, ◌+◌, ◌*◌, ◌^◌, List, [], ◌∷◌, MatchOption, min, IsTrue, Option, length};
ghost use Rattle.std.specs.Prelude.{Bool, None};
ghost use Rattle.std.specs.List.{list_all};
ghost use Rattle.bcj_names.specs.Identifiers.{is_digit};
ghost use Rattle.bcj_cli_language.specs.Bounds.{max_turns};
ghost use Rattle.bcj_cli.specs.Command.{request_of, is_numeral, numeral_value, is_turns, begins_with_dash, AsksFor};

use bcj_edge::Words;

/// How many turns words may name, which a run has where they name none.
const MAX_TURNS: u32 = 2_147_483_647;

/// The base of decimal digits.
const RADIX: u64 = 10;

/// `try [--turns N] MAIN FILE`
#[derive(Clone, Copy)]
pub struct Request<'a> {
    pub main: &'a str,
    pub file: &'a str,
    /// At most `max_turns`.
    pub turns: u32,
}

/// What the words ask to be run, where they have the form of that.
pub fn read_words<'a>(words: &'a Words) -> Option<Request<'a>>
    ensures { MatchOption result (request_of words.entry.now ≡ None)
        (λ r. AsksFor words.entry.now r.main.now r.file.now r.turns) }
{
    match words.len() {
        3 => plain(words.get(0)?, words.get(1)?, words.get(2)?),
        5 => limited(
            words.get(0)?,
            words.get(1)?,
            words.get(2)?,
            words.get(3)?,
            words.get(4)?,
        ),
        _ => None,
    }
}

fn plain<'a>(name: &'a str, main: &'a str, file: &'a str) -> Option<Request<'a>>
    ensures { MatchOption result (request_of (name.entry.now ∷ main.entry.now ∷ file.entry.now ∷ []) ≡ None)
        (λ r. AsksFor (name.entry.now ∷ main.entry.now ∷ file.entry.now ∷ []) r.main.now r.file.now r.turns) }
{
    if name == "try" && !has_dash(main) {
        Some(Request {
            main,
            file,
            turns: MAX_TURNS,
        })
    } else {
        None
    }
}

fn limited<'a>(
    name: &'a str,
    option: &'a str,
    turns: &'a str,
    main: &'a str,
    file: &'a str,
) -> Option<Request<'a>>
    ensures { MatchOption result
        (request_of (name.entry.now ∷ option.entry.now ∷ turns.entry.now ∷ main.entry.now ∷ file.entry.now ∷ []) ≡ None)
        (λ r. AsksFor (name.entry.now ∷ option.entry.now ∷ turns.entry.now ∷ main.entry.now ∷ file.entry.now ∷ []) r.main.now r.file.now r.turns) }
{
    if name == "try" && option == "--turns" && !has_dash(main) {
        let turns = turns_of(turns)?;
        Some(Request { main, file, turns })
    } else {
        None
    }
}

fn has_dash(word: &str) -> bool
    ensures { result ≡ begins_with_dash word.now }
{
    match word.as_bytes() {
        [] => false,
        [first, ..] => *first == b'-',
    }
}

fn turns_of(word: &str) -> Option<u32>
    ensures { MatchOption result (is_turns word.now ≡ Bool.false) (λ n. (is_turns word.now ≡ Bool.true) × (n ≡ numeral_value word.now)) }
{
    let digits = word.as_bytes();
    if !is_decimal(digits) {
        return None;
    }
    let value = value(digits);
    if value <= MAX_TURNS {
        Some(value)
    } else {
        None
    }
}

fn is_decimal(digits: &[u8]) -> bool
    ensures { result ≡ is_numeral digits.now }
{
    !digits.is_empty() && are_digits(digits) && (digits[0] != b'0' || digits.len() == 1)
}

fn are_digits(bytes: &[u8]) -> bool
    ensures { result ≡ list_all is_digit bytes.now }
{
    bytes.iter().all(|b| b'0' <= *b && *b <= b'9')
}

// The value of the digits, or one more than words may name where it is more.
#[tactic(auto, using(std::proofs::lemmas::List::Sums::fold_more))]
fn value(digits: &[u8]) -> u32
    ensures { result ≡ min (numeral_value digits.now) (max_turns + 1) }
{
    let mut value = 0u64;
    for digit in digits {
        value = (value * RADIX + u64::from(digit.saturating_sub(b'0'))).min(
            u64::from(MAX_TURNS) + 1,
        );
    }
    value as u32
}
