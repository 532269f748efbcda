ghost use Rattle.std.specs.Prelude.{◌≡◌, is_some};
ghost use Rattle.bcj_cli_shown.specs.Form.{shown_file};

use bcj_edge::Words;

/// How many words ask for the text of an object, and which of them is its file.
const WORDS: usize = 2;

pub const OBJECT: usize = 1;

/// Whether the words have the form `show OBJECT`.
pub fn asks_to_show(words: &Words) -> bool
    ensures { result ≡ is_some (shown_file words.now) }
{
    if words.len() != WORDS {
        return false;
    }
    match words.get(0) {
        None => false,
        Some(name) => name == "show",
    }
}
