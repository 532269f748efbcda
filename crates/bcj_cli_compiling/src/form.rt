// The words of a compilation.
ghost use Rattle.std.specs.Prelude.{◌↔◌, IsTrue, IsSome};
ghost use Rattle.bcj_cli_compiling.specs.Form.{compilation_of};

use bcj_edge::Words;

/// The word that names the object of a compilation.
pub const OBJECT: usize = 1;

/// The first of the words that name its sources.
pub const FIRST_SOURCE: usize = 2;

/// Whether the words are `compile OUT UNIT CONTEXT*`.
pub fn asks_to_compile(words: &Words) -> bool
    ensures { IsTrue result ↔ IsSome (compilation_of words.now) }
{
    match words.get(0) {
        Some(name) => name == "compile" && words.len() > FIRST_SOURCE,
        None => false,
    }
}
