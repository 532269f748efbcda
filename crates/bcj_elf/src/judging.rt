//! The first bad field of a file.

ghost use Rattle.std.specs.Prelude.{◌≡◌};
ghost use Rattle.bcj_elf.specs.Fields.{first_bad};
ghost use Rattle.bcj_elf.specs.Places.{fields};
ghost use Rattle.bcj_elf.specs.function.Judging.{verdict};

use crate::field::BadField;
use crate::judging_contents::judge_contents;
use crate::judging_headers::{judge_header, judge_section_headers, sizes_in};

/// The fields of a file in the order of reading.
#[tactic(auto, unfolding(crate::specs::Places::fields))]
pub fn judge_file(bytes: &[u8]) -> Result<(), BadField>
    ensures { verdict result ≡ first_bad bytes.now (fields bytes.now) }
{
    let shoff = judge_header(bytes)?;
    let s = sizes_in(bytes, shoff);
    judge_section_headers(bytes, shoff, &s)?;
    judge_contents(bytes, &s)
}
