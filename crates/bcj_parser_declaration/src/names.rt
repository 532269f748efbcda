ghost use Rattle.std.specs.Prelude.{◌≡◌};
ghost use Rattle.bcj_parser_rules.specs.function.Declarations as rule;
ghost use Rattle.bcj_parser_rules.specs.function.Steps.{Reads};

use bcj_names::Name;
use bcj_parser_cursor::Cursor;
use bcj_parser_rules::{Mark, Site, Stop};
use sqlite_items::Items;
use std::alloc::Global;

/// One or more names with commas between.
#[tactic(auto, unfolding(bcj_parser_rules::specs::function::Declarations::names, bcj_parser_rules::specs::function::Declarations::one_name, bcj_parser_rules::specs::function::Expressions::listed))]
fn names(alloc: Global, cursor: &mut Cursor<'_>) -> Result<Items<Name>, Stop>
    ensures { Reads (λ ns. ns) (rule.names cursor.old) result cursor.new }
{
    let first = cursor.named(alloc, Site::Elsewhere)?;
    let mut found = Vec::new(alloc);
    found.push(first)?;
    for _turn in 0..cursor.len() {
        if !cursor.sees(Mark::Comma) {
            return Ok(Items::from_vec(found));
        }
        cursor.advance();
        let next = cursor.named(alloc, Site::Elsewhere)?;
        found.push(next)?;
    }
    Ok(Items::from_vec(found))
}

/// Names behind a word, or none where it doesn't stand next.
#[tactic(auto, unfolding(bcj_parser_rules::specs::function::Declarations::names_behind))]
pub fn names_behind(alloc: Global, cursor: &mut Cursor<'_>, word: Mark) -> Result<Items<Name>, Stop>
    ensures { Reads (λ ns. ns) (rule.names_behind word cursor.old) result cursor.new }
{
    if !cursor.sees(word) {
        return Ok(Items::new(alloc));
    }
    cursor.advance();
    names(alloc, cursor)
}

/// The class that a class extends, or none.
#[tactic(auto, unfolding(bcj_parser_rules::specs::function::Declarations::superclass))]
pub fn superclass(alloc: Global, cursor: &mut Cursor<'_>) -> Result<Items<Name>, Stop>
    ensures { Reads (λ ns. ns) (rule.superclass cursor.old) result cursor.new }
{
    if !cursor.sees(Mark::Extends) {
        return Ok(Items::new(alloc));
    }
    cursor.advance();
    let name = cursor.named(alloc, Site::Elsewhere)?;
    let mut names = Items::new(alloc);
    names.push(name)?;
    Ok(names)
}
