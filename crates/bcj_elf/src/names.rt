//! Names of symbols.

ghost use Rattle.std.specs.Prelude.{◌≡◌};
ghost use Rattle.bcj_elf.specs.Rules.{before_end, at_end, is_code_name, is_tables_name, is_named};

use bcj_names::is_identifier;

/// What stands behind a class's name in the name of its code.
pub const CODE_ENDING: &[u8] = b".text";
/// What stands behind a class's name in the name of its tables.
pub const TABLES_ENDING: &[u8] = b".tab";

pub fn cut_end(name: &[u8], count: usize) -> (&[u8], &[u8])
    ensures front { result.0.now ≡ before_end count name.now }
    ensures back { result.1.now ≡ at_end count name.now }
{
    name.split_at(name.len().saturating_sub(count))
}

/// Whether it is the name of a class's code.
#[tactic(auto, unfolding(crate::specs::Rules::is_code_name))]
pub fn is_code_name(code: &[u8]) -> bool
    ensures { result ≡ is_code_name code.now }
{
    let (name, end) = cut_end(code, CODE_ENDING.len());
    is_identifier(name) && end == CODE_ENDING
}

/// Whether it is the name of the tables of the class whose code has this name.
#[tactic(auto, unfolding(crate::specs::Rules::is_tables_name))]
pub fn is_tables_name(code: &[u8], tables: &[u8]) -> bool
    ensures { result ≡ is_tables_name code.now tables.now }
{
    let (name, _) = cut_end(code, CODE_ENDING.len());
    let (again, end) = cut_end(tables, TABLES_ENDING.len());
    end == TABLES_ENDING && again == name
}

/// Whether these are the names of one class's code and tables.
#[tactic(auto, unfolding(crate::specs::Rules::is_named))]
pub fn is_named(code: &[u8], tables: &[u8]) -> bool
    ensures { result ≡ is_named code.now tables.now }
{
    is_code_name(code) && is_tables_name(code, tables)
}
