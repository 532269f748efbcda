//! What an object says of a class outside its records: where its code and its tables lie.

ghost use Rattle.std.specs.Prelude.{◌≡◌, ◌+◌, ◌*◌, ◌<◌, length, take, drop};
ghost use Rattle.bcj_elf.specs.Plain.{plain};
ghost use Rattle.bcj_tables.specs.Places as spec;

use bcj_elf::{Object, Relocation, RelocationKind};
use bcj_tables_rules::ClassPlace;

/// The bytes of what stands behind a class's name in the name of its code.
const CODE_ENDING: usize = 5;

/// The name of the class whose code has this symbol.
pub fn class_name(o: &Object, symbol: usize) -> &[u8]
    requires { symbol < length o.now.symbols.items }
    ensures { result.now ≡ spec.class_name (plain o.now) symbol }
{
    let name = o.symbols[symbol].name.as_slice();
    &name[..name.len().saturating_sub(CODE_ENDING)]
}

/// As many of the bytes from this place on, as there are.
fn part(bytes: &[u8], from: usize, size: usize) -> &[u8]
    ensures { result.now ≡ take size (drop from bytes.now) }
{
    if from > bytes.len() {
        return &[];
    }
    let left = &bytes[from..];
    if size < left.len() {
        &left[..size]
    } else {
        left
    }
}

/// Whether the section has only zeros there.
fn is_zero(bytes: &[u8], from: usize, size: usize) -> bool
    ensures { result ≡ spec.is_zero bytes.now from size }
{
    part(bytes, from, size).iter().all(|byte| *byte == 0)
}

/// Whether the relocation puts the address of the symbol into the word.
fn is_address(r: &Relocation, offset: u32, symbol: usize) -> bool
    ensures { result ≡ spec.is_address offset symbol r.now }
{
    let is_word = matches!(r.kind, RelocationKind::Word);
    is_word && r.offset == offset && r.symbol as usize == symbol && r.addend == 0
}

/// Whether the first of these relocations is that of the tables, and the next lies behind them.
#[tactic(auto, unfolding(crate::specs::Places::has_address))]
fn has_address(relocs: &[Relocation], offset: u32, size: u32, symbol: usize) -> bool
    ensures { result ≡ spec.has_address offset size symbol relocs.now }
{
    match relocs {
        [] => false,
        [r] => is_address(r, offset, symbol),
        [r, next, ..] => {
            is_address(r, offset, symbol) && offset as u64 + size as u64 <= next.offset as u64
        }
    }
}

/// The place of the class with this number.
pub fn place_of(o: &Object, class: usize) -> ClassPlace
    requires { 2 * class + 1 < length o.now.symbols.items }
    ensures { result ≡ spec.place_of (plain o.now) class }
{
    let code = &o.symbols[2 * class];
    let tables = &o.symbols[2 * class + 1];
    let (offset, size) = (tables.value, tables.size);
    let relocs = o.tab_relocs.as_slice();
    let left = if class <= relocs.len() {
        &relocs[class..]
    } else {
        &[]
    };
    let is_clean = is_zero(&o.tab, offset as usize, size as usize)
        && has_address(left, offset, size, 2 * class + 1);
    ClassPlace {
        code: code.value,
        code_size: code.size,
        table: offset,
        table_size: size,
        is_clean,
    }
}
