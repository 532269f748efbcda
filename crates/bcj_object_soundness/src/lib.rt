//! What holds of the object of a unit that is well typed and within the limits: it is one that an object file can spell.
#![tactic(auto)]

ghost use Rattle.bcj_object_soundness.specs.Laws as law;

use bcj_lower_rules::{halves_are_placed, long_is_measured};
use bcj_lower_soundness::{lines_are_items, short_is_not_longer};
use bcj_symbolic_check::well_typed_law;
use bcj_symbolic_measure::entries_law;

/// Of a well-typed unit each class has a symbol for its code and one for its tables, and their regions fill both sections.
pub fn symbols_are_placed()
    ensures { law.SymbolsArePlaced }
{
    short_is_not_longer();
    well_typed_law();
}

/// Of a unit within the limits each relocation can be made in its section, and its entry can be read again.
pub fn relocations_are_in_place()
    ensures text { law.TextRelocationsAreInPlace }
    ensures tab { law.TabRelocationsAreInPlace }
{
    lines_are_items();
    halves_are_placed();
    objects_are_small();
}

/// The object file of each unit has at most as many bytes as are measured; so that of a unit within the limits has fewer than 2^32.
pub fn objects_are_small()
    ensures ends { law.EndsAreMeasured }
    ensures bytes { law.ObjectsAreMeasured }
    ensures small { law.ObjectsAreSmall }
{
    long_is_measured();
    short_is_not_longer();
    entries_law();
}

/// The object of a unit that is well typed and within the limits is an object: an ELF file spells it.
pub fn objects_are_well_formed()
    ensures { law.ObjectsAreWellFormed }
{
    symbols_are_placed();
    relocations_are_in_place();
    objects_are_small();
}
