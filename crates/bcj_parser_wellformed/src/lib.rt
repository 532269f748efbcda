//! What the grammar derives of the tokens of a text within the limits is well formed, and no interface that it derives has a constructor.
#![tactic(auto)]

ghost use Rattle.bcj_parser_wellformed.specs.Laws as law;

/// A unit that the grammar derives of the tokens of a text, with at most 64 types and at most 256 high, is well formed: its names
/// are identifiers, its types are those of values where values are, and have at most 255 pairs of brackets.
pub fn each_unit_is_well_formed()
    ensures formed { law.EachUnitIsWellFormed }
{}

/// In a unit that the grammar derives of the tokens of a text, of whatever size, no interface has a constructor (JLS 9.1.4).
pub fn interfaces_have_no_constructors()
    ensures none { law.InterfacesHaveNoConstructors }
{}
