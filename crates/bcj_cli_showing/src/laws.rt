//! Laws of the definitions.

ghost use Rattle.bcj_cli_showing.specs.Laws as law;

/// The spaces before a class that loads tell its way to Object.
pub fn steps_lead_to_object()
    ensures { law.StepsLeadToObject }
{}

/// The digits of a word write it.
pub fn digits_write_words()
    ensures { law.DigitsWriteWords }
{}
