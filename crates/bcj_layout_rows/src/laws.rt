//! What holds of the definitions.

ghost use Rattle.bcj_layout_rows.specs.Laws as law;

/// The rows of the types that load come first and those of array types behind them, and selectors are numbered from 1.
pub fn numbers_begin()
    ensures classes { law.ClassesFirst }
    ensures arrays { law.ArraysBehind }
    ensures selectors { law.NumberedFromOne }
{}
