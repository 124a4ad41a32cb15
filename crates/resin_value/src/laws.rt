//! Laws of arrays and of comparisons, for the reader of their definitions.
ghost use Rattle.resin_value.specs.Laws.{FindsWhatWasPut, PutsAtOneKey, ForgetsWhatWasRemoved, RemovesOneKey, AppendsLast, IgnoresLabels};

/// Does nothing. Its contract says of the definitions of look-ups, changes and comparisons that what was put is found, that a change at one key
/// leaves the others, that what was taken out isn't found, that what is appended stands last, and that labels play no part in a comparison.
pub fn array_laws()
    ensures finds_what_was_put { FindsWhatWasPut }
    ensures puts_at_one_key { PutsAtOneKey }
    ensures forgets_what_was_removed { ForgetsWhatWasRemoved }
    ensures removes_one_key { RemovesOneKey }
    ensures appends_last { AppendsLast }
    ensures ignores_labels { IgnoresLabels }
{}
