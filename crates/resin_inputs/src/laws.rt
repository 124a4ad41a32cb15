//! Laws of names, each on a function that does nothing.
ghost use Rattle.resin_inputs.specs.Names.{EntryLaw};

/// The names that put a value into an array are exactly those of the form `b[k]`.
pub fn entry_law()
    ensures { EntryLaw }
{}
