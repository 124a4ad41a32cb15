//! A law of journals, for the reader of the access law.
ghost use Rattle.resin_stage.specs.Writes.{FrontsObey};

/// Does nothing. Its contract says of the access law that each front of a journal that obeys it obeys it too, so that it held at every moment of a
/// request.
pub fn journal_laws()
    ensures { FrontsObey }
{}
