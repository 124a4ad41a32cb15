//! What keepers hold.
ghost use Rattle.resin_site.specs.Keeping.{TellsWhatIsHeld};

/// What keepers hold is told by the store in which each byte of a file carries its policies.
pub fn keeping_laws()
    ensures { TellsWhatIsHeld }
{}
