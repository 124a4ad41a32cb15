//! Laws of verdicts.
ghost use Rattle.resin_audit.specs.Verdicts.{HasOneVerdict};

/// A text has one verdict: what [`crate::audit`] answers comes exactly where it is so.
pub fn verdict_laws()
    ensures { HasOneVerdict }
{}
