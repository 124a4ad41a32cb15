//! Laws of shadow texts.
ghost use Rattle.resin_shadow.specs.Laws.{HasOneText, SpellsOne, HasOneVersion};

/// The sets of a text's bytes have one shadow text of each version; a shadow text spells the sets of so many bytes in one way at most, and
/// is of one version unless it is empty.
pub fn shadow_laws()
    ensures text { HasOneText }
    ensures one { SpellsOne }
    ensures version { HasOneVersion }
{}
