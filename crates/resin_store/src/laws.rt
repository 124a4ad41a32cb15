//! Laws of the labelled store.
ghost use Rattle.resin_store.specs.Laws.{KeepsEntries, KeepsFiles, LiftsGood, LiftsBad, LiftsWritten, KeepsCells, LiftsTexts, LiftsIntegers};

/// A keeper holds of the labelled entries, and of the whole labelled store, what they were made of. An entry is good exactly by the
/// policies that its shadow text tells for its bytes, and damaged where it tells none. What is written is read as what it was.
pub fn store_laws()
    ensures entries { KeepsEntries }
    ensures files { KeepsFiles }
    ensures good { LiftsGood }
    ensures bad { LiftsBad }
    ensures written { LiftsWritten }
{}

/// A keeper holds of a labelled cell what it was made of. A text is good exactly by the policies that its shadow text tells for its bytes,
/// and an integer by those that it tells for one byte.
pub fn cell_laws()
    ensures cells { KeepsCells }
    ensures texts { LiftsTexts }
    ensures integers { LiftsIntegers }
{}
