//! Laws of session texts.
ghost use Rattle.resin_session.specs.Laws.{KeepsOneArray, ReadsWhatIsKept};

/// A text keeps one array at most, and what is read from it is the array that it keeps.
pub fn session_laws()
    ensures one { KeepsOneArray }
    ensures read { ReadsWhatIsKept }
{}
