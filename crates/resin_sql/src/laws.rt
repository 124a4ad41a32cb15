//! What the definitions say together.

ghost use Rattle.std.specs.Prelude.{ℕ, List};
ghost use Rattle.resin_sql.specs.Answers.{Answers};
ghost use Rattle.resin_sql.specs.Readings.{HasOneReading, read_as};

/// Each text has one answer, but for want of memory: a statement where it is one, or else the place of its fault.
pub fn sql_laws()
    ensures { (bytes : List ℕ) → HasOneReading Answers read_as bytes }
{}
