//! What the definitions say together.

ghost use Rattle.std.specs.Prelude.{ℕ, List};
ghost use Rattle.resin_sql.specs.Readings.{HasOneReading};
ghost use Rattle.resin_joint.specs.Answers.{AnswersMore};
ghost use Rattle.resin_joint.specs.Readings.{read_more_as};

/// Each text has one answer, but for want of memory: a statement of the joint grammar where it is one, or else the place of its
/// fault.
pub fn joint_laws()
    ensures { (bytes : List ℕ) → HasOneReading AnswersMore read_more_as bytes }
{}
