//! The count of an object's calls, some of which fail.
ghost use Rattle.std.specs.Prelude.{◌≡◌, true, false, [], ◌∷◌};
ghost use Rattle.std.specs.Bool.{OnTrue, OnFalse};

use resin_base::FailList;

/// The calls so far that found memory, the numbers of those that fail, and how often one failed. Counts stay at their last value.
#[derive(Drop)]
pub struct Tally {
    pub fail: FailList,
    pub made: u64,
    pub faults: u64,
}

impl Tally {
    ghost use Rattle.resin_base.specs.Causes.{Counted, TellsMore};
    ghost use Rattle.resin_memory.specs.Tallies.{fails_next, counted, counted_fault, told_answers};

    /// No call so far.
    pub(crate) fn new(fail: FailList) -> Tally
        ensures { result ≡ record { fail = fail; made = 0; faults = 0 } }
    {
        Tally {
            fail,
            made: 0,
            faults: 0,
        }
    }

    /// Whether the next call fails. It is counted then.
    #[tactic(auto, using(crate::proofs::Telling::telling))]
    pub(crate) fn fails_now(&mut self) -> bool
        ensures value { result ≡ fails_next self.old }
        ensures failed { OnTrue result (self.new ≡ counted_fault self.old) }
        ensures cause { OnTrue result (Counted self.old.faults self.new.faults) }
        ensures told { OnTrue result (TellsMore (told_answers self.old) (told_answers self.new) (true ∷ [])) }
        ensures same { OnFalse result (self.new ≡ self.old) }
    {
        if self.made == u64::MAX || !self.fail.lists(self.made + 1) {
            return false;
        }
        self.made += 1;
        self.faults = self.faults.saturating_add(1);
        true
    }

    /// Counts a call that doesn't fail.
    #[tactic(auto, using(crate::proofs::Telling::telling))]
    pub(crate) fn count(&mut self)
        requires { fails_next self.old ≡ false }
        ensures counted { self.new ≡ counted self.old }
        ensures told { TellsMore (told_answers self.old) (told_answers self.new) (false ∷ []) }
    {
        self.made = self.made.saturating_add(1);
    }
}
