//! Laws of the records of a trace.
ghost use Rattle.std.specs.Prelude.{◌≡◌, ℕ, ◌++◌, ◌∷◌, [], List, Option, Result, Ok, Err};
ghost use Rattle.resin_trace.specs.declared.event.TraceEvent.{TraceEvent};
ghost use Rattle.resin_trace.specs.declared.reader.TraceFault.{TraceFault};
ghost use Rattle.resin_trace.specs.Records.{HasRecords, Records, OnlyRecords};
ghost use Rattle.resin_trace.specs.Seen.{Seen, begin, fed};
ghost use Rattle.resin_trace.specs.Reads.{HandsOut, Reads, Finishes};
ghost use Rattle.resin_trace.specs.Verdicts.{Ends, HasRead, HasEnd, IsMemoryOr};

/// Each text has one longest run of records, and each trace ends in one of three ways.
pub fn trace_laws()
    ensures some { (text : List ℕ) → HasRecords text }
    ensures one { (text : List ℕ) (events : List (TraceEvent × ℕ)) (rest : List ℕ) → Records text events rest → OnlyRecords text events rest }
    ensures some_end { (trace : List ℕ) → HasEnd trace }
    ensures one_end { (trace : List ℕ) (a b : Result Unit TraceFault) → Ends trace a → Ends trace b → a ≡ b }
{}

/// A reader hands out the records of all bytes that it was fed, in order and each once, and its faults are those of
/// the trace that these bytes are.
pub fn reader_laws()
    ensures begins { HasRead [] [] begin }
    ensures feeds { (trace piece : List ℕ) (handed : List (TraceEvent × ℕ)) (s : Seen)
        → HasRead trace handed s → HasRead (trace ++ piece) handed (fed s piece) }
    ensures hands { (trace : List ℕ) (handed : List (TraceEvent × ℕ)) (s t : Seen) (event : TraceEvent) → HasRead trace handed s → HandsOut s event t
        → HasRead trace (handed ++ (event, t.place) ∷ []) t }
    ensures breaks { (trace : List ℕ) (handed : List (TraceEvent × ℕ)) (s t : Seen) (fault : TraceFault)
        → HasRead trace handed s → Reads s (Err fault) t → IsMemoryOr fault (Ends trace (Err fault)) }
    ensures finishes { (trace : List ℕ) (handed : List (TraceEvent × ℕ)) (s : Seen) (answer : Result Unit TraceFault)
        → HasRead trace handed s → Finishes s answer → Ends trace answer }
{}
