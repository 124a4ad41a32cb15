//! Laws of runs, each on a function that does nothing.
ghost use Rattle.resin_serve.specs.Cutting.{AnyCutting, AskedTells, LivesTell, OneConnection, SameLives, SameRuns};
ghost use Rattle.resin_serve.specs.Denials.{EachIsALine, LogTellsDenials, SampleTellsDenials};
ghost use Rattle.resin_serve.specs.Exchange.{ExchangedRuns};
ghost use Rattle.resin_serve.specs.Recorded.{RecordsPass};

/// No cutting of a connection's stream into pieces changes what it asks.
pub fn any_cutting()
    ensures { AnyCutting }
{}

/// Runs that are asked the same on the same connections, in the same order, give the same bytes, make the same keeper calls and leave the same state.
pub fn asked_tells()
    ensures { AskedTells }
{}

/// What a trace asks on a connection is what the streams of its lives ask, one life after another.
pub fn lives_tell()
    ensures { LivesTell }
{}

/// Two traces ask the same on a connection whose lives have the same streams in both, however the traces are cut and mixed.
pub fn same_lives()
    ensures { SameLives }
{}

/// Two traces that ask the same on the same connections, in the same order, have the same runs: over the same site, with the same fuel and failing
/// calls, they give the same output, mail and log and leave the same files and tables.
pub fn same_runs()
    ensures { SameRuns }
{}

/// Two traces on one connection whose lives have the same streams ask the same in the same order, and have the same runs.
pub fn one_connection()
    ensures { OneConnection }
{}

/// A whole recorded run leaves in the log the journal file of its answers, and what [`resin_audit::audit`] says of that file is Yes, with the number
/// of the answers and of their events.
pub fn recorded_runs()
    ensures { RecordsPass }
{}

/// Two neighbouring answers of a run that leave each other's files and tables alone may come in either order: they are the same but for
/// their numbers, and all else that the run gives, its keeper calls and what it leaves are the same.
pub fn exchanged_runs()
    ensures { ExchangedRuns }
{}

/// Each denial of a run is one line of its log, which has no other, so that the line of the sample tells the number of denials.
pub fn sample_counts_denials()
    ensures line { EachIsALine }
    ensures run { LogTellsDenials }
    ensures sample { SampleTellsDenials }
{}
